// Ports.
ghost use Rattle.std.specs.Prelude.{◌≡◌, ◌^◌, ◌≤◌};
ghost use Rattle.frame.specs.Numbers.{port_number, port_named};
ghost use Rattle.frame.specs.Refusals.{told};

use crate::numbers::Port;
use crate::refusals::Refusal;

impl TryFrom<u8> for Port {
    type Error = Refusal;

    ghost try_from_gives = { λ number r. told port_number r ≡ port_named number };

    fn try_from(number: u8) -> Result<Port, Refusal>
        ensures { told port_number result ≡ port_named number }
    {
        if number > 3 {
            return Err(Refusal::NoSuchPort(number));
        }
        Ok(Port { number })
    }
}

impl Port {
    // All four, in their order.
    pub const ALL: [Port; 4] = [
        Port { number: 0 },
        Port { number: 1 },
        Port { number: 2 },
        Port { number: 3 },
    ];

    // The port at which a monitor listens, where there is one.
    pub const TAP: Port = Port { number: 3 };

    pub fn number(self) -> u8
        ensures { result ≡ port_number self }
    {
        self.number
    }

    // The port's place in a list of all ports.
    pub fn index(self) -> usize
        ensures { result ≡ port_number self }
    {
        usize::from(self.number)
    }

    // What the port counts in a set.
    pub(super) fn weight(self) -> u8
        ensures value { result ≡ 2 ^ port_number self }
        ensures bound { result ≤ 8 }
    {
        1 << self.number
    }
}
