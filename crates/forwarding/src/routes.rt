// The answer of a forwarding, what every forwarding promises, and what any of them can be asked.
ghost use Rattle.std.specs.Prelude.{◌≡◌, ℕ, ◌^◌, ◌<◌};
ghost use Rattle.std.specs.Option.{option_map};
ghost use Rattle.frame.specs.Numbers.{address_bits, port_number, set_bits};
ghost use Rattle.forwarding.specs.Ways.{Way, Proper, formed, leaves_at};
ghost use Rattle.forwarding.specs.Routes.{way};

use frame::numbers::{Address, Port, PortSet};

// The largest set of ports.
pub const ALL_PORTS: u8 = 15;

// Why a frame goes nowhere.
#[derive(Clone, Copy, PartialEq, Eq)]
pub enum NoRoute {
    // No port is known for it.
    Unknown,
    // It came in at the tap port.
    Tap,
}

// The ports to which a frame goes.
pub type Route = Result<PortSet, NoRoute>;

pub trait Forwarding {
    // Where a frame to this destination goes that came in at this port.
    ghost forwards: { Self → ℕ → ℕ → Way };

    fn route(&self, destination: Address, input: Port) -> Route
        ensures { way result ≡ forwards self.now (address_bits destination) (port_number input) };

    // A frame goes to some port, and never back to the port where it came in.
    ghost proper: { (f : Self) (d p : ℕ) → d < 2 ^ 48 → p < 4 → Proper p (forwards f d p) };
}

// The answer for a frame whose row has this set: the input port is taken out.
pub fn form(row: Option<PortSet>, input: Port) -> Route
    ensures { way result ≡ formed (option_map set_bits row) (port_number input) }
{
    row.map(|set| set.without(input))
        .filter(|rest| !rest.is_empty())
        .ok_or(NoRoute::Unknown)
}

// Whether a frame that came in at one port would leave at another.
pub fn reaches<F: Forwarding>(
    forwarding: &F,
    destination: Address,
    input: Port,
    output: Port,
) -> bool
    ensures { result ≡ leaves_at (F.forwards forwarding.now (address_bits destination) (port_number input)) (port_number output) }
{
    forwarding
        .route(destination, input)
        .is_ok_and(|set| set.has(output))
}
