// What is read of a frame that comes in, and where it goes.
ghost use Rattle.std.specs.Prelude.{◌≡◌, ℕ};
ghost use Rattle.frame.specs.Numbers.{address_bits, port_number, set_bits};
ghost use Rattle.frame.specs.Refusals.{told};
ghost use Rattle.switch.specs.Headings.{heading, heading_of, ports_by};

use forwarding::routes::{Forwarding, NoRoute};
use frame::classes::Class;
use frame::numbers::{Address, Port, PortSet};
use frame::readings::read;
use frame::refusals::Refusal;

// The port where a frame came in, its destination and its class.
#[derive(Clone, Copy)]
pub(crate) struct Heading {
    pub(crate) input: Port,
    pub(crate) destination: Address,
    pub(crate) class: Class,
}

pub(crate) fn read_heading(port: u8, bytes: &[u8]) -> Result<Heading, Refusal>
    ensures { told heading result ≡ heading_of port bytes.now }
{
    let input = Port::try_from(port)?;
    let frame = read(bytes)?;
    Ok(Heading {
        input,
        destination: frame.destination,
        class: frame.reading.class(),
    })
}

// The ports that the frame goes to.
pub(crate) fn find_ports<F: Forwarding>(
    forwarding: &F,
    heading: Heading,
) -> Result<PortSet, Refusal>
    ensures { told set_bits result ≡ ports_by (F.forwards forwarding.now (address_bits heading.destination) (port_number heading.input)) (port_number heading.input) }
{
    let port = heading.input;
    forwarding
        .route(heading.destination, port)
        .map_err(|none| match none {
            NoRoute::Tap => Refusal::TapPort(port.number()),
            NoRoute::Unknown => Refusal::NoWayOut(port.number()),
        })
}
