// The tap layer: what any forwarding below it sends on is also sent to the tap port.
ghost use Rattle.std.specs.Prelude.{◌≡◌};
ghost use Rattle.frame.specs.Numbers.{set_bits};
ghost use Rattle.forwarding.specs.Ways.{tapped, tapped_set};
ghost use Rattle.forwarding.specs.Routes.{way};
ghost use Rattle.forwarding.specs.Sets.{tapped_proper};

use crate::routes::{Forwarding, NoRoute, Route, form};
use frame::numbers::{Address, Port, PortSet};

// A forwarding with the tap layer over it.
#[derive(Drop)]
pub struct Tapped<F> {
    pub below: F,
}

impl<F: Forwarding> Forwarding for Tapped<F> {
    ghost forwards = { λ t d p. tapped (F.Forwarding.forwards t.below d p) p };

    ghost proper = { λ f d p hd hp. tapped_proper (F.Forwarding.forwards f.below d p) p hp (F.Forwarding.proper f.below d p hd hp) };

    fn route(&self, destination: Address, input: Port) -> Route {
        if input == Port::TAP {
            return Err(NoRoute::Tap);
        }
        tap_set(self.below.route(destination, input)?)
    }
}

// The answer where these ports are known: the tap port alone is no way, and joins every other.
fn tap_set(set: PortSet) -> Route
    ensures { way result ≡ tapped_set (set_bits set) }
{
    let rest = form(Some(set), Port::TAP)?;
    Ok(rest.with(Port::TAP))
}
