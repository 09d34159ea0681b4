// The plan that needs no list: it goes by the slot's parity.
ghost use Rattle.gates.specs.Parities.{parity_fills, parity_opens};
ghost use Rattle.std.proofs.Common.{rules};

use crate::plans::Plan;
use frame::numbers::{Queue, Slot};

#[derive(Clone, Copy)]
pub struct Parity;

impl Plan for Parity {
    ghost fills = { λ _. parity_fills };

    ghost opens = { λ _. parity_opens };

    ghost pair = { Prim.search rules };

    ghost turns = { Prim.search rules };

    ghost shut = { Prim.search rules };

    ghost sends = { Prim.search rules };

    fn fill(&self, slot: Slot) -> Queue {
        if slot.number() % 2 == 0 {
            Queue::Cyclic0
        } else {
            Queue::Cyclic1
        }
    }

    fn is_open(&self, slot: Slot, queue: Queue) -> bool {
        queue != self.fill(slot)
    }
}
