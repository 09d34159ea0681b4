// The rule with fixed floors.
ghost use Rattle.cells.specs.Rules.{ladder_floors};
ghost use Rattle.std.proofs.Common.{rules};

use crate::rules::Rule;
use frame::classes::Class;

#[derive(Clone, Copy, Debug)]
pub struct Ladder;

impl Rule for Ladder {
    ghost floors = { λ _. ladder_floors };

    ghost fair = { Prim.search rules };

    fn floor(&self, class: Class) -> usize {
        match class {
            Class::BestEffort => 4,
            Class::Reserved => 3,
            Class::Clock | Class::TimeSensitive => 1,
        }
    }
}
