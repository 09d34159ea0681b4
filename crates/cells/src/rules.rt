// The admission rule: how many cells must be free for a frame to be admitted, by its class.
ghost use Rattle.std.specs.Prelude.{◌≡◌, ℕ};
ghost use Rattle.frame.specs.Classes.{class_number};
ghost use Rattle.cells.specs.Rules.{admitted, Fair};

use crate::stores::CELLS;
use frame::classes::Class;

// One more than there are cells: a class with this floor is never admitted.
pub const NEVER: usize = CELLS + 1;

pub trait Rule {
    // The floor of each class, by the class's number.
    ghost floors: { Self → ℕ → ℕ };

    fn floor(&self, class: Class) -> usize
        ensures answer { result ≡ floors self.now (class_number class) };

    ghost fair: { (r : Self) → Fair (floors r) };
}

// Whether a frame of this class is admitted where so many cells are free.
pub fn admits<R: Rule>(rule: &R, class: Class, free: usize) -> bool
    ensures { result ≡ admitted (R.floors rule.now (class_number class)) free }
{
    rule.floor(class) <= free
}
