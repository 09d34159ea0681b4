// The store of frame memory cells: what every kind of it means.
ghost use Rattle.std.specs.Prelude.{◌≡◌, Bool, true, List, length};
ghost use Rattle.frame.specs.Numbers.{cell_number, id_number};
ghost use Rattle.frame.specs.Refusals.{told};
ghost use Rattle.cells.specs.Stores.{all_free, cell_count, free_count, given_back, Granted};

use frame::numbers::{Cell, CellId};
use frame::refusals::Refusal;

// How many cells there are, numbered from 0.
pub const CELLS: usize = 32;

pub trait Store {
    // Which cells are free: the mark of cell c is true where c is.
    ghost marks: { Self → List Bool };

    // A new store, in which every cell is free.
    fn fresh() -> Self
        ensures answer { marks result ≡ all_free };

    // Takes out some free cell; which one, the kind says.
    fn grant(&mut self) -> Result<Cell, Refusal>
        ensures answer { Granted (marks self.old) (told cell_number result) (marks self.new) };

    // Puts a held cell in again.
    fn give_back(&mut self, cell: CellId) -> Result<(), Refusal>
        ensures answer { (told (λ u. u) result, marks self.new) ≡ given_back (marks self.old) (id_number cell) };

    // How many cells are free.
    fn free(&self) -> usize
        ensures answer { result ≡ free_count (marks self.now) };

    ghost wide: { (s : Self) → length (marks s) ≡ cell_count };
}

// Takes every free cell out, and answers which came.
pub fn drain<S: Store>(store: &mut S) -> [bool; CELLS]
    ensures answer { result ≡ S.marks store.old }
    ensures state { free_count (S.marks store.new) ≡ 0 }
{
    let mut came = [false; CELLS];
    while let Ok(cell) = store.grant() {
        came[cell.index()] = true;
    }
    came
}

// The power-on self test: a new store grants every cell, and then none.
// As many grants as there are cells brought all of them, so none came twice.
pub fn self_test<S: Store + Drop>() -> bool
    ensures { result ≡ true }
{
    let mut store = S::fresh();
    let came = drain(&mut store);
    came == [true; CELLS] && store.grant().is_err()
}
