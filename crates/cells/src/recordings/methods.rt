// The layer as a store, and what it wrote down.
ghost use Rattle.std.specs.Prelude.{◌≡◌, [], map};
ghost use Rattle.frame.specs.Refusals.{told};
ghost use Rattle.frame.specs.Numbers.{cell_number, id_number};
ghost use Rattle.cells.specs.Stores.{Granted, all_free, given_back};
ghost use Rattle.cells.specs.Recordings.{recorded, written_as};

use crate::recordings::Recording;
use crate::stores::Store;
use arrayvec::ArrayVec;
use frame::numbers::{Cell, CellId};
use frame::refusals::Refusal;

impl<S> Recording<S> {
    // The cells that were granted, the first grant first.
    pub fn recorded(&self) -> &[CellId]
        ensures { map id_number result.now ≡ recorded self.now }
    {
        self.cells.as_slice()
    }
}

impl<S: Store> Store for Recording<S> {
    ghost marks = { λ r. S.Store.marks r.below };

    ghost wide = { λ r. S.Store.wide r.below };

    fn fresh() -> Recording<S>
        ensures answer { S.Store.marks result.below ≡ all_free }
        ensures recorded { recorded result ≡ [] }
    {
        Recording {
            below: S::fresh(),
            cells: ArrayVec::new(),
        }
    }

    fn grant(&mut self) -> Result<Cell, Refusal>
        ensures answer { Granted (S.Store.marks self.old.below) (told cell_number result) (S.Store.marks self.new.below) }
        ensures recorded { recorded self.new ≡ written_as (told cell_number result) (recorded self.old) }
    {
        let cell = self.below.grant()?;
        let _ = self.cells.try_push(cell.id());
        Ok(cell)
    }

    fn give_back(&mut self, cell: CellId) -> Result<(), Refusal>
        ensures answer { (told (λ u. u) result, S.marks self.new.below) ≡ given_back (S.marks self.old.below) (id_number cell) }
        ensures recorded { recorded self.new ≡ recorded self.old }
    {
        self.below.give_back(cell)
    }

    fn free(&self) -> usize {
        self.below.free()
    }
}
