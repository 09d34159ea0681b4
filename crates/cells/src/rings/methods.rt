// The ring as a store, with its order.
ghost use Rattle.std.specs.Prelude.{◌≡◌, ◌<◌, length, map};
ghost use Rattle.std.proofs.Common.{sym, ap, ◌∙◌};
ghost use Rattle.frame.specs.Numbers.{cell_number, id_number};
ghost use Rattle.frame.specs.Refusals.{told};
ghost use Rattle.cells.specs.Stores.{all_free, given_back, held_in, Granted};
ghost use Rattle.cells.specs.Orders.{first_order, granted_first, order, put_last, ring_marks};
ghost use Rattle.cells.specs.FreeCells.{length_marked};

use crate::fifos::Fifo;
use crate::rings::Ring;
use crate::stores::{CELLS, Store};
use frame::classes::Class;
use frame::numbers::{Cell, CellId};
use frame::refusals::Refusal;
use std::array;

// The cell at this place.
fn cell_at(place: usize) -> Cell
    requires { place < 32 }
    ensures { cell_number result ≡ place }
{
    Cell::new(place as u8).unwrap()
}

// The cells, from 0 on.
fn in_order() -> [Cell; CELLS]
    ensures { map cell_number result ≡ first_order }
{
    array::from_fn(cell_at)
}

impl Ring {
    // The cell of this number, or refusal 11 where there is none or it is free.
    fn held(&self, cell: CellId) -> Result<Cell, Refusal>
        ensures { told cell_number result ≡ held_in (ring_marks self.now) (id_number cell) }
    {
        Cell::new(cell.0)
            .filter(|cell| !self.marks[cell.index()])
            .ok_or(Refusal::CellNotHeld(cell))
    }
}

impl Store for Ring {
    ghost marks = { ring_marks };

    ghost wide = { λ s. ap length (sym s.exact) ∙ length_marked (order s) };

    fn fresh() -> Ring
        ensures answer { ring_marks result ≡ all_free }
        ensures order { order result ≡ first_order }
    {
        Ring {
            cells: in_order(),
            free: Fifo::full(),
            marks: [true; CELLS],
        }
    }

    fn grant(&mut self) -> Result<Cell, Refusal>
        ensures answer { Granted (ring_marks self.old) (told cell_number result) (ring_marks self.new) }
        ensures order { (told cell_number result, order self.new) ≡ granted_first (order self.old) }
    {
        let first = self.free.pop(&self.cells);
        let cell = first.ok_or(Refusal::TooFewCells(Class::BestEffort))?;
        self.marks[cell.index()] = false;
        Ok(cell)
    }

    fn give_back(&mut self, cell: CellId) -> Result<(), Refusal>
        ensures answer { (told (λ u. u) result, ring_marks self.new) ≡ given_back (ring_marks self.old) (id_number cell) }
        ensures order { order self.new ≡ put_last (told (λ u. u) result) (order self.old) (id_number cell) }
    {
        let held = self.held(cell)?;
        self.free.push(&mut self.cells, held);
        self.marks[held.index()] = true;
        Ok(())
    }

    fn free(&self) -> usize {
        self.free.len() as usize
    }
}
