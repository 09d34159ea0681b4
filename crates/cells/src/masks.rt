// A store that is a number of 32 bits, and grants the highest free cell.
ghost use Rattle.std.specs.Prelude.{◌≡◌};
ghost use Rattle.frame.specs.Refusals.{told};
ghost use Rattle.frame.specs.Numbers.{cell_number, id_number};
ghost use Rattle.cells.specs.Stores.{free_at, held_in, Granted};
ghost use Rattle.cells.specs.Masks.{mask_marks, Highest};
ghost use Rattle.cells.specs.Digits.{length_digits};

use crate::stores::Store;
use frame::classes::Class;
use frame::numbers::{Cell, CellId};
use frame::refusals::Refusal;

// Bit c is set where cell c is free.
#[derive(Drop)]
pub struct Mask {
    bits: u32,
}

impl Mask {
    fn is_free(&self, cell: Cell) -> bool
        ensures { result ≡ free_at (mask_marks self.now) (cell_number cell) }
    {
        (self.bits >> cell.index()) % 2 == 1
    }

    // The cell of this number, or refusal 11 where there is none or it is free. The ring asks the same of its marks; a method of the
    // trait for both would ask one more thing of every kind of store.
    fn held(&self, cell: CellId) -> Result<Cell, Refusal>
        ensures { told cell_number result ≡ held_in (mask_marks self.now) (id_number cell) }
    {
        Cell::new(cell.0)
            .filter(|cell| !self.is_free(*cell))
            .ok_or(Refusal::CellNotHeld(cell))
    }
}

impl Store for Mask {
    ghost marks = { mask_marks };

    ghost wide = { λ s. length_digits 32 s.bits };

    fn fresh() -> Mask {
        Mask { bits: u32::MAX }
    }

    fn grant(&mut self) -> Result<Cell, Refusal>
        ensures answer { Granted (mask_marks self.old) (told cell_number result) (mask_marks self.new) }
        ensures order { Highest (mask_marks self.old) (told cell_number result) }
    {
        // Not by `ok_or`: what is known of a logarithm is said by cases, which the pattern opens for the proof.
        let Some(top) = self.bits.checked_ilog2() else {
            return Err(Refusal::TooFewCells(Class::BestEffort));
        };
        self.bits &= !(1 << top);
        Ok(Cell::new(top as u8).unwrap())
    }

    fn give_back(&mut self, cell: CellId) -> Result<(), Refusal> {
        let held = self.held(cell)?;
        self.bits |= 1 << held.index();
        Ok(())
    }

    fn free(&self) -> usize {
        self.bits.count_ones() as usize
    }
}
