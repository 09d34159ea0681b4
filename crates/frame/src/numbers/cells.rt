// Memory cells.
ghost use Rattle.std.specs.Prelude.{◌≡◌};
ghost use Rattle.std.specs.Option.{option_map};
ghost use Rattle.frame.specs.Numbers.{below, cell_number};

use crate::numbers::{Cell, CellId};

impl Cell {
    pub fn new(number: u8) -> Option<Cell>
        ensures { option_map cell_number result ≡ below 32 number }
    {
        if number > 31 {
            return None;
        }
        Some(Cell { number })
    }

    pub fn id(self) -> CellId
        ensures { result.0 ≡ cell_number self }
    {
        CellId(self.number)
    }

    // The cell's place in a list of all cells.
    pub fn index(self) -> usize
        ensures { result ≡ cell_number self }
    {
        usize::from(self.number)
    }
}
