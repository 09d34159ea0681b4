// A store that grants the cell longest free.
ghost use Rattle.std.specs.Prelude.{◌≡◌, map};
ghost use Rattle.frame.specs.Numbers.{cell_number};
ghost use Rattle.cells.specs.Stores.{free_count};
ghost use Rattle.cells.specs.Fifos.{items, queued};
ghost use Rattle.cells.specs.Rings.{marked};

use crate::fifos::Fifo;
use crate::stores::CELLS;
use frame::numbers::Cell;

pub mod methods;

// The free cells are queued. A cell's mark, true where it is free, tells in one step whether it is in the queue.
#[derive(Drop)]
pub struct Ring {
    cells: [Cell; CELLS],
    free: Fifo,
    marks: [bool; CELLS],
    ghost exact: { marked (map cell_number (items free cells)) ≡ marks },
    ghost counted: { free_count marks ≡ queued free },
}
