// How a copy ends, and what that does to the cell of its frame.
ghost use Rattle.std.specs.Prelude.{◌≡◌, ◌-◌, ◌<◌, slice_index, slice_set};
ghost use Rattle.frame.specs.Numbers.{cell_number};
ghost use Rattle.buffers.specs.Endings.{ended, id_of};

use cells::stores::CELLS;
use frame::numbers::{Cell, CellId};

// Two cases with words of their own: that no copy ended, and that no cell came free, would else be two Options, one in the
// other.
#[derive(Clone, Copy)]
pub enum Ended {
    // Its frame has other copies.
    Shared,
    // It was the last copy of its frame, whose cell is free now.
    Last(CellId),
}

// Takes one copy off the count of a cell.
pub(crate) fn uncount(counts: &mut [u8; CELLS], cell: Cell) -> Ended
    requires { 0 < slice_index counts.old (cell_number cell) }
    ensures answer { result ≡ ended (slice_index counts.old (cell_number cell)) (id_of cell) }
    ensures state { counts.new ≡ slice_set counts.old (cell_number cell) (slice_index counts.old (cell_number cell) - 1) }
{
    let at = cell.index();
    counts[at] -= 1;
    if counts[at] > 0 {
        return Ended::Shared;
    }
    Ended::Last(cell.id())
}
