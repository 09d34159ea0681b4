// The state of the switch beside its store and its kinds: the ports, and a cell for each frame that has a copy there.
ghost use Rattle.std.specs.Prelude.{◌≡◌, ℕ, ◌<◌, ◌≤◌, map, length, slice_index};
ghost use Rattle.buffers.specs.Boards.{lines};
ghost use Rattle.buffers.specs.Entries.{in_cell, over_line, over_lines, price_of, stray};
ghost use Rattle.buffers.specs.Frames.{held};

use crate::boards::Board;
use crate::frames::Frames;
use cells::stores::CELLS;

pub mod changes;
pub mod reads;

// A count is that of the copies in a cell. Every entry's cell holds the frame of its number, and a port has each cell
// at most once.
#[derive(Drop)]
pub struct Buffers {
    board: Board,
    frames: Frames,
    // Beside what is kept of each frame: ending a copy changes a count, and nothing that is known of the frames.
    counts: [u8; CELLS],
    ghost wide: { length counts ≡ 32 },
    ghost counted: { (c : ℕ) → slice_index counts c ≡ over_lines (in_cell c) (lines board) },
    ghost known: { over_lines (stray (held frames)) (lines board) ≡ 0 },
    ghost once: { (p c : ℕ) → over_line (in_cell c) (lines board p) ≤ 1 },
    ghost priced: { (p : ℕ) → p < 4 → (lines board p).prices ≡ map (price_of (held frames)) ((lines board p).queue 2) },
}
