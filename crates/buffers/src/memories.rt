// The frame memory: a cell for each frame that is held.
ghost use Rattle.std.specs.Prelude.{◌≡◌, ℕ, ◌≤◌, ◌++◌, length, drop, ◌≢◌, slice_index};
ghost use Rattle.frame.specs.Numbers.{cell_number};
ghost use Rattle.buffers.specs.Memories.{cell_bytes};

use cells::stores::CELLS;
use frame::numbers::Cell;

// The bytes of a cell, and of all 32 of them.
pub const CELL_BYTES: usize = 1536;

pub const MEMORY_BYTES: usize = CELLS * CELL_BYTES;

// By the project's rule one array behind its own methods.
#[derive(Drop)]
pub struct Memory {
    bytes: [u8; MEMORY_BYTES],
}

impl Memory {
    // Zeros in every cell.
    pub(crate) fn new() -> Memory
        ensures { (c n i : ℕ) → slice_index (cell_bytes result c n) i ≡ 0 }
    {
        Memory {
            bytes: [0; MEMORY_BYTES],
        }
    }

    // Writes a frame into a cell.
    pub(crate) fn write(&mut self, cell: Cell, frame: &[u8])
        requires { length frame.now ≤ 1536 }
        ensures own { cell_bytes self.new (cell_number cell) (length frame.now) ≡ frame.now }
        ensures others { (c n : ℕ) → (c ≢ cell_number cell) → n ≤ 1536 → cell_bytes self.new c n ≡ cell_bytes self.old c n }
    {
        let at = cell.index() * CELL_BYTES;
        self.bytes[at..at + frame.len()].copy_from_slice(frame);
    }

    // Writes the first `count` bytes of a cell to the front of the buffer.
    pub(crate) fn read(&self, cell: Cell, count: usize, buffer: &mut [u8])
        requires { (count ≤ 1536) × (count ≤ length buffer.old) }
        ensures { buffer.new ≡ cell_bytes self.now (cell_number cell) count ++ drop count buffer.old }
    {
        let at = cell.index() * CELL_BYTES;
        buffer[0..count].copy_from_slice(&self.bytes[at..at + count]);
    }
}
