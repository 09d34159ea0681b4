// The frames that the cells hold, and what is known of each.
ghost use Rattle.std.specs.Prelude.{◌≡◌, ℕ, ◌^◌, ◌<◌, ◌≤◌, length};
ghost use Rattle.frame.specs.Classes.{class_number};
ghost use Rattle.rules.specs.Copies.{cost};
ghost use Rattle.buffers.specs.Kept.{copy_like, frame_in, kept_at};

use crate::memories::Memory;
use cells::stores::CELLS;
use frame::classes::Class;
use frame::numbers::{Cell, FrameNumber};

// The cost is what each copy of the frame costs where copies are paid for. A cell that held no frame yet has
// length 0, so that its bytes, none, are read as those of any other; an Option would make a case of what no call reaches.
#[derive(Clone, Copy)]
pub struct Kept {
    pub number: FrameNumber,
    pub length: usize,
    pub class: Class,
    pub cost: u32,
}

// What a cell holds or held last has a number of its own, below that of the next frame, and its cost is the definition's.
#[derive(Drop)]
pub struct Frames {
    memory: Memory,
    kept: [Kept; CELLS],
    next: u64,
    ghost short: { (c : ℕ) → (kept_at kept c).length ≤ 1518 },
    ghost long: { (c : ℕ) → length (frame_in memory kept c).bytes ≡ (kept_at kept c).length },
    ghost costed: { (c : ℕ) → (kept_at kept c).cost ≡ cost (frame_in memory kept c) },
    ghost apart: { (c d : ℕ) → (0 < (kept_at kept c).length) × (0 < (kept_at kept d).length) × ((kept_at kept c).number.0 ≡ (kept_at kept d).number.0) → c ≡ d },
    ghost young: { (c : ℕ) → 0 < (kept_at kept c).length → (kept_at kept c).number.0 < next },
    ghost last: { next ≤ 2 ^ 48 },
}

// What a copy of this frame costs of its port's tokens. No other code knows how a cost comes about.
fn cost_of(class: Class, frame: &[u8]) -> u32
    requires { length frame.now ≤ 1518 }
    ensures { result ≡ cost (copy_like (class_number class) frame.now) }
{
    match class {
        Class::Reserved => frame.len() as u32,
        _ => 0,
    }
}

impl Frames {
    ghost use Rattle.std.specs.Prelude.{◌+◌, ◌++◌, drop};
    ghost use Rattle.frame.specs.Numbers.{cell_number};
    ghost use Rattle.rules.specs.Copies.{put};
    ghost use Rattle.buffers.specs.Frames.{held, no_frame, upcoming, Describes};

    // No frame is in a cell, and the first one gets this number.
    pub(crate) fn new(first: u64) -> Frames
        requires { first ≤ 2 ^ 48 }
        ensures state { held result ≡ (λ c. no_frame) }
        ensures number { upcoming result ≡ first }
    {
        Frames {
            memory: Memory::new(),
            kept: [Kept {
                number: FrameNumber(0),
                length: 0,
                class: Class::BestEffort,
                cost: 0,
            }; CELLS],
            next: first,
        }
    }

    // The number that the next frame gets.
    pub(crate) fn next(&self) -> u64
        ensures { result ≡ upcoming self.now }
    {
        self.next
    }

    pub(crate) fn get(&self, cell: Cell) -> Kept
        ensures { Describes result (held self.now (cell_number cell)) }
    {
        self.kept[cell.index()]
    }

    // Writes a frame into a cell, and gives it the next number. That the frame is of a frame's length, and that there is a next
    // number, is asked, as above: only some are so, and Arrive tests it.
    pub(crate) fn place(&mut self, cell: Cell, class: Class, frame: &[u8]) -> FrameNumber
        requires some { 0 < length frame.now }
        requires short { length frame.now ≤ 1518 }
        requires numbers { upcoming self.old < 2 ^ 48 }
        ensures answer { result.0 ≡ upcoming self.old }
        ensures state { held self.new ≡ put (held self.old) (cell_number cell) (record { number = upcoming self.old; class = class_number class; bytes = frame.now }) }
        ensures number { upcoming self.new ≡ upcoming self.old + 1 }
    {
        let number = FrameNumber(self.next);
        self.next += 1;
        self.memory.write(cell, frame);
        self.kept[cell.index()] = Kept {
            number,
            length: frame.len(),
            class,
            cost: cost_of(class, frame),
        };
        number
    }

    // Writes the frame in a cell to the front of a buffer. That it has room is asked, as above: Look tests it.
    pub(crate) fn read(&self, cell: Cell, buffer: &mut [u8])
        requires { length (held self.now (cell_number cell)).bytes ≤ length buffer.old }
        ensures { buffer.new ≡ (held self.now (cell_number cell)).bytes ++ drop (length (held self.now (cell_number cell)).bytes) buffer.old }
    {
        let kept = self.get(cell);
        self.memory.read(cell, kept.length, buffer);
    }
}
