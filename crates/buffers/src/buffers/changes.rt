// What changes the state. Each change is one of the definition's.
ghost use Rattle.std.specs.Prelude.{◌≡◌, ℕ, ◌+◌, ◌^◌, ◌<◌, ◌≤◌, true, false, length, is_some, None, ◌≢◌};
ghost use Rattle.frame.specs.Classes.{class_number};
ghost use Rattle.frame.specs.Numbers.{cell_number, port_number, queue_number};
ghost use Rattle.rules.specs.Copies.{laid, put, with_out, with_tokens};
ghost use Rattle.rules.specs.Switch.{empty_port};
ghost use Rattle.cells.specs.Fifos.{first_of};
ghost use Rattle.buffers.specs.Endings.{freed, was_copy, was_held};
ghost use Rattle.buffers.specs.Holdings.{FramesStay, changed, copies_in, egress, filled, first_gone, first_out, frame_at, free, next_number};

use crate::boards::Board;
use crate::buffers::Buffers;
use crate::endings::{Ended, uncount};
use crate::frames::Frames;
use crate::ports::{Priced, Waiting};
use cells::stores::CELLS;
use frame::classes::Class;
use frame::numbers::{Cell, FrameNumber, Port, Queue};

impl Buffers {
    // No copies, and this number for the first frame.
    pub fn new(first: u64, tokens: u32) -> Buffers
        requires { first ≤ 2 ^ 48 }
        ensures state { egress tokens result ≡ (λ p. empty_port tokens) }
        ensures cells { free result ≡ (λ c. true) }
        ensures number { next_number result ≡ first }
    {
        Buffers {
            board: Board::new(tokens),
            frames: Frames::new(first),
            counts: [0; CELLS],
        }
    }

    pub fn set_tokens(&mut self, port: Port, tokens: u32)
        ensures state { (d : ℕ) → egress d self.new ≡ changed (egress d self.old) (port_number port) (λ e. with_tokens e tokens) }
        ensures cells { free self.new ≡ free self.old }
        ensures kept { FramesStay self.old self.new }
    {
        self.board.set_tokens(port, tokens);
    }

    // Moves the first copy of a queue out. That no copy is out is asked: only some ports are so.
    pub fn take(&mut self, port: Port, queue: Queue)
        requires { (d : ℕ) → (egress d self.old (port_number port)).out ≡ None }
        ensures state { (d : ℕ) → egress d self.new ≡ changed (egress d self.old) (port_number port) (first_out (queue_number queue)) }
        ensures cells { free self.new ≡ free self.old }
        ensures kept { FramesStay self.old self.new }
    {
        self.board.take(port, queue);
    }

    // Writes a frame into a cell that is free, and gives it the next number. It has no copies yet.
    pub fn place(&mut self, cell: Cell, class: Class, frame: &[u8]) -> FrameNumber
        requires unused { free self.old (cell_number cell) ≡ true }
        requires some { 0 < length frame.now }
        requires short { length frame.now ≤ 1518 }
        requires numbers { next_number self.old < 2 ^ 48 }
        ensures answer { result.0 ≡ next_number self.old }
        ensures state { (d : ℕ) → egress d self.new ≡ egress d self.old }
        ensures cells { free self.new ≡ free self.old }
        ensures number { next_number self.new ≡ next_number self.old + 1 }
        ensures frame { frame_at self.new (cell_number cell) ≡ record { number = next_number self.old; class = class_number class; bytes = frame.now } }
        ensures others { (c : ℕ) → (c ≢ cell_number cell) → (frame_at self.new c).number ≡ (frame_at self.old c).number }
        ensures filled { filled self.new (cell_number cell) ≡ true }
        ensures copies { (p : ℕ) → p < 4 → copies_in self.new p (cell_number cell) ≡ 0 }
    {
        self.frames.place(cell, class, frame)
    }

    // Lays a copy of the frame in a cell at the back of a queue of a port that has none.
    pub fn lay(&mut self, port: Port, queue: Queue, cell: Cell)
        requires filled { filled self.old (cell_number cell) ≡ true }
        requires copies { copies_in self.old (port_number port) (cell_number cell) ≡ 0 }
        ensures state { (d : ℕ) → egress d self.new ≡ changed (egress d self.old) (port_number port) (λ e. laid e (queue_number queue) (frame_at self.old (cell_number cell))) }
        ensures cells { free self.new ≡ put (free self.old) (cell_number cell) false }
        ensures kept { FramesStay self.old self.new }
        ensures copies { (p c : ℕ) → (p ≢ port_number port) → copies_in self.new p c ≡ copies_in self.old p c }
    {
        let kept = self.frames.get(cell);
        self.counts[cell.index()] += 1;
        let copy = Priced {
            entry: Waiting {
                number: kept.number,
                cell,
            },
            cost: kept.cost,
        };
        self.board.push(port, queue, copy);
    }

    // Ends the first copy of a queue, if there is one.
    pub fn end_first(&mut self, port: Port, queue: Queue) -> Option<Ended>
        ensures answer { (d : ℕ) → was_copy result ≡ is_some (first_of ((egress d self.old (port_number port)).queue (queue_number queue))) }
        ensures state { (d : ℕ) → egress d self.new ≡ changed (egress d self.old) (port_number port) (first_gone (queue_number queue)) }
        ensures cells { free self.new ≡ freed result (free self.old) }
        ensures held { was_held result (free self.old) }
        ensures kept { FramesStay self.old self.new }
    {
        let first = self.board.pop(port, queue)?;
        Some(uncount(&mut self.counts, first.cell))
    }

    // Ends the copy that is out, if there is one.
    pub fn end_out(&mut self, port: Port) -> Option<Ended>
        ensures answer { (d : ℕ) → was_copy result ≡ is_some (egress d self.old (port_number port)).out }
        ensures state { (d : ℕ) → egress d self.new ≡ changed (egress d self.old) (port_number port) (λ e. with_out e None) }
        ensures cells { free self.new ≡ freed result (free self.old) }
        ensures held { was_held result (free self.old) }
        ensures kept { FramesStay self.old self.new }
    {
        let sent = self.board.take_out(port)?;
        Some(uncount(&mut self.counts, sent.cell))
    }
}
