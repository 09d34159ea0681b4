// What stands at one port: its four queues, its tokens, and one copy out or none.
ghost use Rattle.std.specs.Prelude.{◌≡◌, ◌<◌, [], ◌∷◌, length, None};
ghost use Rattle.frame.specs.Numbers.{queue_number};
ghost use Rattle.cells.specs.Fifos.{first_of};
ghost use Rattle.buffers.specs.Lines.{empty_line, line, outed, pushed, shifted, with_out, with_tokens};

use crate::lanes::Lane;
use frame::numbers::{Cell, FrameNumber, Queue};

// A copy of a frame: the frame's number, and the cell that holds it.
#[derive(Clone, Copy)]
pub struct Waiting {
    pub number: FrameNumber,
    pub cell: Cell,
}

// A copy with what it costs of its port's tokens.
#[derive(Clone, Copy)]
pub struct Priced {
    pub entry: Waiting,
    pub cost: u32,
}

// One lane for each queue. Only the copies in the paid queue have a price.
#[derive(Drop)]
pub struct PortRecord {
    cyclic0: Lane<Waiting>,
    cyclic1: Lane<Waiting>,
    paid: Lane<Priced>,
    best_effort: Lane<Waiting>,
    tokens: u32,
    out: Option<Waiting>,
}

impl PortRecord {
    pub(crate) fn new(tokens: u32) -> PortRecord
        ensures { line result ≡ empty_line tokens }
    {
        let blank = Waiting {
            number: FrameNumber(0),
            cell: Cell::new(0).unwrap(),
        };
        PortRecord {
            cyclic0: Lane::new(blank),
            cyclic1: Lane::new(blank),
            paid: Lane::new(Priced {
                entry: blank,
                cost: 0,
            }),
            best_effort: Lane::new(blank),
            tokens,
            out: None,
        }
    }

    // Puts a copy at the back of a queue.
    pub(crate) fn push(&mut self, queue: Queue, copy: Priced)
        requires { length ((line self.old).queue (queue_number queue)) < 32 }
        ensures { line self.new ≡ pushed (line self.old) (queue_number queue) copy.entry copy.cost }
    {
        match queue {
            Queue::Cyclic0 => self.cyclic0.push(copy.entry),
            Queue::Cyclic1 => self.cyclic1.push(copy.entry),
            Queue::Paid => self.paid.push(copy),
            Queue::BestEffort => self.best_effort.push(copy.entry),
        }
    }

    // Takes out the copy at the front of a queue.
    pub(crate) fn pop(&mut self, queue: Queue) -> Option<Waiting>
        ensures answer { result ≡ first_of ((line self.old).queue (queue_number queue)) }
        ensures state { line self.new ≡ shifted (line self.old) (queue_number queue) }
    {
        match queue {
            Queue::Cyclic0 => self.cyclic0.pop(),
            Queue::Cyclic1 => self.cyclic1.pop(),
            Queue::Paid => self.paid.pop().map(|copy| copy.entry),
            Queue::BestEffort => self.best_effort.pop(),
        }
    }

    // Moves the copy at the front of a queue out. That none is out is asked, as of the calls above that lead here: only some
    // ports are so, and Take tests it first.
    pub(crate) fn take(&mut self, queue: Queue)
        requires { (line self.old).out ≡ None }
        ensures { line self.new ≡ outed (line self.old) (queue_number queue) }
    {
        self.out = self.pop(queue);
    }

    // The copy that is out, which it is no more.
    pub(crate) fn take_out(&mut self) -> Option<Waiting>
        ensures answer { result ≡ (line self.old).out }
        ensures state { line self.new ≡ with_out (line self.old) None }
    {
        self.out.take()
    }

    pub(crate) fn out(&self) -> Option<Waiting>
        ensures { result ≡ (line self.now).out }
    {
        self.out
    }

    pub(crate) fn tokens(&self) -> u32
        ensures { result ≡ (line self.now).tokens }
    {
        self.tokens
    }

    pub(crate) fn set_tokens(&mut self, tokens: u32)
        ensures { line self.new ≡ with_tokens (line self.old) tokens }
    {
        self.tokens = tokens;
    }

    // What the copy at the front of the paid queue costs.
    pub(crate) fn price(&self) -> Option<u32>
        ensures { result ≡ first_of (line self.now).prices }
    {
        self.paid.first().map(|copy| copy.cost)
    }

    // How many copies are in each queue.
    pub(crate) fn lengths(&self) -> [u32; 4]
        ensures { result ≡ length ((line self.now).queue 0) ∷ length ((line self.now).queue 1) ∷ length ((line self.now).queue 2) ∷ length ((line self.now).queue 3) ∷ [] }
    {
        [
            self.cyclic0.len(),
            self.cyclic1.len(),
            self.paid.len(),
            self.best_effort.len(),
        ]
    }
}
