// The records of the four ports.
ghost use Rattle.std.specs.Prelude.{◌≡◌, ℕ, ◌<◌, [], ◌∷◌, length, if◌then◌else◌, None, nat_lt};
ghost use Rattle.frame.specs.Numbers.{port_number, queue_number};
ghost use Rattle.rules.specs.Copies.{put};
ghost use Rattle.cells.specs.Fifos.{first_of};
ghost use Rattle.buffers.specs.Lines.{empty_line, line, outed, pushed, shifted, with_out, with_tokens};
ghost use Rattle.buffers.specs.Boards.{lines, row};

use crate::ports::{PortRecord, Priced, Waiting};
use frame::numbers::{Port, Queue};

// A change of a port is handed on by a method that states it for all four: an element of an array cannot be lent with a
// promise of what comes back.
// A port and one of its queues are named beside each other: a pair of them would be made at each call and taken apart there.
#[derive(Drop)]
pub struct Board {
    ports: [PortRecord; 4],
}

impl Board {
    pub(crate) fn new(tokens: u32) -> Board
        ensures { (p : ℕ) → lines result p ≡ empty_line (if nat_lt p 4 then tokens else 0) }
    {
        Board {
            ports: [tokens; 4].map(PortRecord::new),
        }
    }

    pub(crate) fn port(&self, port: Port) -> &PortRecord
        ensures { line result.now ≡ lines self.now (port_number port) }
    {
        &self.ports[port.index()]
    }

    pub(crate) fn push(&mut self, port: Port, queue: Queue, copy: Priced)
        requires { length ((lines self.old (port_number port)).queue (queue_number queue)) < 32 }
        ensures { lines self.new ≡ put (lines self.old) (port_number port) (pushed (lines self.old (port_number port)) (queue_number queue) copy.entry copy.cost) }
    {
        self.ports[port.index()].push(queue, copy)
    }

    pub(crate) fn pop(&mut self, port: Port, queue: Queue) -> Option<Waiting>
        ensures answer { result ≡ first_of ((lines self.old (port_number port)).queue (queue_number queue)) }
        ensures state { lines self.new ≡ put (lines self.old) (port_number port) (shifted (lines self.old (port_number port)) (queue_number queue)) }
    {
        self.ports[port.index()].pop(queue)
    }

    // That no copy is out is asked: only some ports are so.
    pub(crate) fn take(&mut self, port: Port, queue: Queue)
        requires { (lines self.old (port_number port)).out ≡ None }
        ensures { lines self.new ≡ put (lines self.old) (port_number port) (outed (lines self.old (port_number port)) (queue_number queue)) }
    {
        self.ports[port.index()].take(queue)
    }

    pub(crate) fn take_out(&mut self, port: Port) -> Option<Waiting>
        ensures answer { result ≡ (lines self.old (port_number port)).out }
        ensures state { lines self.new ≡ put (lines self.old) (port_number port) (with_out (lines self.old (port_number port)) None) }
    {
        self.ports[port.index()].take_out()
    }

    pub(crate) fn set_tokens(&mut self, port: Port, tokens: u32)
        ensures { lines self.new ≡ put (lines self.old) (port_number port) (with_tokens (lines self.old (port_number port)) tokens) }
    {
        self.ports[port.index()].set_tokens(tokens)
    }

    // How many copies are in each queue of each port. By `map` over the ports the proof stays open.
    pub(crate) fn lengths(&self) -> [[u32; 4]; 4]
        ensures { result ≡ row (lines self.now 0) ∷ row (lines self.now 1) ∷ row (lines self.now 2) ∷ row (lines self.now 3) ∷ [] }
    {
        let [a, b, c, d] = &self.ports;
        [a.lengths(), b.lengths(), c.lengths(), d.lengths()]
    }
}
