// Copies that end, and the cells that come free with them.
ghost use Rattle.std.specs.Prelude.{◌≡◌, ℕ, Bool, [], length, is_some, None};
ghost use Rattle.buffers.specs.Endings.{freed, was_copy, was_held};
ghost use Rattle.buffers.specs.Holdings.{egress, first_gone};
ghost use Rattle.cells.specs.Fifos.{first_of};
ghost use Rattle.frame.specs.Numbers.{port_number, queue_number};
ghost use Rattle.rules.specs.Copies.{queued_at, with_out, with_queue};
ghost use Rattle.egress.specs.Agreements.{Agree};
ghost use Rattle.egress.specs.Changes.{ChangesPort};
ghost use Rattle.egress.specs.Ports.{unqueued};

use crate::pools::Pool;
use buffers::endings::Ended;
use cells::stores::Store;
use frame::numbers::{Port, Queue};

// Gives back the cell of a copy that ended, if that was the last of its frame, and tells whether there was a copy.
// The cell was held, so that the store does not refuse it. This is no method of a pool: the copy has left the buffers, and
// the store does not agree with them until its cell is back.
pub fn release<S: Store>(store: &mut S, ended: Option<Ended>) -> bool
    ensures answer { result ≡ was_copy ended }
    ensures cells { (free : ℕ → Bool) → Agree (S.marks store.old) free → was_held ended free → Agree (S.marks store.new) (freed ended free) }
{
    if let Some(Ended::Last(cell)) = ended {
        let _ = store.give_back(cell);
    }
    ended.is_some()
}

impl<S: Store> Pool<S> {
    // Ends the first copy of a queue, and tells whether there was one.
    pub fn end_first(&mut self, port: Port, queue: Queue) -> bool
        ensures answer { (d : ℕ) → result ≡ is_some (first_of ((egress d self.old.buffers (port_number port)).queue (queue_number queue))) }
        ensures change { ChangesPort self.old.buffers self.new.buffers (port_number port) (first_gone (queue_number queue)) }
    {
        let ended = self.buffers.end_first(port, queue);
        release(&mut self.store, ended)
    }

    // Ends the copy that is out, and tells whether there was one.
    pub fn end_out(&mut self, port: Port) -> bool
        ensures answer { (d : ℕ) → result ≡ is_some (egress d self.old.buffers (port_number port)).out }
        ensures change { ChangesPort self.old.buffers self.new.buffers (port_number port) (λ e. with_out e None) }
    {
        let ended = self.buffers.end_out(port);
        release(&mut self.store, ended)
    }

    // Ends every copy of a queue, and answers how many there were.
    pub fn end_queue(&mut self, port: Port, queue: Queue) -> u32
        ensures answer { (d : ℕ) → result ≡ length ((egress d self.old.buffers (port_number port)).queue (queue_number queue)) }
        ensures change { ChangesPort self.old.buffers self.new.buffers (port_number port) (λ e. with_queue e (queue_number queue) []) }
    {
        let mut count = 0;
        while self.end_first(port, queue) {
            count += 1;
        }
        count
    }

    // Ends every copy in the queues of a port, and answers how many there were.
    pub fn end_queues(&mut self, port: Port) -> u32
        ensures answer { (d : ℕ) → result ≡ length (queued_at (egress d self.old.buffers (port_number port))) }
        ensures change { ChangesPort self.old.buffers self.new.buffers (port_number port) unqueued }
    {
        let mut ended = 0;
        for queue in Queue::ALL {
            ended += self.end_queue(port, queue);
        }
        ended
    }
}
