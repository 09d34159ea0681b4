// The turn of a slot at the ports.
ghost use Rattle.std.specs.Prelude.{◌≡◌, ℕ, length};
ghost use Rattle.buffers.specs.Holdings.{contents, egress, next_number};
ghost use Rattle.frame.specs.Numbers.{port_number, queue_number};
ghost use Rattle.rules.specs.Cells.{OnlyFreed};
ghost use Rattle.rules.specs.Copies.{refilled};
ghost use Rattle.rules.specs.Switch.{over_ports};
ghost use Rattle.egress.specs.Changes.{ChangesPort};
ghost use Rattle.egress.specs.Ports.{each_port, turned};

use crate::pools::Pool;
use cells::stores::Store;
use frame::numbers::{Port, Queue};

// What the tokens of each port rise by in a slot, and up to.
#[derive(Clone, Copy)]
pub struct Bucket {
    pub rate: u16,
    pub depth: u16,
}

impl Bucket {
    // The tokens after a slot.
    fn refill(self, tokens: u32) -> u32
        ensures { result ≡ refilled self.rate self.depth tokens }
    {
        tokens
            .saturating_add(u32::from(self.rate))
            .min(u32::from(self.depth))
    }
}

impl<S: Store> Pool<S> {
    // Turns every port, and answers how many copies ended.
    pub fn turn_ports(&mut self, queue: Queue, bucket: Bucket) -> u32
        ensures answer { (d : ℕ) → result ≡ length (over_ports (λ p. (egress d self.old.buffers p).queue (queue_number queue))) }
        ensures state { (d : ℕ) → egress d self.new.buffers ≡ each_port (λ p. turned (queue_number queue) bucket.rate bucket.depth) 4 (egress d self.old.buffers) }
        ensures number { next_number self.new.buffers ≡ next_number self.old.buffers }
        ensures contents { OnlyFreed (contents self.old.buffers) (contents self.new.buffers) }
    {
        let mut late = 0;
        for port in Port::ALL {
            late += self.turn_port(port, queue, bucket);
        }
        late
    }

    // Ends what waits in a queue of a port, and refills its tokens.
    fn turn_port(&mut self, port: Port, queue: Queue, bucket: Bucket) -> u32
        ensures answer { (d : ℕ) → result ≡ length ((egress d self.old.buffers (port_number port)).queue (queue_number queue)) }
        ensures change { ChangesPort self.old.buffers self.new.buffers (port_number port) (turned (queue_number queue) bucket.rate bucket.depth) }
    {
        let late = self.end_queue(port, queue);
        let tokens = bucket.refill(self.buffers.tokens(port));
        self.buffers.set_tokens(port, tokens);
        late
    }
}
