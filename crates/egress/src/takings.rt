// Taking a copy at a port.
ghost use Rattle.std.specs.Prelude.{◌≡◌, ℕ, ◌-◌, false, length, None};
ghost use Rattle.std.specs.Option.{option_map};
ghost use Rattle.buffers.specs.Holdings.{egress, first_out};
ghost use Rattle.cells.specs.Fifos.{first_of};
ghost use Rattle.buffers.specs.Sent.{copy_sent, sent};
ghost use Rattle.frame.specs.Numbers.{port_number, queue_number, slot_number};
ghost use Rattle.rules.specs.Copies.{best_effort_part, paid_part, take_at, too_dear};
ghost use Rattle.egress.specs.Changes.{ChangesPort};
ghost use Rattle.egress.specs.Takings.{is_dear, pays, seen, shows, unburdened};

use crate::pools::Pool;
use buffers::buffers::reads::Sent;
use cells::stores::Store;
use frame::numbers::{Port, Queue, Slot};
use gates::plans::{Plan, sending};

// The gates of a slot: the queue of 0 and 1 that is sent, and whether queues 2 and 3 are open.
#[derive(Clone, Copy)]
pub struct Gates {
    pub sending: Queue,
    pub paid: bool,
    pub best_effort: bool,
}

// What was taken, if anything, and how many copies ended as overdrawn before it.
#[derive(Clone, Copy)]
pub struct Taking<T> {
    pub taken: Option<T>,
    pub overdrawn: u32,
}

impl Gates {
    pub fn of<P: Plan>(plan: &P, slot: Slot) -> Gates
        ensures sending { queue_number result.sending ≡ 1 - P.fills plan.now (slot_number slot) }
        ensures paid { result.paid ≡ P.opens plan.now (slot_number slot) 2 }
        ensures best_effort { result.best_effort ≡ P.opens plan.now (slot_number slot) 3 }
    {
        Gates {
            sending: sending(plan, slot),
            paid: plan.is_open(slot, Queue::Paid),
            best_effort: plan.is_open(slot, Queue::BestEffort),
        }
    }
}

// That no copy is out is asked of what takes one: only some ports are so, and Take tests it first.
impl<S: Store> Pool<S> {
    // Moves the first copy of a queue out, and tells of it.
    fn take_first(&mut self, port: Port, queue: Queue) -> Option<Sent>
        requires { (d : ℕ) → (egress d self.old.buffers (port_number port)).out ≡ None }
        ensures answer { (d : ℕ) → option_map sent result ≡ option_map copy_sent (first_of ((egress d self.old.buffers (port_number port)).queue (queue_number queue))) }
        ensures change { ChangesPort self.old.buffers self.new.buffers (port_number port) (first_out (queue_number queue)) }
    {
        self.buffers.take(port, queue);
        self.buffers.out(port)
    }

    // Whether the first copy of queue 2 costs more than these tokens.
    fn is_overdrawn(&self, port: Port, tokens: u32) -> bool
        ensures { (d : ℕ) → result ≡ is_dear tokens ((egress d self.now.buffers (port_number port)).queue 2) }
    {
        self.buffers.price(port).is_some_and(|price| price > tokens)
    }

    // Ends the leading copies of queue 2 that cost more than the tokens, and answers how many there were.
    fn end_overdrawn(&mut self, port: Port) -> u32
        ensures answer { (d : ℕ) → result ≡ length (too_dear (egress d self.old.buffers (port_number port)).tokens ((egress d self.old.buffers (port_number port)).queue 2)) }
        ensures change { ChangesPort self.old.buffers self.new.buffers (port_number port) unburdened }
    {
        let tokens = self.buffers.tokens(port);
        let mut overdrawn = 0;
        while self.is_overdrawn(port, tokens) {
            self.end_first(port, Queue::Paid);
            overdrawn += 1;
        }
        overdrawn
    }

    // The first copy of queue 2 pays its cost, and is moved out.
    fn take_paid(&mut self, port: Port) -> Option<Sent>
        requires out { (d : ℕ) → (egress d self.old.buffers (port_number port)).out ≡ None }
        requires tokens { (d : ℕ) → is_dear (egress d self.old.buffers (port_number port)).tokens ((egress d self.old.buffers (port_number port)).queue 2) ≡ false }
        ensures answer { (d : ℕ) → option_map sent result ≡ option_map copy_sent (first_of ((egress d self.old.buffers (port_number port)).queue 2)) }
        ensures change { ChangesPort self.old.buffers self.new.buffers (port_number port) (λ e. pays e (e.queue 2)) }
    {
        let price = self.buffers.price(port)?;
        let tokens = self.buffers.tokens(port);
        self.buffers.set_tokens(port, tokens - price);
        self.take_first(port, Queue::Paid)
    }

    // The first copy of queue 3, if that is open.
    fn best_effort_part(&mut self, port: Port, gates: Gates, overdrawn: u32) -> Taking<Sent>
        requires { (d : ℕ) → (egress d self.old.buffers (port_number port)).out ≡ None }
        ensures answer { (d : ℕ) → seen result ≡ shows (best_effort_part gates.best_effort (egress d self.old.buffers (port_number port)) overdrawn) }
        ensures change { ChangesPort self.old.buffers self.new.buffers (port_number port) (λ e. (best_effort_part gates.best_effort e overdrawn).left) }
    {
        let taken = if gates.best_effort {
            self.take_first(port, Queue::BestEffort)
        } else {
            None
        };
        Taking { taken, overdrawn }
    }

    // The first copy of queue 2 that can be paid for, if that is open; else best effort.
    fn paid_part(&mut self, port: Port, gates: Gates) -> Taking<Sent>
        requires { (d : ℕ) → (egress d self.old.buffers (port_number port)).out ≡ None }
        ensures answer { (d : ℕ) → seen result ≡ shows (paid_part gates.paid gates.best_effort (egress d self.old.buffers (port_number port))) }
        ensures change { ChangesPort self.old.buffers self.new.buffers (port_number port) (λ e. (paid_part gates.paid gates.best_effort e).left) }
    {
        if !gates.paid {
            return self.best_effort_part(port, gates, 0);
        }
        let overdrawn = self.end_overdrawn(port);
        let Some(sent) = self.take_paid(port) else {
            return self.best_effort_part(port, gates, overdrawn);
        };
        Taking {
            taken: Some(sent),
            overdrawn,
        }
    }

    // The first copy of the queue that is sent in this slot; else what is paid for, or best effort.
    pub fn take_at(&mut self, port: Port, gates: Gates) -> Taking<Sent>
        requires { (d : ℕ) → (egress d self.old.buffers (port_number port)).out ≡ None }
        ensures answer { (d : ℕ) → seen result ≡ shows (take_at (queue_number gates.sending) gates.paid gates.best_effort (egress d self.old.buffers (port_number port))) }
        ensures change { ChangesPort self.old.buffers self.new.buffers (port_number port) (λ e. (take_at (queue_number gates.sending) gates.paid gates.best_effort e).left) }
    {
        let Some(sent) = self.take_first(port, gates.sending) else {
            return self.paid_part(port, gates);
        };
        Taking {
            taken: Some(sent),
            overdrawn: 0,
        }
    }
}
