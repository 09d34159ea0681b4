// Cyclic queuing (IEEE 802.1Qch on the gates of 802.1Qbv): of queues 0 and 1 one fills while the other is sent, and
// they change over with every slot.
ghost use Rattle.std.specs.Prelude.{◌≡◌, ℕ, ◌+◌, ◌-◌, ◌^◌, ◌<◌, Bool, true, false};
ghost use Rattle.frame.specs.Numbers.{queue_number, slot_number};

use frame::numbers::{Queue, Slot};

pub trait Plan {
    // The queue that fills in a slot.
    ghost fills: { Self → ℕ → ℕ };

    // Whether in a slot a queue, 0 to 3, is open.
    ghost opens: { Self → ℕ → ℕ → Bool };

    fn fill(&self, slot: Slot) -> Queue
        ensures { queue_number result ≡ fills self.now (slot_number slot) };

    fn is_open(&self, slot: Slot, queue: Queue) -> bool
        ensures { result ≡ opens self.now (slot_number slot) (queue_number queue) };

    // Queue 0 or queue 1 fills, and in the next slot the other one.
    ghost pair: { (p : Self) (s : ℕ) → s < 2 ^ 48 → fills p s < 2 };

    ghost turns: { (p : Self) (s : ℕ) → s + 1 < 2 ^ 48 → fills p (s + 1) ≡ 1 - fills p s };

    // The queue that fills is shut, and the other of the two is open.
    ghost shut: { (p : Self) (s : ℕ) → s < 2 ^ 48 → opens p s (fills p s) ≡ false };

    ghost sends: { (p : Self) (s : ℕ) → s < 2 ^ 48 → opens p s (1 - fills p s) ≡ true };
}

// The queue of 0 and 1 that is sent in the slot.
pub fn sending<P: Plan>(plan: &P, slot: Slot) -> Queue
    ensures answer { queue_number result ≡ 1 - P.fills plan.now (slot_number slot) }
    ensures open { P.opens plan.now (slot_number slot) (queue_number result) ≡ true }
{
    match plan.fill(slot) {
        Queue::Cyclic0 => Queue::Cyclic1,
        _ => Queue::Cyclic0,
    }
}
