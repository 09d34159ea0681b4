// Where the entries of a list are wrong, before one is made of them.
ghost use Rattle.std.specs.Prelude.{◌≡◌, ◌<◌, length, ◌==◌};
ghost use Rattle.frame.specs.Numbers.{queue_number};
ghost use Rattle.gates.specs.GateLists.{entry_bit, first_from, first_wrong, wrong_at};

use crate::gate_lists::{FEWEST, MOST};
use frame::numbers::Queue;

// The entry that opens all four queues; in a greater one a bit is set that no queue has.
const ALL_OPEN: u8 = 15;

// The place where the list is wrong first, if it is.
pub(super) fn first_wrong(entries: &[u8]) -> Option<usize>
    ensures { result ≡ first_wrong entries.now }
{
    let count = entries.len();
    if count < FEWEST || count > MOST || count % 2 != 0 {
        return Some(count);
    }
    first_wrong_entry(entries)
}

fn first_wrong_entry(entries: &[u8]) -> Option<usize>
    ensures { result ≡ first_from (wrong_at entries.now) 0 (length entries.now) }
{
    (0..entries.len()).find(|&place| is_wrong(entries, place))
}

fn is_wrong(entries: &[u8], place: usize) -> bool
    requires { place < length entries.now }
    ensures { result ≡ wrong_at entries.now place }
{
    let entry = entries[place];
    entry > ALL_OPEN
        || opens(entry, Queue::Cyclic0) == opens(entry, Queue::Cyclic1)
        || place > 0 && opens(entry, Queue::Cyclic0) == opens(entries[place - 1], Queue::Cyclic0)
}

// Whether the entry opens the queue.
pub(super) fn opens(entry: u8, queue: Queue) -> bool
    ensures { result ≡ (entry_bit entry (queue_number queue) == 1) }
{
    (entry >> queue.number()) % 2 == 1
}
