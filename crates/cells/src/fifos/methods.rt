// What a queue does with the entries that it is lent.
ghost use Rattle.std.specs.Prelude.{◌≡◌, ◌<◌, [], ◌∷◌, ◌++◌, length};
ghost use Rattle.cells.specs.Fifos.{first_of, first_place, items, queued, rest_of};

use crate::fifos::{ENTRIES, Fifo};

impl Fifo {
    pub fn new() -> Fifo
        ensures { queued result ≡ 0 }
    {
        Fifo { head: 0, len: 0 }
    }

    // Every entry is queued, in their order.
    pub fn full() -> Fifo
        ensures first { first_place result ≡ 0 }
        ensures all { queued result ≡ 32 }
    {
        Fifo {
            head: 0,
            len: ENTRIES,
        }
    }

    pub fn len(&self) -> u32
        ensures { result ≡ queued self.now }
    {
        self.len as u32
    }

    // Puts an entry at the back. That there is room is asked: only some queues have it, and who counts cells knows it.
    pub fn push<E: Copy>(&mut self, entries: &mut [E; ENTRIES], e: E)
        requires { queued self.old < 32 }
        ensures wide { length entries.new ≡ 32 }
        ensures state { items self.new entries.new ≡ items self.old entries.old ++ e ∷ [] }
    {
        let tail = (self.head + self.len) % ENTRIES;
        entries[tail] = e;
        self.len += 1;
    }

    // The entry at the front, if there is one.
    pub fn first<E: Copy>(&self, entries: &[E; ENTRIES]) -> Option<E>
        ensures { result ≡ first_of (items self.now entries.now) }
    {
        if self.len == 0 {
            return None;
        }
        Some(entries[self.head])
    }

    // Takes out the entry at the front.
    pub fn pop<E: Copy>(&mut self, entries: &[E; ENTRIES]) -> Option<E>
        ensures answer { result ≡ first_of (items self.old entries.now) }
        ensures state { items self.new entries.now ≡ rest_of (items self.old entries.now) }
    {
        let first = self.first(entries)?;
        self.head = (self.head + 1) % ENTRIES;
        self.len -= 1;
        Some(first)
    }
}
