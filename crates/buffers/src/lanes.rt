// One queue of a port, beside the entries that it is lent.
ghost use Rattle.std.specs.Prelude.{◌≡◌, length};

use cells::fifos::{ENTRIES, Fifo};

// The queue keeps places, and each of its calls is lent the entries.
#[derive(Drop)]
pub struct Lane<E> {
    queue: Fifo,
    entries: [E; ENTRIES],
    ghost wide: { length entries ≡ 32 },
}

impl<E: Copy> Lane<E> {
    ghost use Rattle.std.specs.Prelude.{◌<◌, [], ◌∷◌, ◌++◌};
    ghost use Rattle.cells.specs.Fifos.{first_of, rest_of};
    ghost use Rattle.buffers.specs.Lanes.{waiting};

    // Nothing waits; `blank` stands at the places, where it is not read.
    pub(crate) fn new(blank: E) -> Lane<E>
        ensures { waiting result ≡ [] }
    {
        Lane {
            queue: Fifo::new(),
            entries: [blank; ENTRIES],
        }
    }

    pub(crate) fn len(&self) -> u32
        ensures { result ≡ length (waiting self.now) }
    {
        self.queue.len()
    }

    // Puts an entry at the back.
    pub(crate) fn push(&mut self, entry: E)
        requires { length (waiting self.old) < 32 }
        ensures { waiting self.new ≡ waiting self.old ++ entry ∷ [] }
    {
        self.queue.push(&mut self.entries, entry);
    }

    // The entry at the front, if there is one.
    pub(crate) fn first(&self) -> Option<E>
        ensures { result ≡ first_of (waiting self.now) }
    {
        self.queue.first(&self.entries)
    }

    // Takes out the entry at the front.
    pub(crate) fn pop(&mut self) -> Option<E>
        ensures answer { result ≡ first_of (waiting self.old) }
        ensures state { waiting self.new ≡ rest_of (waiting self.old) }
    {
        self.queue.pop(&self.entries)
    }
}
