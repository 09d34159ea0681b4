// A store, and the buffers that hold frames in its cells.
ghost use Rattle.buffers.specs.Holdings.{free};
ghost use Rattle.egress.specs.Agreements.{Agree};

use buffers::buffers::Buffers;
use cells::stores::Store;

// A cell is free in the store exactly if no frame with a copy is in it. The fields are public, since no code can break
// that: a change of one that the other does not follow is refused.
#[derive(Drop)]
pub struct Pool<S: Store> {
    pub store: S,
    pub buffers: Buffers,
    ghost agree: { Agree (S.marks store) (free buffers) },
}
