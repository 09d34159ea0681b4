// A layer over any store that writes down which cells were granted. It is for the bench: it shows that two stores
// grant other cells for the same calls.
use arrayvec::ArrayVec;
use frame::numbers::CellId;

pub mod methods;

// How many grants are written down; later ones are granted, and not written down.
pub const MOST_RECORDED: usize = 1024;

#[derive(Drop)]
pub struct Recording<S> {
    below: S,
    cells: ArrayVec<CellId, MOST_RECORDED>,
}
