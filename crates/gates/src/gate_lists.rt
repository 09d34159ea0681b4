// The plan that goes by a list: one entry a slot, over and over.
ghost use Rattle.std.specs.Prelude.{◌≡◌, false, is_some};
ghost use Rattle.gates.specs.GateLists.{first_wrong};

use arrayvec::ArrayVec;

mod judging;
pub mod methods;

// The fewest and the most entries of a list.
pub const FEWEST: usize = 2;

pub const MOST: usize = 1024;

// A list that no place is wrong in.
#[derive(Drop)]
pub struct GateList {
    entries: ArrayVec<u8, MOST>,
    ghost good: { is_some (first_wrong entries.items) ≡ false },
}
