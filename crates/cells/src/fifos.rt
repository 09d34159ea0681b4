// One queue for entries of any kind. It keeps places only; its entries are lent to it at each call: a project rule.
ghost use Rattle.std.specs.Prelude.{◌<◌, ◌≤◌};

use crate::stores::CELLS;

pub mod methods;

// How many entries a queue has room for: one for each cell, since a port has each frame at most once.
pub const ENTRIES: usize = CELLS;

// The `len` entries from place `head` on are queued, the first to leave first; place 0 follows the last.
#[derive(Clone, Copy)]
pub struct Fifo {
    head: usize,
    len: usize,
    ghost within: { head < 32 },
    ghost few: { len ≤ 32 },
}
