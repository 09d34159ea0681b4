// A table of addresses, each with the ports behind which it is known.
ghost use Rattle.std.specs.Prelude.{◌≡◌, false, is_some};
ghost use Rattle.forwarding.specs.Rows.{first_wrong};

use crate::rows::Row;
use arrayvec::ArrayVec;

pub mod methods;

// How many rows a table can hold.
pub const ROWS: usize = 12;

// Each row is one that a table can hold at its place.
#[derive(Drop)]
pub struct AddressTable {
    rows: ArrayVec<Row, ROWS>,
    ghost right: { is_some (first_wrong 0 rows.items) ≡ false },
}
