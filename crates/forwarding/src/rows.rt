// Rows of an address table, as they are given.
use frame::numbers::Address;

// Frames to this address go to these ports. The number is as it was given, and may be too large for a set.
#[derive(Clone, Copy, Default)]
pub struct Row {
    pub address: Address,
    pub ports: u8,
}
