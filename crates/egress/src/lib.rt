// What happens to copies at the ports that frames leave by: they are laid, taken and ended, and the cell of a frame goes
// back to the store with its last copy.
#![tactic(auto)]

pub mod layings;
pub mod pools;
pub mod queues;
pub mod releases;
pub mod sendings;
pub mod slots;
pub mod takings;
