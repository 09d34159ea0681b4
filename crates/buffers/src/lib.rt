// What the switch holds beside its store and its kinds: queues, frame memory and ports, and how they hang together.
#![tactic(auto)]

pub mod boards;
pub mod buffers;
pub mod endings;
pub mod frames;
pub mod lanes;
pub mod memories;
pub mod ports;
