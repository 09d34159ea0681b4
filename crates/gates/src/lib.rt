// When the queues of a port are open.
#![tactic(auto)]

pub mod gate_lists;
pub mod parities;
pub mod plans;
#[cfg(test)]
mod tests;
