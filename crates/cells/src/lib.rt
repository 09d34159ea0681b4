// The store of frame memory cells, and the admission rule that reads how many of them are free.
#![tactic(auto)]

pub mod fifos;
pub mod ladders;
pub mod masks;
pub mod recordings;
pub mod rings;
pub mod rules;
pub mod stores;
#[cfg(test)]
mod tests;
pub mod thresholds;
