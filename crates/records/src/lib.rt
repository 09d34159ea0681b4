// The planner's input: a cursor that reads its records one by one, in place. specs/Format.antt has the format.
#![tactic(auto)]

pub mod cursors;
pub mod kinds;
pub mod openings;
pub mod tables;
#[cfg(test)]
mod tests;
