// What a record of a planner input came to, and the line of text that tells of it.
#![tactic(auto)]

pub mod lines;
pub mod outcomes;
