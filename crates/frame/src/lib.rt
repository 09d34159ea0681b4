// What a frame is: its numbers, its reading and its class, and the refusals that every layer above speaks in.
#![tactic(auto)]

pub mod classes;
pub mod firmware;
pub mod numbers;
pub mod readings;
pub mod refusals;
