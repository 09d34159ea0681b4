// The switch, over any store of cells, plan of gates, rule of admission and forwarding.
#![tactic(auto)]

pub mod answers;
pub mod calls;
mod headings;
pub mod switches;
pub mod tickets;
