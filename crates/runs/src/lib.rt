// Lists of calls on a new switch, and what is promised of every such list.
#![tactic(auto)]

pub mod runs;
pub mod turns;
pub mod twins;
