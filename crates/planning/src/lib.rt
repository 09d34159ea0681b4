// The planner: a schedule from the switch's own code.
#![tactic(auto)]

pub mod sessions;
