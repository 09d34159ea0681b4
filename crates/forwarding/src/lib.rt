// Where a frame goes: the interface, its two tables, and the tap layer over any of them.
#![tactic(auto)]

pub mod address_tables;
pub mod flow_tables;
pub mod routes;
pub mod rows;
pub mod taps;
#[cfg(test)]
mod tests;
