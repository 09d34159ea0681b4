// A table of flows, each with the ports to which it goes.
ghost use Rattle.std.specs.Prelude.{ℕ, ◌<◌};
ghost use Rattle.forwarding.specs.FlowBytes.{flow_byte};

pub mod methods;

// How many flows there are.
pub const FLOWS: usize = 16384;

// A byte for each flow. A plain array, behind methods of its own, is the project's rule for memory of this size.
#[derive(Drop)]
struct FlowBytes {
    bytes: [u8; FLOWS],
}

// A set of ports for each flow.
#[derive(Drop)]
pub struct FlowTable {
    sets: FlowBytes,
    ghost narrow: { (f : ℕ) → flow_byte sets f < 16 },
}
