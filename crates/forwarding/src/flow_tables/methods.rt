// Setting the flows, and asking for one.
ghost use Rattle.std.specs.Prelude.{◌≡◌, ◌<◌};
ghost use Rattle.std.specs.Option.{option_map};
ghost use Rattle.frame.specs.Refusals.{told};
ghost use Rattle.frame.specs.Numbers.{address_bits, set_bits};
ghost use Rattle.forwarding.specs.Flows.{all_flows, flow_of, flow_put, flow_row, no_flows, with_flow};
ghost use Rattle.forwarding.specs.FlowBytes.{flow_byte};
ghost use Rattle.forwarding.specs.FlowTables.{flow_set, flow_forwards};
ghost use Rattle.forwarding.specs.FlowsLemmas.{row_narrow};
ghost use Rattle.forwarding.specs.Sets.{formed_proper};

use crate::flow_tables::{FLOWS, FlowBytes, FlowTable};
use crate::routes::{ALL_PORTS, Forwarding, Route, form};
use frame::numbers::{Address, Port, PortSet};
use frame::refusals::Refusal;

// The lowest bit of a destination that tells its flow.
const FLOW_SHIFT: u32 = 31;

// The set of a flow that has no row; a flow's row is one byte, by the project's rule.
const NO_PORTS: u8 = 0;

impl FlowBytes {
    // The same byte for each flow.
    fn filled(byte: u8) -> FlowBytes
        ensures { flow_byte result ≡ all_flows byte }
    {
        FlowBytes {
            bytes: [byte; FLOWS],
        }
    }

    fn get(&self, flow: usize) -> u8
        requires { flow < 16384 }
        ensures { result ≡ flow_byte self.now flow }
    {
        self.bytes[flow]
    }

    fn put(&mut self, flow: usize, byte: u8)
        requires { flow < 16384 }
        ensures { flow_byte self.new ≡ with_flow (flow_byte self.old) flow byte }
    {
        self.bytes[flow] = byte;
    }
}

// The flow of a destination.
fn flow_of(destination: Address) -> usize
    ensures { result ≡ flow_of (address_bits destination) }
{
    (destination.bits() >> FLOW_SHIFT) as usize % FLOWS
}

impl FlowTable {
    // A table in which no flow has a row.
    pub fn new() -> FlowTable
        ensures { flow_set result ≡ no_flows }
    {
        FlowTable {
            sets: FlowBytes::filled(NO_PORTS),
        }
    }

    // Gives a flow this set of ports. Refusal 10 has place 0 for the flow and 1 for the set.
    pub fn set_flow(&mut self, flow: u16, ports: u8) -> Result<(), Refusal>
        ensures { (told (λ _. tt) result, flow_set self.new) ≡ flow_put (flow_set self.old) flow ports }
    {
        let flow = usize::from(flow);
        if flow >= FLOWS {
            return Err(Refusal::BadSetting(0));
        }
        // A flow keeps the number of its set, one byte, so that is tested here.
        if ports > ALL_PORTS {
            return Err(Refusal::BadSetting(1));
        }
        self.sets.put(flow, ports);
        Ok(())
    }

    // The set of the destination's flow.
    fn row_for(&self, destination: Address) -> Option<PortSet>
        ensures { option_map set_bits result ≡ flow_row (flow_set self.now (flow_of (address_bits destination))) }
    {
        PortSet::new(self.sets.get(flow_of(destination))).filter(|set| !set.is_empty())
    }
}

impl Forwarding for FlowTable {
    ghost forwards = { flow_forwards };

    ghost proper = { λ t d p hd hp.
        let s = flow_set t (flow_of d) in
        formed_proper (flow_row s) p hp (row_narrow s (t.narrow (flow_of d))) };

    fn route(&self, destination: Address, input: Port) -> Route {
        form(self.row_for(destination), input)
    }
}
