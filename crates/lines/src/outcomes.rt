// What a record of a planner input came to.
use frame::classes::Class;
use frame::numbers::{FrameNumber, PortSet, Slot};
use frame::refusals::Refusal;

pub mod methods;

// The ports of Idle and Cleared are ports that there are, of Sent too: any other is refused. They are bytes, as a record
// gives them and a line tells them.
#[derive(Clone, Copy)]
pub enum Outcome {
    New,
    Laid {
        number: FrameNumber,
        class: Class,
        ports: PortSet,
    },
    Slot {
        slot: Slot,
        late: u32,
    },
    Sent {
        port: u8,
        number: FrameNumber,
        overdrawn: u32,
    },
    Idle {
        port: u8,
        overdrawn: u32,
    },
    Cleared {
        port: u8,
        count: u32,
    },
    Refused(Refusal),
    Fault(Refusal),
}
