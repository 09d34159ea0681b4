// What the calls answer.
use frame::classes::Class;
use frame::numbers::{FrameNumber, Port, PortSet, Slot};

// A frame came in: the number that it got, its class, and the ports that it goes to.
#[derive(Clone, Copy)]
pub struct Arrived {
    pub number: FrameNumber,
    pub class: Class,
    pub ports: PortSet,
}

// A slot begins, and so many copies ended late.
#[derive(Clone, Copy)]
pub struct Ticked {
    pub slot: Slot,
    pub late: u32,
}

// A frame was sent from a port.
#[derive(Clone, Copy)]
pub struct Returned {
    pub port: Port,
    pub number: FrameNumber,
}

// The tokens of a port, and the frame that is out there.
#[derive(Clone, Copy)]
pub struct Gauged {
    pub tokens: u32,
    pub out: Option<FrameNumber>,
}
