// Why a call was refused. Each case has a number and a value; upper layers pass them on unchanged.
ghost use Rattle.std.specs.Prelude.{◌≡◌};
ghost use Rattle.frame.specs.Refusals.{says};

use crate::classes::Class;
use crate::numbers::{CellId, FrameNumber};

#[derive(Clone, Copy, PartialEq, Eq)]
pub enum Refusal {
    // 1: there is no port of this number.
    NoSuchPort(u8),
    // 2: a frame of this length is too short or too long.
    WrongLength(usize),
    // 3: the last frame number is given, or the last slot is reached.
    NumbersUsedUp,
    // 4: the frame came in at the tap port.
    TapPort(u8),
    // 5: no port is known for a frame that came in here.
    NoWayOut(u8),
    // 6: too few cells are free for a frame of this class.
    TooFewCells(Class),
    // 7: the port has this frame out already.
    PortBusy(FrameNumber),
    // 8: the ticket's frame is not out at this port.
    NotOut(u8),
    // 9: the buffer is shorter than the frame, which has this length.
    ShortBuffer(usize),
    // 10: a setting is wrong; its place.
    BadSetting(usize),
    // 11: the cell is free already, or there is none of this number.
    CellNotHeld(CellId),
    // 12: the planner's input is broken at this byte.
    BrokenInput(usize),
}

impl Refusal {
    // A refusal has two numbers, so neither is a conversion of it.
    pub fn number(&self) -> u8
        ensures { result ≡ (says self.now).0 }
    {
        match self {
            Refusal::NoSuchPort(_) => 1,
            Refusal::WrongLength(_) => 2,
            Refusal::NumbersUsedUp => 3,
            Refusal::TapPort(_) => 4,
            Refusal::NoWayOut(_) => 5,
            Refusal::TooFewCells(_) => 6,
            Refusal::PortBusy(_) => 7,
            Refusal::NotOut(_) => 8,
            Refusal::ShortBuffer(_) => 9,
            Refusal::BadSetting(_) => 10,
            Refusal::CellNotHeld(_) => 11,
            Refusal::BrokenInput(_) => 12,
        }
    }

    pub fn value(&self) -> u64
        ensures { result ≡ (says self.now).1 }
    {
        match self {
            Refusal::NoSuchPort(port)
            | Refusal::TapPort(port)
            | Refusal::NoWayOut(port)
            | Refusal::NotOut(port) => u64::from(*port),
            Refusal::NumbersUsedUp => 0,
            Refusal::TooFewCells(class) => u64::from(class.number()),
            Refusal::PortBusy(frame) => frame.0,
            Refusal::CellNotHeld(cell) => u64::from(cell.0),
            Refusal::WrongLength(n)
            | Refusal::ShortBuffer(n)
            | Refusal::BadSetting(n)
            | Refusal::BrokenInput(n) => *n as u64,
        }
    }
}
