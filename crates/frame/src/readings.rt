// Reading a frame: addresses, tag, type and payload.
ghost use Rattle.std.specs.Prelude.{◌≡◌, ◌+◌, ◌*◌, ◌≤◌, true, false, length};
ghost use Rattle.frame.specs.Refusals.{told};
ghost use Rattle.frame.specs.Classes.{class_number, class_of};
ghost use Rattle.frame.specs.Frames.{shows, frame_shows, read_as, content_after, reading_class};

use crate::classes::{CLOCK_TYPE, Class};
use crate::numbers::Address;
use crate::refusals::Refusal;

// The shortest and the longest frame, in bytes.
pub const SHORTEST: usize = 60;

pub const LONGEST: usize = 1518;

// The type that makes a frame tagged (IEEE 802.1Q).
pub const TAG_TYPE: u16 = 0x8100;

// What a frame carries: the part of it behind the header, with its place in the frame and its type.
// The type of a tagged frame is the one behind its tag. By the project's rule each case carries all that belongs to it.
#[derive(Clone, Copy)]
pub enum Reading<'a> {
    Tagged {
        priority: u8,
        kind: u16,
        place: usize,
        payload: &'a [u8],
    },
    Clock {
        kind: u16,
        place: usize,
        payload: &'a [u8],
    },
    Plain {
        kind: u16,
        place: usize,
        payload: &'a [u8],
    },
}

#[derive(Clone, Copy)]
pub struct Frame<'a> {
    pub destination: Address,
    pub source: Address,
    pub reading: Reading<'a>,
}

// The frame that these bytes are, or refusal 2 where their number is no frame's.
pub fn read(bytes: &[u8]) -> Result<Frame<'_>, Refusal>
    ensures { told frame_shows result ≡ read_as bytes.now }
{
    let length = bytes.len();
    if length < SHORTEST || length > LONGEST {
        return Err(Refusal::WrongLength(length));
    }
    match bytes {
        [
            d0,
            d1,
            d2,
            d3,
            d4,
            d5,
            s0,
            s1,
            s2,
            s3,
            s4,
            s5,
            t0,
            t1,
            rest @ ..,
        ] => Ok(Frame {
            destination: Address::from([*d0, *d1, *d2, *d3, *d4, *d5]),
            source: Address::from([*s0, *s1, *s2, *s3, *s4, *s5]),
            reading: behind_type(u16::from_be_bytes([*t0, *t1]), rest),
        }),
        _ => Err(Refusal::WrongLength(length)),
    }
}

// The reading of a frame by its outer type and the bytes behind that.
fn behind_type(kind: u16, rest: &[u8]) -> Reading<'_>
    requires { 4 ≤ length rest.now }
    ensures { shows result ≡ content_after kind rest.now }
{
    match rest {
        [t0, _t1, k0, k1, payload @ ..] if kind == TAG_TYPE => Reading::Tagged {
            priority: *t0 / 32,
            kind: u16::from_be_bytes([*k0, *k1]),
            place: 18,
            payload,
        },
        _ if kind == CLOCK_TYPE => Reading::Clock {
            kind,
            place: 14,
            payload: rest,
        },
        _ => Reading::Plain {
            kind,
            place: 14,
            payload: rest,
        },
    }
}

impl Reading<'_> {
    pub fn class(&self) -> Class
        ensures { class_number result ≡ reading_class (shows self.now) }
    {
        match self {
            Reading::Tagged { priority, kind, .. } => Class::of(true, *priority, *kind),
            Reading::Clock { kind, .. } | Reading::Plain { kind, .. } => Class::of(false, 0, *kind),
        }
    }
}
