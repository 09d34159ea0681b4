// The kinds of record, and what each holds.
ghost use Rattle.std.specs.Prelude.{◌≡◌, not};
ghost use Rattle.std.specs.Option.{option_map};
ghost use Rattle.frame.specs.Numbers.{below};
ghost use Rattle.records.specs.Format.{asks, asked_by, fits, kind_number, unless};

use crate::openings::Opening;

// The kinds, by their numbers. Only the first record is an opening.
#[derive(Clone, Copy, PartialEq, Eq)]
pub(crate) enum Kind {
    Opening = 0,
    Arrive = 1,
    Tick = 2,
    Send = 3,
    Clear = 4,
}

// What a record asks for. The values are as they were read: ranges are for the switch to judge.
#[derive(Clone, Copy)]
pub enum Record<'a> {
    New(Opening<'a>),
    Arrive { port: u8, frame: &'a [u8] },
    Tick,
    Send { port: u8 },
    Clear { port: u8 },
}

impl Kind {
    // As std's NonZero::new: an error would say no more than none.
    pub(crate) fn new(number: u8) -> Option<Kind>
        ensures { option_map kind_number result ≡ below 5 number }
    {
        match number {
            0 => Some(Kind::Opening),
            1 => Some(Kind::Arrive),
            2 => Some(Kind::Tick),
            3 => Some(Kind::Send),
            4 => Some(Kind::Clear),
            _ => None,
        }
    }
}

impl<'a> Record<'a> {
    // The record of this kind and body, if they fit each other. The cursor reads each record through it, so it is to stand
    // in the cursor's own code.
    #[inline]
    pub(crate) fn read(kind: Kind, body: &'a [u8]) -> Option<Record<'a>>
        ensures { option_map asks result ≡ unless (not (fits (kind_number kind) body.now)) (asked_by (kind_number kind) body.now) }
    {
        match (kind, body) {
            (Kind::Opening, _) => Opening::read(body).map(Record::New),
            (Kind::Arrive, [port, frame @ ..]) => Some(Record::Arrive { port: *port, frame }),
            (Kind::Tick, []) => Some(Record::Tick),
            (Kind::Send, [port]) => Some(Record::Send { port: *port }),
            (Kind::Clear, [port]) => Some(Record::Clear { port: *port }),
            _ => None,
        }
    }
}
