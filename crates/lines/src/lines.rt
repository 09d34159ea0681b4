// The lines of a schedule.
ghost use Rattle.std.specs.Prelude.{◌≡◌, Some};
ghost use Rattle.lines.specs.Lines.{heading, line};
ghost use Rattle.lines.specs.Outcomes.{outcome};
ghost use Rattle.lines.specs.Texts.{Wrote};

use crate::outcomes::Outcome;
use arrayvec::ArrayString;
use itoa::Buffer;
use std::alloc::AllocError;
use std::fmt;

// The most bytes of a line: a word of seven letters, four numbers of twenty digits, four spaces and the end.
const LONGEST: usize = 92;

// The line of the record of this number, counted from 1. It prints with its end.
#[derive(Clone, Copy)]
pub struct Line {
    pub number: u64,
    pub outcome: Outcome,
}

impl Line {
    // Not by `write!`, which may fail, as far as std promises, for other reasons than want of room.
    fn text(&self) -> ArrayString<LONGEST>
        ensures { result.bytes ≡ line self.now.number (outcome self.now.outcome) }
    {
        let mut text = ArrayString::new();
        text.push_str(Buffer::new().format(self.number));
        text.push_str(self.outcome.word());
        let values = self.outcome.values();
        for value in values.as_slice() {
            text.push(' ');
            text.push_str(Buffer::new().format(*value));
        }
        text.push('\n');
        text
    }
}

impl fmt::Display for Line {
    ghost output = { λ l. Some (line l.number (outcome l.outcome)) };

    fn fmt<W: fmt::Write>(&self, f: &mut fmt::Formatter<W>) -> fmt::Result {
        f.write_str(self.text().as_str())
    }
}

// The first line of every schedule. It and the others are written into any bytes: a String would ask more of who has them.
pub fn write_heading(text: &mut Vec<u8>) -> Result<(), AllocError>
    ensures { Wrote result text.old heading text.new }
{
    text.extend_from_slice(b"schedule 1\n")
}

pub fn write_line(text: &mut Vec<u8>, number: u64, told: &Outcome) -> Result<(), AllocError>
    ensures { Wrote result text.old (line number (outcome told.now)) text.new }
{
    let line = Line {
        number,
        outcome: *told,
    };
    text.extend_from_slice(line.text().as_bytes())
}
