// Prints, for each record of a planner input, one line that a person can read.
// explain [FILE]: without a file, standard input is read.
#![tactic(auto)]

use crate::directions::Directions;
use crate::lines::Line;
use inputs::read_input;
use records::cursors::Cursor;
use records::kinds::Record;
use std::alloc::Global;
use std::fmt;
use std::fmt::Write;
use std::io::Write as Output;

mod directions;
mod lines;

// The text of all lines: one for each record, and a last one that says how many there were or where the input is broken.
fn explain(heap: Global, input: &[u8]) -> Result<String, fmt::Error> {
    let mut text = String::new(heap);
    let mut cursor = Cursor::new(input);
    let mut directions = None;
    // The number is printed, and the loop ends where the input does: no range says how many records there are.
    let mut count = 0;
    loop {
        let number = count + 1;
        let place = cursor.place();
        match cursor.next() {
            Ok(Some(record)) => {
                if let Record::New(opening) = record {
                    directions = Directions::new(&opening);
                }
                let line = Line {
                    number,
                    place,
                    record,
                    directions: directions.as_ref(),
                };
                writeln!(text, "{line}")?;
            }
            Ok(None) => {
                writeln!(text, "{count} records")?;
                return Ok(text);
            }
            Err(refusal) => {
                let (reason, place) = (refusal.number(), refusal.value());
                writeln!(text, "{number} fault {reason} {place}")?;
                return Ok(text);
            }
        }
        count = number;
    }
}

fn main(rt: HostRuntime) -> anyhow::Result<()> {
    let bytes = read_input(&rt, "explain")?;
    let text = explain(rt.alloc(), bytes.as_slice())?;
    rt.stdout().write_all(text.as_bytes())?;
    Ok(())
}
