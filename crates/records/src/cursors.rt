// Reading an input record by record.
ghost use Rattle.std.specs.Prelude.{◌≡◌};
ghost use Rattle.std.specs.Option.{option_map};
ghost use Rattle.frame.specs.Refusals.{told};
ghost use Rattle.records.specs.Format.{asks, asks_up_to, input_of, place_of, cut_at, record_at, place_after};

use crate::kinds::{Kind, Record};
use frame::refusals::Refusal;

// The longest input, in bytes.
pub const LONGEST_INPUT: usize = 65536;

// The version of the format that every record names.
pub const VERSION: u8 = 1;

// The bytes of a record's length, and those of its version and kind, which the length counts.
const LENGTH: usize = 2;

const HEAD: usize = 2;

// An input, and the place where reading goes on.
#[derive(Drop)]
pub struct Cursor<'a> {
    input: &'a [u8],
    place: usize,
}

impl<'a> Cursor<'a> {
    // At the first byte of an input.
    pub fn new(input: &'a [u8]) -> Cursor<'a>
        ensures input { input_of result ≡ input.now }
        ensures place { place_of result ≡ 0 }
    {
        Cursor { input, place: 0 }
    }

    pub fn place(&self) -> usize
        ensures { result ≡ place_of self.now }
    {
        self.place
    }

    // The record that stands here, and on to the place behind it; nothing at the end of the input.
    // A broken record is refused and stays where it is, so the next call refuses it again.
    pub fn next(&mut self) -> Result<Option<Record<'a>>, Refusal>
        ensures answer { told (option_map asks) result ≡ record_at (input_of self.old) (place_of self.old) }
        ensures input { input_of self.new ≡ input_of self.old }
        ensures place { place_of self.new ≡ place_after (input_of self.old) (place_of self.old) }
    {
        if self.input.len() > LONGEST_INPUT {
            return Err(Refusal::BrokenInput(LONGEST_INPUT));
        }
        if self.place >= self.input.len() {
            return Ok(None);
        }
        let (record, behind) = self.read().ok_or(Refusal::BrokenInput(self.place))?;
        self.place = behind;
        Ok(Some(record))
    }

    // The record that stands here, with the place behind it, unless it is broken.
    fn read(&self) -> Option<(Record<'a>, usize)>
        ensures { option_map asks_up_to result ≡ cut_at (input_of self.now) (place_of self.now) }
    {
        let [l0, l1, VERSION, kind, rest @ ..] = self.input.get(self.place..)? else {
            return None;
        };
        let length = usize::from(u16::from_be_bytes([*l0, *l1]));
        let body = rest.get(..length.checked_sub(HEAD)?)?;
        let kind = Kind::new(*kind)?;
        if (kind == Kind::Opening) != (self.place == 0) {
            return None;
        }
        let record = Record::read(kind, body)?;
        Some((record, self.place + LENGTH + length))
    }
}
