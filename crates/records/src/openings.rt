// The opening record: the settings of a new switch.
ghost use Rattle.std.specs.Prelude.{◌≡◌, ℕ, not, List, drop};
ghost use Rattle.std.specs.Iterator.{YieldsFirstBy, item_count};
ghost use Rattle.std.specs.Option.{option_map};
ghost use Rattle.frame.specs.Numbers.{number_at};
ghost use Rattle.records.specs.Format.{row_of, rows_of, opens, opening_in, opening_fits, unless};

use forwarding::rows::Row;
use frame::numbers::Address;
use frame::numbers::addresses::six_bytes;

// The bytes of a row: an address of six and a port set.
const ROW: usize = 7;

// The rows of an address table, still as bytes: an iterator, which cuts one after the other off the front.
#[derive(Clone, Copy)]
pub struct Rows<'a> {
    bytes: &'a [u8],
}

#[derive(Clone, Copy)]
pub struct Opening<'a> {
    pub slot: u64,
    pub number: u64,
    pub rate: u16,
    pub depth: u16,
    pub reserved: u16,
    pub best_effort: u16,
    pub tap: bool,
    pub rows: Rows<'a>,
}

impl Iterator for Rows<'_> {
    type Item = Row;

    ghost next_gives = { YieldsFirstBy row_of rows_of };

    ghost remaining = { item_count rows_of };

    fn next(&mut self) -> Option<Row> {
        let [a, b, c, d, e, f, ports, rest @ ..] = self.bytes else {
            return None;
        };
        self.bytes = rest;
        Some(Row {
            address: Address::from([*a, *b, *c, *d, *e, *f]),
            ports: *ports,
        })
    }

    fn size_hint(&self) -> (usize, Option<usize>) {
        let rows = self.len();
        (rows, Some(rows))
    }
}

impl ExactSizeIterator for Rows<'_> {
    fn len(&self) -> usize {
        self.bytes.len() / ROW
    }
}

impl<'a> Opening<'a> {
    // The opening whose body this is, if it is one.
    pub(crate) fn read(body: &'a [u8]) -> Option<Opening<'a>>
        ensures { option_map opens result ≡ unless (not (opening_fits body.now)) (opening_in body.now) }
    {
        let [s0, s1, s2, s3, s4, s5, n0, n1, n2, n3, n4, n5, rest @ ..] = body else {
            return None;
        };
        let slot = six_bytes([*s0, *s1, *s2, *s3, *s4, *s5]);
        let number = six_bytes([*n0, *n1, *n2, *n3, *n4, *n5]);
        Opening::with_settings(slot, number, rest)
    }

    // The opening that has these bytes behind its slot and number; `b` stands for its whole body.
    fn with_settings(slot: u64, number: u64, settings: &'a [u8]) -> Option<Opening<'a>>
        ensures { (b : List ℕ) → slot ≡ number_at b 0 6 → number ≡ number_at b 6 6 → settings.now ≡ drop 12 b → option_map opens result ≡ unless (not (opening_fits b)) (opening_in b) }
    {
        let [r0, r1, d0, d1, v0, v1, b0, b1, tap, count, rows @ ..] = settings else {
            return None;
        };
        if *tap > 1 || rows.len() != ROW * usize::from(*count) {
            return None;
        }
        Some(Opening {
            slot,
            number,
            rate: u16::from_be_bytes([*r0, *r1]),
            depth: u16::from_be_bytes([*d0, *d1]),
            reserved: u16::from_be_bytes([*v0, *v1]),
            best_effort: u16::from_be_bytes([*b0, *b1]),
            tap: *tap == 1,
            rows: Rows { bytes: rows },
        })
    }
}
