// Filling an address table, and asking it.
ghost use Rattle.std.specs.Prelude.{◌≡◌, ◌-◌, ◌^◌, [], ◌==◌};
ghost use Rattle.std.specs.Option.{option_map};
ghost use Rattle.frame.specs.Refusals.{told};
ghost use Rattle.frame.specs.Numbers.{address_bits, set_bits};
ghost use Rattle.forwarding.specs.Rows.{first_row, first_wrong, fits_at};
ghost use Rattle.forwarding.specs.AddressTables.{row_put, table_forwards, table_loaded, used_rows};
ghost use Rattle.std.proofs.lemmas.Bool.{cond_both};
ghost use Rattle.frame.specs.Numbers;
ghost use Rattle.forwarding.specs.Ways.{Proper, to, formed};
ghost use Rattle.forwarding.specs.Searches.{all_narrow};
ghost use Rattle.forwarding.specs.Sets.{formed_proper, others_proper};

use crate::address_tables::{AddressTable, ROWS};
use crate::routes::{ALL_PORTS, Forwarding, Route, form};
use crate::rows::Row;
use arrayvec::ArrayVec;
use frame::numbers::{Address, Port, PortSet};
use frame::refusals::Refusal;

impl Row {
    // Whether a table can hold this row at this place.
    fn fits_at(&self, place: usize) -> bool
        ensures { result ≡ fits_at place self.now }
    {
        place < ROWS && self.ports <= ALL_PORTS
    }
}

// The place of the first row that a table cannot hold.
fn first_wrong(rows: &[Row]) -> Option<usize>
    ensures { result ≡ first_wrong 0 rows.now }
{
    for (place, row) in rows.iter().enumerate() {
        if !row.fits_at(place) {
            return Some(place);
        }
    }
    None
}

impl AddressTable {
    // A table without rows.
    pub fn new() -> AddressTable
        ensures { used_rows result ≡ [] }
    {
        AddressTable {
            rows: ArrayVec::new(),
        }
    }

    // Puts a row behind the others. One that the table cannot hold is refused by its place.
    pub fn add(&mut self, row: Row) -> Result<(), Refusal>
        ensures { (told (λ _. tt) result, used_rows self.new) ≡ row_put (used_rows self.old) row }
    {
        // A row keeps the number of its set as it was given, so that is tested here, and no set is made of it yet.
        if self.rows.is_full() || row.ports > ALL_PORTS {
            return Err(Refusal::BadSetting(self.rows.len()));
        }
        self.rows.push(row);
        Ok(())
    }

    // The table of these rows. The place of the first row that it cannot hold is refused.
    pub fn load(rows: &[Row]) -> Result<AddressTable, Refusal>
        ensures { told table_forwards result ≡ table_loaded rows.now }
    {
        if let Some(place) = first_wrong(rows) {
            return Err(Refusal::BadSetting(place));
        }
        let mut held = ArrayVec::new();
        held.try_extend_from_slice(rows).unwrap();
        Ok(AddressTable { rows: held })
    }

    // The set of the first row with this address. By the project's rule for look-ups, a loop that the first hit leaves.
    fn row_for(&self, destination: Address) -> Option<PortSet>
        ensures { option_map set_bits result ≡ first_row (used_rows self.now) (address_bits destination) }
    {
        for row in self.rows.as_slice() {
            if row.address == destination {
                return PortSet::new(row.ports);
            }
        }
        None
    }
}

impl Forwarding for AddressTable {
    ghost forwards = { table_forwards };

    ghost proper = { λ t d p hd hp.
        cond_both (d == 2 ^ 48 - 1) (to (Numbers.others p)) (formed (first_row (used_rows t) d) p) (Proper p)
        (λ broadcast. others_proper p hp)
        (λ single. formed_proper (first_row (used_rows t) d) p hp (all_narrow 0 (used_rows t) d t.right)) };

    fn route(&self, destination: Address, input: Port) -> Route {
        if destination == Address::BROADCAST {
            return Ok(PortSet::others(input));
        }
        form(self.row_for(destination), input)
    }
}
