// Where the settings of an opening record send a frame.
use forwarding::address_tables::AddressTable;
use forwarding::routes::{Forwarding, Route};
use forwarding::taps::Tapped;
use frame::numbers::{Address, Port};
use records::openings::Opening;
use records::tables::load_table;

// The address table of an opening record, under the tap layer if it asks for that.
#[derive(Drop)]
pub enum Directions {
    Table(AddressTable),
    Tapped(Tapped<AddressTable>),
}

impl Directions {
    // There are none where a row of the opening record is refused.
    pub(crate) fn new(opening: &Opening<'_>) -> Option<Directions> {
        let table = load_table(opening.rows).ok()?;
        Some(if opening.tap {
            Directions::Tapped(Tapped { below: table })
        } else {
            Directions::Table(table)
        })
    }

    pub(crate) fn route(&self, destination: Address, input: Port) -> Route {
        match self {
            Directions::Table(table) => table.route(destination, input),
            Directions::Tapped(tapped) => tapped.route(destination, input),
        }
    }
}
