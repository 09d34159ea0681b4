// The address table of an opening record.
ghost use Rattle.std.specs.Prelude.{◌≡◌};
ghost use Rattle.frame.specs.Refusals.{told};
ghost use Rattle.forwarding.specs.AddressTables.{table_forwards, table_loaded};
ghost use Rattle.records.specs.Format.{rows_of};
ghost use Rattle.records.specs.Tables.{rows_in};

use crate::openings::Rows;
use forwarding::address_tables::AddressTable;
use frame::refusals::Refusal;

// The table of these rows, or the refusal of the first one that it cannot hold: as AddressTable::load, over rows that are
// still bytes. One function for both would go over any iterator, and so would have to ask that it ends.
pub fn load_table(rows: Rows<'_>) -> Result<AddressTable, Refusal>
    ensures { told table_forwards result ≡ table_loaded (rows_in (rows_of rows.entry)) }
{
    let mut table = AddressTable::new();
    for row in rows {
        table.add(row)?;
    }
    Ok(table)
}
