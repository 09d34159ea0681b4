// Values by the rules of the tables and of the tap layer.
use crate::address_tables::AddressTable;
use crate::flow_tables::FlowTable;
use crate::routes::reaches;
use crate::rows::Row;
use crate::taps::Tapped;
use frame::numbers::{Address, Port};
use std::test::Fail;

// A station whose address is 2^31, of flow 1, is known behind port 1.
const STATION: [u8; 6] = [0, 0, 0x80, 0, 0, 0];

#[test]
fn each_kind_reaches_the_station(rt: HostRuntime) -> Result<(), Fail> {
    let station = Address::from(STATION);
    let [input, output, _, tap] = Port::ALL;
    let row = Row {
        address: station,
        ports: 2,
    };
    let table = AddressTable::load(&[row]).map_err(|_| "the row is refused")?;
    let mut flows = FlowTable::new();
    let is_set = flows.set_flow(1, 2).is_ok();
    let by_flow = reaches(&flows, station, input, output);
    let by_row = reaches(&table, station, input, output);
    let by_tap = reaches(&Tapped { below: table }, station, input, tap);
    assert!(rt; is_set & by_flow & by_row & by_tap);
    Ok(())
}

#[test]
fn a_thirteenth_row_is_refused(rt: HostRuntime) -> Result<(), Fail> {
    let row = Row {
        address: Address::from(STATION),
        ports: 2,
    };
    let refusal = AddressTable::load(&[row; 13])
        .err()
        .ok_or("thirteen rows are held")?;
    assert_eq!(rt; (refusal.number(), refusal.value()), (10, 12));
    Ok(())
}
