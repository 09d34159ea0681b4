use crate::gate_lists::GateList;
use crate::parities::Parity;
use crate::plans::{Plan, sending};
use frame::numbers::Slot;
use std::test::Fail;

#[test]
fn lists_are_judged(rt: HostRuntime) -> Result<(), Fail> {
    let slot = Slot::new(0).ok_or("no slot 0")?;
    let list = GateList::load(&[0x01, 0x02]).map_err(|_| "a good list is refused")?;
    assert_eq!(rt; list.fill(slot).number(), 1);
    let refusal = GateList::load(&[0x01, 0x03])
        .err()
        .ok_or("a wrong list is loaded")?;
    assert_eq!(rt; (refusal.number(), refusal.value()), (10, 1));
    Ok(())
}

#[test]
fn kinds_send_the_other_queue(rt: HostRuntime) -> Result<(), Fail> {
    let slot = Slot::new(3).ok_or("no slot 3")?;
    let list = GateList::load(&[0x0E, 0x0D]).map_err(|_| "a good list is refused")?;
    assert_eq!(rt; sending(&list, slot).number(), 0);
    assert_eq!(rt; sending(&Parity, slot).number(), 0);
    Ok(())
}
