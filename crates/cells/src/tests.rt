// Values by the rules: each store passes its self test, and the floors at their edges.
use crate::ladders::Ladder;
use crate::masks::Mask;
use crate::rings::Ring;
use crate::rules::admits;
use crate::stores::self_test;
use crate::thresholds::Thresholds;
use frame::classes::Class;
use std::test::Fail;

#[test]
fn stores_pass_the_self_test(rt: HostRuntime) {
    assert!(rt; self_test::<Ring>() & self_test::<Mask>());
}

#[test]
fn rules_admit_from_their_floors_on(rt: HostRuntime) -> Result<(), Fail> {
    assert!(rt; admits(&Ladder, Class::BestEffort, 4) & !admits(&Ladder, Class::BestEffort, 3));
    let set = Thresholds::new(10, 4).map_err(|_| "thresholds of 10 and 4 are refused")?;
    assert!(rt; admits(&set, Class::BestEffort, 10) & !admits(&set, Class::Reserved, 9));
    Ok(())
}
