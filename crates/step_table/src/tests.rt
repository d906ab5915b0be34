use crate::StepTable;
use std::process::Abort;

#[test]
fn places_of_numbers(rt: HostRuntime) -> Result<(), &'static str> {
    let table = StepTable::new([1, 10, 100]).ok_or("the keys rise")?;
    assert_eq!(rt; table.at_or_below(0), None);
    assert_eq!(rt; table.at_or_below(1), Some(0));
    assert_eq!(rt; table.at_or_below(9), Some(0));
    assert_eq!(rt; table.at_or_below(10), Some(1));
    assert_eq!(rt; table.at_or_below(u64::MAX), Some(2));
    assert_eq!(rt; table.key(2), 100);
    Ok(())
}

#[test]
fn keys_that_do_not_rise(rt: HostRuntime) {
    assert!(rt; StepTable::new([1, 10, 10]).is_none());
    assert!(rt; StepTable::new([10, 1, 100]).is_none());
    assert!(rt; StepTable::new([7]).is_some());
}
