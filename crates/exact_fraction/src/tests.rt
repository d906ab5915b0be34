use crate::Ratio;
use std::cmp::Ordering;
use std::process::Abort;

#[test]
fn ratios(rt: HostRuntime) -> Result<(), &'static str> {
    assert!(rt; Ratio::new(1, 0).is_none());
    let half = Ratio::new(-1, 2).ok_or("2 is not 0")?;
    assert_eq!(rt; (half.num(), half.den()), (-1, 2));
    assert_eq!(rt; half.cmp_whole(0), Ordering::Less);
    assert_eq!(rt; half.cmp_whole(-1), Ordering::Greater);
    let least = Ratio::new(i128::MIN, 1).ok_or("1 is not 0")?;
    assert_eq!(rt; least.cmp_whole(i128::MIN), Ordering::Equal);
    let small = Ratio::new(i128::MIN, u64::MAX).ok_or("not 0")?;
    assert_eq!(rt; small.cmp_whole(i128::MIN), Ordering::Greater);
    assert_eq!(rt; small.cmp_whole(i128::MAX), Ordering::Less);
    Ok(())
}
