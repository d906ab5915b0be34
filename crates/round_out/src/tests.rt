ghost use Rattle.std.specs.Prelude.{◌≡◌, IfOk, pos};
ghost use Rattle.exact_fraction.specs.Number.{of_ℤ, ◌≤ℚ◌};
ghost use Rattle.decimal18.specs.Bound.{value_of};

use crate::{
    CorrSaid, Reported, Rounded, correlation, estimate_at, expanded, print_at, reported, two_digits,
};
use decimal18::Dec;
use fixed_interval::{Overflow, Span, Steps, point};
use std::marker::Brand;
use std::process::Abort;
use std::sync::ledger::{Blank, Ledger};
use std::test::Fail;

// The span of a variance.
fn variance<L: Ledger>(
    coefficient: i64,
    places: u8,
    steps: &mut Steps<L>,
) -> Result<Span, &'static str>
    ensures { IfOk result (λ s. of_ℤ (pos 0) ≤ℚ value_of s.lo) }
{
    let Some(variance) = Dec::new(coefficient, places) else {
        return Err("not a bound");
    };
    if variance.coefficient() < 0 {
        return Err("below 0");
    }
    Ok(point(variance, steps))
}

// The span of an estimate.
fn estimate<L: Ledger>(
    coefficient: i64,
    places: u8,
    steps: &mut Steps<L>,
) -> Result<Span, &'static str> {
    Ok(point(Dec::new(coefficient, places).ok_or("not a bound")?, steps))
}

// The uncertainty 12.5 has the digits 13, the estimate 12.345 is rounded to 12.35, and the covariance -1 of the variances
// 1 and 4 has the coefficient -0.5.
fn spans<L: Ledger>(rt: &impl Abort, blank: Blank) -> Result<(), Fail>
    requires name { blank.name ≡ L.name }
    requires parts { blank.parts ≡ L.parts }
    requires one { L.parts ≡ 1 }
{
    let mut steps: Steps<L> = Steps::new(blank);
    let digits = two_digits(&variance(15_625, 2, &mut steps)?);
    assert_eq!(rt; digits, Rounded::Digits { m: 13, e: 0 });
    let y = estimate(12_345, 3, &mut steps)?;
    assert_eq!(rt; estimate_at(&y, -2), Some(1_235));
    let one = variance(1, 0, &mut steps)?;
    let four = variance(4, 0, &mut steps)?;
    let covariance = point(Dec::whole(-1), &mut steps);
    let said = correlation(&covariance, &one, &four, &mut steps);
    assert_eq!(rt; said, Ok(CorrSaid::Hundredths(-50)));
    Ok(())
}

// What is reported of points: the 10.05762 ohm with 27 milliohm of JCGM 100:2008, 7.2.6, the uncertainties 0.995 and 99.5,
// ties below 0, and the last places on both sides.
fn reports<L: Ledger>(rt: &impl Abort, blank: Blank) -> Result<(), Fail>
    requires name { blank.name ≡ L.name }
    requires parts { blank.parts ≡ L.parts }
    requires one { L.parts ≡ 1 }
{
    let mut steps: Steps<L> = Steps::new(blank);
    for (y, v, estimated, m, e) in [
        ((1_005_762, 5), (729, 6), 10_058, 27, -3),
        ((5, 0), (990_025, 6), 50, 10, -1),
        ((1_234, 0), (990_025, 2), 123, 10, 1),
        ((-25, 1), (169, 0), -2, 13, 0),
        ((-5, 1), (169, 0), 0, 13, 0),
        ((-1, 0), (1, 36), -10_000_000_000_000_000_000, 10, -19),
        ((-150_000_000, 0), (999_999_999_999_999_999, 0), -1, 10, 8),
    ] {
        let y = estimate(y.0, y.1, &mut steps)?;
        let v = variance(v.0, v.1, &mut steps)?;
        let report = Reported::Rounded {
            estimate: estimated,
            m,
            e,
        };
        assert_eq!(rt; reported(&y, &v), report);
    }
    Ok(())
}

// What is reported of 10.05762 with twice 0.027, with no uncertainty, and with a factor whose square is out of range.
fn expansions<L: Ledger>(rt: &impl Abort, blank: Blank) -> Result<(), Fail>
    requires name { blank.name ≡ L.name }
    requires parts { blank.parts ≡ L.parts }
    requires one { L.parts ≡ 1 }
{
    let mut steps: Steps<L> = Steps::new(blank);
    let y = estimate(1_005_762, 5, &mut steps)?;
    let v = variance(729, 6, &mut steps)?;
    let none = variance(0, 0, &mut steps)?;
    let two = estimate(2, 0, &mut steps)?;
    let report = Reported::Rounded {
        estimate: 10_058,
        m: 54,
        e: -3,
    };
    assert_eq!(rt; expanded(&y, &v, &two, &mut steps), Ok(report));
    assert_eq!(rt;
        expanded(&y, &none, &two, &mut steps),
        Ok(Reported::Exact(y.lo()))
    );
    let great = estimate(10_000_000_000, 0, &mut steps)?;
    assert_eq!(rt; expanded(&y, &v, &great, &mut steps), Err(Overflow));
    Ok(())
}

#[test]
fn spans_are_rounded(rt: HostRuntime) -> Result<(), Fail> {
    spans::<Brand>(&rt, Blank::new(1))
}

#[test]
fn estimates_are_reported(rt: HostRuntime) -> Result<(), Fail> {
    reports::<Brand>(&rt, Blank::new(1))
}

#[test]
fn uncertainties_are_expanded(rt: HostRuntime) -> Result<(), Fail> {
    expansions::<Brand>(&rt, Blank::new(1))
}

#[test]
fn texts_are_printed(rt: HostRuntime) -> Result<(), Fail> {
    for (c, e, text) in [(-5, -3, "-0.005"), (13, 2, "1300"), (0, 2, "0")] {
        let printed = print_at(rt.alloc(), c, e)?;
        assert_eq!(rt; printed.as_slice(), text.as_bytes());
    }
    Ok(())
}
