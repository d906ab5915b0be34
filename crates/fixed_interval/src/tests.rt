ghost use Rattle.std.specs.Prelude.{◌≡◌, ◌≤ℤ◌, IfOk};
ghost use Rattle.decimal18.specs.Bound.{scaled};

use crate::{
    ArithFault, Overflow, Span, Steps, Truth, add, at_most, cut, div, ends, floor_at, mul, neg,
    plus, point, pow, ratio, sqr, sub, zero,
};
use decimal18::Dec;
use exact_fraction::Ratio;
use std::marker::Brand;
use std::mem::size_of;
use std::process::Abort;
use std::sync::ledger::{Blank, Ledger};
use std::test::Fail;

const MOST: i64 = 999_999_999_999_999_999;

// The coefficients and the places of the two ends.
type Shown = (i64, u8, i64, u8);

fn shown(span: &Span) -> Shown {
    let (lo, hi) = (span.lo(), span.hi());
    (lo.coefficient(), lo.places(), hi.coefficient(), hi.places())
}

fn decimal(coefficient: i64, places: u8) -> Result<Dec, &'static str> {
    Dec::new(coefficient, places).ok_or("not a bound")
}

// The span from one whole number to another.
fn whole_ends<L: Ledger>(lo: i64, hi: i64, steps: &mut Steps<L>) -> Result<Span, &'static str>
    requires { lo ≤ℤ hi }
    ensures { IfOk result (λ s. s ≡ record { lo = scaled lo 0; hi = scaled hi 0 }) }
{
    let Some(low) = Dec::new(lo, 0) else {
        return Err("not a bound");
    };
    let Some(high) = Dec::new(hi, 0) else {
        return Err("not a bound");
    };
    Ok(ends(low, high, steps))
}

fn sums<L: Ledger>(rt: &impl Abort, blank: Blank) -> Result<(), Fail>
    requires name { blank.name ≡ L.name }
    requires parts { blank.parts ≡ L.parts }
    requires one { L.parts ≡ 1 }
{
    let mut steps: Steps<L> = Steps::new(blank);
    let two = point(decimal(2, 0)?, &mut steps);
    let three = point(decimal(3, 0)?, &mut steps);
    let sum: Option<Span> = add(&two, &three, &mut steps).ok();
    assert_eq!(rt; sum.map(|s| shown(&s)), Some((5, 0, 5, 0)));
    let difference: Option<Span> = sub(&two, &three, &mut steps).ok();
    assert_eq!(rt; difference.map(|s| shown(&s)), Some((-1, 0, -1, 0)));
    let most = point(decimal(MOST, 0)?, &mut steps);
    assert_eq!(rt; add(&most, &two, &mut steps), Err(Overflow));
    let first: Option<Span> = plus(None, &two, &mut steps).ok();
    assert_eq!(rt; first.map(|s| shown(&s)), Some((2, 0, 2, 0)));
    let next: Option<Span> = plus(first, &three, &mut steps).ok();
    assert_eq!(rt; next.map(|s| shown(&s)), Some((5, 0, 5, 0)));
    assert_eq!(rt; plus(Some(most), &two, &mut steps), Err(Overflow));
    assert_eq!(rt; shown(&neg(&two, &mut steps)), (-2, 0, -2, 0));
    assert_eq!(rt; shown(&zero()), (0, 0, 0, 0));
    Ok(())
}

#[test]
fn points_and_sums(rt: HostRuntime) -> Result<(), Fail> {
    assert_eq!(rt; size_of::<Steps<Brand>>(), 0);
    sums::<Brand>(&rt, Blank::new(1))
}

fn products<L: Ledger>(rt: &impl Abort, blank: Blank) -> Result<(), Fail>
    requires name { blank.name ≡ L.name }
    requires parts { blank.parts ≡ L.parts }
    requires one { L.parts ≡ 1 }
{
    let mut steps: Steps<L> = Steps::new(blank);
    let least = point(decimal(1, 36)?, &mut steps);
    let half = point(decimal(5, 1)?, &mut steps);
    let product: Option<Span> = mul(&least, &half, &mut steps).ok();
    assert_eq!(rt; product.map(|s| shown(&s)), Some((0, 0, 1, 36)));
    let minus_one = point(decimal(-1, 0)?, &mut steps);
    let three = point(decimal(3, 0)?, &mut steps);
    let third: Option<Span> = div(&minus_one, &three, &mut steps).ok();
    assert_eq!(rt;
        third.map(|s| shown(&s)),
        Some((-333_333_333_333_333_334, 18, -333_333_333_333_333_333, 18))
    );
    let across = whole_ends(-2, 3, &mut steps)?;
    assert_eq!(rt;
        div(&three, &across, &mut steps),
        Err(ArithFault::ZeroDivisor)
    );
    let square: Option<Span> = sqr(&across, &mut steps).ok();
    assert_eq!(rt; square.map(|s| shown(&s)), Some((0, 0, 9, 0)));
    Ok(())
}

#[test]
fn products_and_quotients(rt: HostRuntime) -> Result<(), Fail> {
    products::<Brand>(&rt, Blank::new(1))
}

fn powers<L: Ledger>(rt: &impl Abort, blank: Blank) -> Result<(), Fail>
    requires name { blank.name ≡ L.name }
    requires parts { blank.parts ≡ L.parts }
    requires one { L.parts ≡ 1 }
{
    let mut steps: Steps<L> = Steps::new(blank);
    let across = whole_ends(-2, 3, &mut steps)?;
    let square: Option<Span> = pow(&across, 2, &mut steps).ok();
    assert_eq!(rt; square.map(|s| shown(&s)), Some((0, 0, 9, 0)));
    let cube: Option<Span> = pow(&across, 3, &mut steps).ok();
    assert_eq!(rt; cube.map(|s| shown(&s)), Some((-18, 0, 27, 0)));
    assert_eq!(rt; pow(&across, -1, &mut steps), Err(ArithFault::ZeroDivisor));
    let ten_to_the_ninth = point(decimal(1_000_000_000, 0)?, &mut steps);
    assert_eq!(rt;
        pow(&ten_to_the_ninth, 3, &mut steps),
        Err(ArithFault::Overflow)
    );
    Ok(())
}

#[test]
fn powers_of_spans(rt: HostRuntime) -> Result<(), Fail> {
    powers::<Brand>(&rt, Blank::new(1))
}

fn limits<L: Ledger>(rt: &impl Abort, blank: Blank) -> Result<(), Fail>
    requires name { blank.name ≡ L.name }
    requires parts { blank.parts ≡ L.parts }
    requires one { L.parts ≡ 1 }
{
    let mut steps: Steps<L> = Steps::new(blank);
    let twelve_elevenths = Ratio::new(12, 11).ok_or("11 is not 0")?;
    let rounded: Option<Span> = ratio(twelve_elevenths, 0, &mut steps).ok();
    assert_eq!(rt;
        rounded.map(|s| shown(&s)),
        Some((10_909_090_909_090_909, 16, 109_090_909_090_909_091, 17))
    );
    let part = whole_ends(1, 2, &mut steps)?;
    let whole = whole_ends(3, 4, &mut steps)?;
    assert_eq!(rt;
        shown(&floor_at(&part, decimal(15, 1)?, &mut steps)),
        (15, 1, 2, 0)
    );
    let between = cut(&whole, part.lo(), part.hi(), &mut steps);
    assert_eq!(rt; shown(&between), (2, 0, 2, 0));
    assert_eq!(rt; at_most(&part, &whole), Truth::Yes);
    assert_eq!(rt; at_most(&whole, &part), Truth::No);
    assert_eq!(rt; at_most(&part, &part), Truth::Unsettled);
    Ok(())
}

#[test]
fn raised_and_cut(rt: HostRuntime) -> Result<(), Fail> {
    limits::<Brand>(&rt, Blank::new(1))
}
