// Sums, products and quotients of spans beside the rule of four corners, computed corner by corner: signs, 0,
// points, spans across 0, 36 places, 18 nines, and results that leave the range.
ghost use Rattle.std.specs.Prelude.{◌≡◌};

use crate::bounds::{is_not_negative, is_not_positive};
use crate::{Span, Steps, add, div, ends, greater, is_at_most, lesser, mul, sqr};
use decimal18::{Dec, add_down, add_up, div_down, div_up, mul_down, mul_up};
use std::marker::Brand;
use std::process::Abort;
use std::sync::ledger::{Blank, Ledger};
use std::test::Fail;

// A result rounded down and up.
type Rounded = Option<(Dec, Dec)>;

fn numbers() -> Option<[Dec; 6]> {
    Some([
        Dec::new(-999_999_999_999_999_999, 0)?,
        Dec::new(-333_333_333_333_333_333, 18)?,
        Dec::new(0, 0)?,
        Dec::new(1, 36)?,
        Dec::new(3, 0)?,
        Dec::new(999_999_999_999_999_999, 0)?,
    ])
}

fn rounded(down: Option<Dec>, up: Option<Dec>) -> Rounded {
    match (down, up) {
        (Some(down), Some(up)) => Some((down, up)),
        _ => None,
    }
}

fn product(a: Dec, b: Dec) -> Rounded {
    rounded(mul_down(a, b), mul_up(a, b))
}

fn quotient(a: Dec, b: Dec) -> Rounded {
    if b.coefficient() == 0 {
        return None;
    }
    rounded(div_down(a, b), div_up(a, b))
}

fn covering(a: Rounded, b: Rounded) -> Rounded {
    match (a, b) {
        (Some(a), Some(b)) => Some((lesser(a.0, b.0), greater(a.1, b.1))),
        _ => None,
    }
}

fn products(a: &Span, b: &Span) -> Rounded {
    covering(
        covering(product(a.lo(), b.lo()), product(a.lo(), b.hi())),
        covering(product(a.hi(), b.lo()), product(a.hi(), b.hi())),
    )
}

fn quotients(a: &Span, b: &Span) -> Rounded {
    if is_not_positive(b.lo()) && is_not_negative(b.hi()) {
        return None;
    }
    covering(
        covering(quotient(a.lo(), b.lo()), quotient(a.lo(), b.hi())),
        covering(quotient(a.hi(), b.lo()), quotient(a.hi(), b.hi())),
    )
}

fn is_same(span: Option<Span>, rounded: Rounded) -> bool {
    match (span, rounded) {
        (Some(span), Some((lo, hi))) => span.lo() == lo && span.hi() == hi,
        (None, None) => true,
        _ => false,
    }
}

fn agrees<L: Ledger>(a: &Span, b: &Span, steps: &mut Steps<L>) -> bool {
    let sum: Option<Span> = add(a, b, steps).ok();
    let product: Option<Span> = mul(a, b, steps).ok();
    let quotient: Option<Span> = div(a, b, steps).ok();
    is_same(
        sum,
        rounded(add_down(a.lo(), b.lo()), add_up(a.hi(), b.hi())),
    ) && is_same(product, products(a, b))
        && is_same(quotient, quotients(a, b))
}

// The span from one number to another, where these are in order.
fn between<L: Ledger>(lo: Dec, hi: Dec, steps: &mut Steps<L>) -> Option<Span> {
    if is_at_most(lo, hi) {
        Some(ends(lo, hi, steps))
    } else {
        None
    }
}

// Whether all is as the rule says for `a` and each span between two of the numbers.
fn agrees_with_each<L: Ledger>(a: &Span, numbers: &[Dec; 6], steps: &mut Steps<L>) -> bool {
    let mut agrees_so_far = true;
    for pair in 0_usize..36 {
        if let Some(b) = between(numbers[pair / 6], numbers[pair % 6], steps) {
            agrees_so_far = agrees(a, &b, steps) && agrees_so_far;
        }
    }
    agrees_so_far
}

fn corners<L: Ledger>(rt: &impl Abort, blank: Blank) -> Result<(), Fail>
    requires name { blank.name ≡ L.name }
    requires parts { blank.parts ≡ L.parts }
    requires one { L.parts ≡ 1 }
{
    let mut steps: Steps<L> = Steps::new(blank);
    let numbers = numbers().ok_or("not bounds")?;
    let mut spans = 0_u32;
    for pair in 0_usize..36 {
        if let Some(a) = between(numbers[pair / 6], numbers[pair % 6], &mut steps) {
            spans = spans.wrapping_add(1);
            assert!(rt; agrees_with_each(&a, &numbers, &mut steps));
        }
    }
    assert_eq!(rt; spans, 21);
    Ok(())
}

#[test]
fn cases_are_four_corners(rt: HostRuntime) -> Result<(), Fail> {
    corners::<Brand>(&rt, Blank::new(1))
}

fn shown(lo: Dec, hi: Dec) -> (i64, u8, i64, u8) {
    (lo.coefficient(), lo.places(), hi.coefficient(), hi.places())
}

fn signs<L: Ledger>(rt: &impl Abort, blank: Blank) -> Result<(), Fail>
    requires name { blank.name ≡ L.name }
    requires parts { blank.parts ≡ L.parts }
    requires one { L.parts ≡ 1 }
{
    let mut steps: Steps<L> = Steps::new(blank);
    let below = between(Dec::whole(-4), Dec::whole(-2), &mut steps).ok_or("in order")?;
    let across = between(Dec::whole(-5), Dec::whole(7), &mut steps).ok_or("in order")?;
    let above = between(Dec::whole(5), Dec::whole(7), &mut steps).ok_or("in order")?;
    let product: Option<Span> = mul(&below, &above, &mut steps).ok();
    assert_eq!(rt;
        product.map(|s| shown(s.lo(), s.hi())),
        Some((-28, 0, -10, 0))
    );
    let product: Option<Span> = mul(&across, &below, &mut steps).ok();
    assert_eq!(rt;
        product.map(|s| shown(s.lo(), s.hi())),
        Some((-28, 0, 20, 0))
    );
    let product: Option<Span> = mul(&across, &across, &mut steps).ok();
    assert_eq!(rt;
        product.map(|s| shown(s.lo(), s.hi())),
        Some((-35, 0, 49, 0))
    );
    let square: Option<Span> = sqr(&below, &mut steps).ok();
    assert_eq!(rt; square.map(|s| shown(s.lo(), s.hi())), Some((4, 0, 16, 0)));
    let quotient: Option<Span> = div(&above, &below, &mut steps).ok();
    assert_eq!(rt;
        quotient.map(|s| shown(s.lo(), s.hi())),
        Some((-35, 1, -125, 2))
    );
    let quotient: Option<Span> = div(&across, &below, &mut steps).ok();
    assert_eq!(rt;
        quotient.map(|s| shown(s.lo(), s.hi())),
        Some((-35, 1, 25, 1))
    );
    Ok(())
}

#[test]
fn ends_by_sign(rt: HostRuntime) -> Result<(), Fail> {
    signs::<Brand>(&rt, Blank::new(1))
}
