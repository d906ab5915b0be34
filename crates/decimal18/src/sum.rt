ghost use Rattle.std.specs.Prelude.{◌≡◌, ◌≢◌, ◌+◌, ◌*◌, ◌^◌, ◌<◌, ◌≤◌, Bool, ◌+ℤ◌, pos, unsigned_abs};
ghost use Rattle.exact_fraction.specs.Number.{◌+ℚ◌, neg_ℚ};
ghost use Rattle.decimal18.specs.Bound.{value_of};
ghost use Rattle.decimal18.specs.Digits.{signed, rounded, joined, IsPart};

use crate::Dec;
use crate::direction::Direction;
use crate::powers::{power_of_ten, short_power_of_ten};
use crate::round::{has_more, round};
use crate::sign::{differ, is_negative};

// A size with its sign.
#[derive(Clone, Copy, Debug, PartialEq, Eq)]
struct Signed {
    negative: bool,
    size: u128,
}

// The digits before others, and whether those others are not 0.
#[derive(Clone, Copy, Debug, PartialEq, Eq)]
struct Part {
    digits: u128,
    lost: bool,
}

/// The bound in this direction of `a + b`.
pub fn sum(a: Dec, b: Dec, direction: Direction) -> Option<Dec>
    ensures { result ≡ rounded direction (value_of a +ℚ value_of b) }
{
    if a.places() == b.places() {
        level_sum(a, b, direction)
    } else if a.places() < b.places() {
        sum_by_places(a, b, direction)
    } else {
        sum_by_places(b, a, direction)
    }
}

/// The bound in this direction of `a - b`.
pub fn difference(a: Dec, b: Dec, direction: Direction) -> Option<Dec>
    ensures { result ≡ rounded direction (value_of a +ℚ neg_ℚ (value_of b)) }
{
    sum(a, b.negated(), direction)
}

// The sum at one number of places: that of the coefficients, which 64 bits hold.
#[inline(always)]
fn level_sum(a: Dec, b: Dec, direction: Direction) -> Option<Dec>
    requires { a.places ≡ b.places }
    ensures { result ≡ rounded direction (value_of a +ℚ value_of b) }
{
    let coefficient = a.coefficient() + b.coefficient();
    round(
        is_negative(coefficient),
        coefficient.unsigned_abs() as u128,
        b.places() as u32,
        false,
        direction,
    )
}

// The sum where `a` has no more places.
fn sum_by_places(a: Dec, b: Dec, direction: Direction) -> Option<Dec>
    requires { a.places ≤ b.places }
    ensures { result ≡ rounded direction (value_of a +ℚ value_of b) }
{
    if b.places() - a.places() <= 18 {
        near_sum(a, b, direction)
    } else if a.size() == 0 {
        round(
            b.is_negative(),
            b.size() as u128,
            b.places() as u32,
            false,
            direction,
        )
    } else {
        far_sum(a, b, direction)
    }
}

// The sum where 128 bits hold it at the places of `b`.
fn near_sum(a: Dec, b: Dec, direction: Direction) -> Option<Dec>
    requires least { a.places ≤ b.places }
    requires most { b.places ≤ a.places + 18 }
    ensures { result ≡ rounded direction (value_of a +ℚ value_of b) }
{
    let places = b.places() as u32;
    let power = short_power_of_ten(places - a.places() as u32);
    let a_size = a.size() as u128 * power as u128;
    let sum = signed_sum(
        Signed {
            negative: a.is_negative(),
            size: a_size,
        },
        Signed {
            negative: b.is_negative(),
            size: b.size() as u128,
        },
    );
    round(sum.negative, sum.size, places, false, direction)
}

fn signed_sum(a: Signed, b: Signed) -> Signed
    requires { a.size + b.size < 2 ^ 128 }
    ensures sum { signed result.negative result.size ≡ signed a.negative a.size +ℤ signed b.negative b.size }
{
    if a.negative == b.negative {
        Signed {
            negative: a.negative,
            size: a.size + b.size,
        }
    } else if a.size >= b.size {
        Signed {
            negative: a.negative,
            size: a.size - b.size,
        }
    } else {
        Signed {
            negative: b.negative,
            size: b.size - a.size,
        }
    }
}

// The sum where the last digit of `a`, which is not 0, stands so far before that of `b` that
// the sum has 18 digits before the last ones of `b` count.
fn far_sum(a: Dec, b: Dec, direction: Direction) -> Option<Dec>
    requires positive { 0 < unsigned_abs a.coefficient }
    requires far { a.places + 18 < b.places }
    ensures { result ≡ rounded direction (value_of a +ℚ value_of b) }
{
    let negative = a.is_negative();
    let places = a.places() as u32 + 18;
    let unit = power_of_ten(b.places() as u32 - places);
    let lead = a.size() as u128 * power_of_ten(18);
    let part = joined(
        lead,
        b.size() as u128,
        unit,
        differ(negative, b.is_negative()),
    );
    round(negative, part.digits, places, part.lost, direction)
}

// The digits before the unit of `lead` units and `size`, or of their difference.
fn joined(lead: u128, size: u128, unit: u128, apart: bool) -> Part
    requires unit { 0 < unit }
    requires lead { size < lead }
    requires fits { lead + size < 2 ^ 128 }
    ensures { IsPart (joined apart (lead * unit) size) unit result.digits result.lost }
{
    let digits = size / unit;
    let lost = has_more(false, size - digits * unit);
    if apart {
        // The last digits of the difference are what those of `size` lack to a unit.
        let borrowed = if lost { 1 } else { 0 };
        return Part {
            digits: lead - digits - borrowed,
            lost,
        };
    }
    Part {
        digits: lead + digits,
        lost,
    }
}
