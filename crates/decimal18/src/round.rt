ghost use Rattle.std.specs.Prelude.{◌≡◌, ◌≢◌, ◌↔◌, ◌+◌, ◌-◌, ◌*◌, ◌/◌, ◌^◌, ◌<◌, ◌≤◌, ◌⊎◌, Bool, true, false, IfSome, IfNone};
ghost use Rattle.exact_fraction.specs.Number.{ℚ};
ghost use Rattle.decimal18.specs.Digits.{signed_ℚ, rounded, growth, IsCutOff, IsEnough, IsFirst, IsPast};

use crate::Dec;
use crate::direction::Direction;
use crate::magnitude::Magnitude;
use crate::powers::{count_digits, power_of_ten, short_power_of_ten};

// The greatest number of 18 digits.
const MOST: u64 = 999_999_999_999_999_999;

// The first digits of a number, 18 of them at most, and whether it has more.
#[derive(Clone, Copy, Debug, PartialEq, Eq)]
struct First {
    digits: u64,
    places: u32,
    lost: bool,
}

// The digits of a number before its last ones, and the number that these are.
#[derive(Clone, Copy, Debug, PartialEq, Eq)]
struct Parts {
    kept: u64,
    rest: u128,
}

/// The bound in this direction of a number that has these digits; `lost` says whether it has more.
#[inline(always)]
pub fn round(
    negative: bool,
    digits: u128,
    places: u32,
    lost: bool,
    direction: Direction,
) -> Option<Dec>
    requires places { places ≤ 72 }
    requires enough { IsEnough digits places lost }
    ensures { (x : ℚ) → IsCutOff x digits places lost → result ≡ rounded direction (signed_ℚ negative x) }
{
    if digits <= MOST as u128 && places <= 36 && !lost {
        return Some(Dec::shortest(
            negative,
            Magnitude {
                digits: digits as u64,
                places,
            },
        ));
    }
    round_off(negative, digits, places, lost, direction)
}

// The same where the number may be no bound.
fn round_off(
    negative: bool,
    digits: u128,
    places: u32,
    lost: bool,
    direction: Direction,
) -> Option<Dec>
    requires places { places ≤ 72 }
    requires enough { IsEnough digits places lost }
    ensures { (x : ℚ) → IsCutOff x digits places lost → result ≡ rounded direction (signed_ℚ negative x) }
{
    let first = first_digits(digits, places, lost)?;
    if is_past_range(first) {
        return None;
    }
    let size = Magnitude {
        digits: first.digits + growth(negative, first.lost, direction),
        places: first.places,
    };
    Dec::from_magnitude(negative, size)
}

// Whether the number is above the greatest bound, of which it has the digits.
fn is_past_range(first: First) -> bool
    ensures { (result ≡ true) ↔ IsPast first.digits first.places first.lost }
{
    first.lost && first.places == 0 && first.digits == MOST
}

// What rounding adds to the last digit of a size: it grows away from 0.
fn growth(negative: bool, lost: bool, direction: Direction) -> u64
    ensures value { result ≡ growth negative lost direction }
    ensures most { result ≤ 1 }
{
    match (direction, negative, lost) {
        (Direction::Down, true, true) | (Direction::Up, false, true) => 1,
        _ => 0,
    }
}

// As many of the first digits as a bound can have, and `None` where more than 18 stand before
// the point.
fn first_digits(digits: u128, places: u32, lost: bool) -> Option<First>
    requires { places ≤ 72 }
    ensures some { IfSome result (λ f. IsFirst digits places lost f.digits f.places f.lost) }
    ensures none { IfNone result (10 ^ (18 + places) ≤ digits) }
{
    if digits > MOST as u128 || places > 36 {
        return cut(digits, places, lost);
    }
    Some(First {
        digits: digits as u64,
        places,
        lost,
    })
}

// The same where there may be too many digits.
fn cut(digits: u128, places: u32, lost: bool) -> Option<First>
    requires { places ≤ 72 }
    ensures some { IfSome result (λ f. IsFirst digits places lost f.digits f.places f.lost) }
    ensures none { IfNone result (10 ^ (18 + places) ≤ digits) }
{
    let count = surplus(digits).max(places.saturating_sub(36));
    if count > places {
        return None;
    }
    let parts = split_off(digits, count);
    Some(First {
        digits: parts.kept,
        places: places - count,
        lost: has_more(lost, parts.rest),
    })
}

// Takes so many of the last digits off.
#[inline(always)]
fn split_off(digits: u128, count: u32) -> Parts
    requires count { count < 39 }
    requires fits { digits / 10 ^ count < 10 ^ 18 }
    ensures kept { result.kept ≡ digits / 10 ^ count }
    ensures rest { result.rest ≡ digits - digits / 10 ^ count * 10 ^ count }
{
    // A division of 64 bits is by far the shorter one.
    if digits <= u64::MAX as u128 && count < 20 {
        let power = short_power_of_ten(count);
        let kept = digits as u64 / power;
        return Parts {
            kept,
            rest: (digits as u64 - kept * power) as u128,
        };
    }
    let power = power_of_ten(count);
    let kept = digits / power;
    Parts {
        kept: kept as u64,
        rest: digits - kept * power,
    }
}

/// Whether something is left out: before, or by this rest.
pub fn has_more(before: bool, rest: u128) -> bool
    ensures { (result ≡ false) ↔ ((before ≡ false) × (rest ≡ 0)) }
{
    before || rest != 0
}

// By how many digits there are more than 18.
fn surplus(digits: u128) -> u32
    ensures below { digits < 10 ^ (18 + result) }
    ensures reached { 0 < result → 10 ^ (17 + result) ≤ digits }
    ensures most { result ≤ 21 }
{
    count_digits(digits).saturating_sub(18)
}
