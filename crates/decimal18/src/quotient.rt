ghost use Rattle.std.specs.Prelude.{◌≡◌, ◌≢◌, false, ◌+◌, ◌*◌, ◌^◌, ◌<◌, ◌≤◌, ◌⊎◌, pos, unsigned_abs};
ghost use Rattle.exact_fraction.specs.Number.{◌/ℚ◌, of_ℤ};
ghost use Rattle.exact_fraction.specs.Ratio.{value_of_ratio};
ghost use Rattle.decimal18.specs.Bound.{value_of};
ghost use Rattle.decimal18.specs.Digits.{signed, rounded, IsPart};

use crate::Dec;
use crate::direction::Direction;
use crate::powers::power_of_ten;
use crate::round::{has_more, round};
use crate::sign::differ;
use exact_fraction::Ratio;

// Each step of a division finds so many digits: the rest times this power of ten fits 128 bits.
const STEP: u32 = 18;

const STEP_POWER: u128 = 1_000_000_000_000_000_000;

// Digits from here on are 18 at least.
const ENOUGH: u128 = 100_000_000_000_000_000;

// The whole part of a number divided by another, after `shift` zeros were put after it.
#[derive(Clone, Copy, Debug, PartialEq, Eq)]
struct Division {
    digits: u128,
    shift: u32,
    lost: bool,
}

/// The bound in this direction of `a / b`.
pub fn quotient(a: Dec, b: Dec, direction: Direction) -> Option<Dec>
    requires { b.coefficient ≢ pos 0 }
    ensures { result ≡ rounded direction (value_of a /ℚ value_of b) }
{
    let negative = differ(a.is_negative(), b.is_negative());
    let a_places = a.places() as u32;
    let b_places = b.places() as u32;
    let quotient = divide_once(
        a.size(),
        b.size(),
        b_places.saturating_sub(a_places),
        36 + b_places - a_places,
    );
    let places = quotient.shift + a_places;
    // Eighteen digits, and one zero at least before the point.
    if places < b_places {
        return None;
    }
    round(
        negative,
        quotient.digits,
        places - b_places,
        quotient.lost,
        direction,
    )
}

/// The bound in this direction of `q / 10^places`.
pub fn scaled_ratio(q: Ratio, places: u32, direction: Direction) -> Option<Dec>
    requires { places ≤ 72 }
    ensures { result ≡ rounded direction (value_of_ratio q /ℚ of_ℤ (pos (10 ^ places))) }
{
    let num = q.num();
    let quotient = divide(num.unsigned_abs(), q.den(), 36_u32.saturating_sub(places));
    round(
        is_negative(num),
        quotient.digits,
        places + quotient.shift,
        quotient.lost,
        direction,
    )
}

// Whether the number is below 0.
fn is_negative(number: i128) -> bool
    ensures { number ≡ signed result (unsigned_abs number) }
{
    number < 0
}

// The whole part of a number of 18 digits divided by another, after as many zeros as make 18 digits
// of it, or `most` zeros; without any where it divides and none are needed.
#[inline(always)]
fn divide_once(size: u64, divisor: u64, least: u32, most: u32) -> Division
    requires size { size < 10 ^ 18 }
    requires divisor { divisor < 10 ^ 18 }
    requires positive { 0 < divisor }
    requires least { least ≤ most }
    requires most { most ≤ 72 }
    ensures digits { IsPart (size * 10 ^ result.shift) divisor result.digits result.lost }
    ensures enough { (result.lost ≡ false) ⊎ ((10 ^ 17 ≤ result.digits) ⊎ (most ≤ result.shift)) }
    ensures least { (10 ^ 17 ≤ result.digits) ⊎ (least ≤ result.shift) }
    ensures most { result.shift ≤ most }
{
    if least == 0 && divisor <= size && size % divisor == 0 {
        return Division {
            digits: (size / divisor) as u128,
            shift: 0,
            lost: false,
        };
    }
    if size == 0 {
        return Division {
            digits: 0,
            shift: most,
            lost: false,
        };
    }
    let shift = (18 + divisor.ilog10() - size.ilog10()).min(most);
    let widened = size as u128 * power_of_ten(shift);
    let digits = widened / divisor as u128;
    Division {
        digits,
        shift,
        lost: has_more(false, widened - digits * divisor as u128),
    }
}

// Long division, eighteen digits a step, until there are 18 digits, all digits, or `most` zeros were
// put after the number.
fn divide(size: u128, divisor: u64, most: u32) -> Division
    requires positive { 0 < divisor }
    requires most { most ≤ 72 }
    ensures digits { IsPart (size * 10 ^ result.shift) divisor result.digits result.lost }
    ensures enough { (result.lost ≡ false) ⊎ ((10 ^ 17 ≤ result.digits) ⊎ (most ≤ result.shift)) }
    ensures near { result.shift < most + 18 }
    ensures none { most ≡ 0 → result.shift ≡ 0 }
{
    let divisor = divisor as u128;
    let mut digits = size / divisor;
    let mut rest = size - digits * divisor;
    let mut shift = 0;
    while rest != 0 && digits < ENOUGH && shift < most {
        let widened = rest * STEP_POWER;
        let next = widened / divisor;
        digits = digits * STEP_POWER + next;
        rest = widened - next * divisor;
        shift += STEP;
    }
    Division {
        digits,
        shift,
        lost: has_more(false, rest),
    }
}
