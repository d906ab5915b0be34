ghost use Rattle.std.specs.Prelude.{◌≡◌, ◌≤◌, ◌<◌, ◌^◌, ◌*◌, IfSome, pos, negsuc, ◌≤ℤ◌, ◌+ℤ◌, ◌*ℤ◌, unsigned_abs};
ghost use Rattle.exact_fraction.specs.Fraction.{floor_of};
ghost use Rattle.exact_fraction.specs.Number.{ℚ};
ghost use Rattle.exact_law.specs.Rounding.{at_place};
ghost use Rattle.decimal18.specs.Bound.{value_of};
ghost use Rattle.fixed_interval.specs.Interval.{Encloses};
ghost use Rattle.round_out.specs.Settled.{settled_estimate};

use decimal18::Dec;
use fixed_interval::Span;

// A power of ten with at most 20 digits.
fn power_of_ten(exponent: u8) -> u64
    requires { exponent ≤ 19 }
    ensures { result ≡ 10 ^ exponent }
{
    10_u64.pow(exponent as u32)
}

fn product(number: i64, factor: u64) -> i128
    requires { unsigned_abs (number *ℤ pos factor) < 10 ^ 38 }
    ensures { result ≡ number *ℤ pos factor }
{
    number as i128 * factor as i128
}

// The greatest whole number not above `number / unit + 1/2`.
fn nearest(number: i64, unit: u64) -> i128
    requires digits { unsigned_abs number < 10 ^ 18 }
    requires positive { 0 < unit }
    requires most { unit ≤ 10 ^ 18 }
    ensures { result ≡ floor_of ((number *ℤ pos 2) +ℤ pos unit) (unit * 2) }
{
    (number as i128 * 2 + unit as i128).div_euclid(unit as i128 * 2)
}

// How many digits after the last whole unit of the place a number with so many places has.
fn digits_after(places: u8, e: i8) -> i8
    requires places { places ≤ 36 }
    requires least { negsuc 18 ≤ℤ e }
    requires most { e ≤ℤ pos 8 }
    ensures value { result ≡ pos places +ℤ e }
    ensures low { negsuc 18 ≤ℤ result }
{
    places as i8 + e
}

// The number in units of the place.
fn units_at(number: Dec, e: i8) -> i128
    requires least { negsuc 18 ≤ℤ e }
    requires most { e ≤ℤ pos 8 }
    ensures { result ≡ at_place (value_of number) e }
{
    let coefficient = number.coefficient();
    let after = digits_after(number.places(), e);
    if after <= 0 {
        return product(coefficient, power_of_ten(after.unsigned_abs()));
    }
    // a number of 18 digits is then less than half a unit
    if after > 18 {
        return 0;
    }
    nearest(coefficient, power_of_ten(after.unsigned_abs()))
}

/// The estimate in units of 10^`e`, to the nearest and at a tie upward, where both ends of its span give the same;
/// `None` where they differ.
pub fn estimate_at(y: &Span, e: i8) -> Option<i128>
    requires least { negsuc 18 ≤ℤ e }
    requires most { e ≤ℤ pos 8 }
    ensures exact { result ≡ settled_estimate y.now e }
    ensures holds { (x : ℚ) → Encloses y.now x → IfSome result (λ c. at_place x e ≡ c) }
{
    let low = units_at(y.lo(), e);
    let high = units_at(y.hi(), e);
    if low != high {
        return None;
    }
    Some(low)
}
