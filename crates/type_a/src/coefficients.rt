ghost use Rattle.std.specs.Prelude.{◌≡◌, ◌≤◌, ◌<◌, ◌*◌, ◌+◌, ◌-◌, ◌^◌, ◌*ℤ◌, pos, unsigned_abs, false, nat_le};
ghost use Rattle.type_a.specs.Tables.{coefficient_at, is_wide};

use decimal18::Dec;

// 10 to a power that has at most 18 digits.
fn power_of_ten(exponent: u8) -> u64
    requires { exponent < 18 }
    ensures value { result ≡ 10 ^ exponent }
    ensures size { result < 10 ^ 18 }
{
    10_u64.pow(exponent as u32)
}

// The same as a number with a sign.
fn signed_power_of_ten(exponent: u8) -> i64
    requires { exponent < 18 }
    ensures { result ≡ pos (10 ^ exponent) }
{
    power_of_ten(exponent) as i64
}

// Whether a size is 10^(9 + places) or more.
fn is_great(size: u64, places: u8) -> bool
    requires digits { size < 10 ^ 18 }
    requires places { places ≤ 36 }
    ensures { result ≡ nat_le (10 ^ (9 + places)) size }
{
    if places > 8 {
        return false;
    }
    size >= power_of_ten(9 + places)
}

// Whether a size times a power of ten is 10^15 or more.
fn is_past_limit(size: u64, exponent: u8) -> bool
    ensures { result ≡ nat_le (10 ^ 15) (size * 10 ^ exponent) }
{
    if exponent > 15 {
        return size > 0;
    }
    size >= power_of_ten(15 - exponent)
}

/// Whether the reading is too wide: of a magnitude of 10^9 or more, or of 10^15 or more units of the place.
pub fn is_wide(d: Dec, places: u8) -> bool
    ensures { result ≡ is_wide places d }
{
    let size = d.coefficient().unsigned_abs();
    if is_great(size, d.places()) {
        return true;
    }
    is_past_limit(size, places.saturating_sub(d.places()))
}

// The product of two numbers, which is below 10^15 in magnitude.
fn product(a: i64, b: i64) -> i64
    requires { unsigned_abs (a *ℤ b) < 10 ^ 15 }
    ensures { result ≡ a *ℤ b }
{
    a * b
}

/// The reading in units of the place.
pub fn coefficient_at(d: Dec, places: u8) -> i64
    requires { is_wide places d ≡ false }
    ensures value { result ≡ coefficient_at places d }
    ensures size { unsigned_abs result < 10 ^ 15 }
{
    let exponent = places.saturating_sub(d.places());
    // a reading that is not too wide and stands more than 15 places above the finest is 0
    if exponent > 15 {
        return 0;
    }
    product(d.coefficient(), signed_power_of_ten(exponent))
}
