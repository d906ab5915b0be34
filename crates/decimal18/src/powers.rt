ghost use Rattle.std.specs.Prelude.{◌≡◌, ◌+◌, ◌-◌, ◌<◌, ◌≤◌, ◌^◌};

// The powers of ten that 64 bits hold.
static POWERS: [u64; 20] = [
    1,
    10,
    100,
    1_000,
    10_000,
    100_000,
    1_000_000,
    10_000_000,
    100_000_000,
    1_000_000_000,
    10_000_000_000,
    100_000_000_000,
    1_000_000_000_000,
    10_000_000_000_000,
    100_000_000_000_000,
    1_000_000_000_000_000,
    10_000_000_000_000_000,
    100_000_000_000_000_000,
    1_000_000_000_000_000_000,
    10_000_000_000_000_000_000,
];

// Those from there on that 128 bits hold.
static WIDE_POWERS: [u128; 19] = [
    100_000_000_000_000_000_000,
    1_000_000_000_000_000_000_000,
    10_000_000_000_000_000_000_000,
    100_000_000_000_000_000_000_000,
    1_000_000_000_000_000_000_000_000,
    10_000_000_000_000_000_000_000_000,
    100_000_000_000_000_000_000_000_000,
    1_000_000_000_000_000_000_000_000_000,
    10_000_000_000_000_000_000_000_000_000,
    100_000_000_000_000_000_000_000_000_000,
    1_000_000_000_000_000_000_000_000_000_000,
    10_000_000_000_000_000_000_000_000_000_000,
    100_000_000_000_000_000_000_000_000_000_000,
    1_000_000_000_000_000_000_000_000_000_000_000,
    10_000_000_000_000_000_000_000_000_000_000_000,
    100_000_000_000_000_000_000_000_000_000_000_000,
    1_000_000_000_000_000_000_000_000_000_000_000_000,
    10_000_000_000_000_000_000_000_000_000_000_000_000,
    100_000_000_000_000_000_000_000_000_000_000_000_000,
];

/// The power of ten with this exponent, in 64 bits.
#[inline(always)]
pub fn short_power_of_ten(exponent: u32) -> u64
    requires { exponent < 20 }
    ensures value { result ≡ 10 ^ exponent }
    ensures positive { 0 < result }
{
    POWERS[exponent as usize]
}

/// The power of ten with this exponent.
#[inline]
pub fn power_of_ten(exponent: u32) -> u128
    requires { exponent < 39 }
    ensures value { result ≡ 10 ^ exponent }
    ensures positive { 0 < result }
{
    if exponent < 20 {
        short_power_of_ten(exponent) as u128
    } else {
        WIDE_POWERS[exponent as usize - 20]
    }
}

/// How many digits the number has; 0 has none.
#[inline]
pub fn count_digits(number: u128) -> u32
    ensures below { number < 10 ^ result }
    ensures reached { 0 < result → 10 ^ (result - 1) ≤ number }
    ensures most { result ≤ 39 }
{
    match number.checked_ilog10() {
        Some(place) => place + 1,
        None => 0,
    }
}
