ghost use Rattle.std.specs.Prelude.{◌≡◌, ◌<◌, ◌^◌, unsigned_abs};
ghost use Rattle.decimal18.specs.Digits.{signed, differ};

/// Whether the number is below 0.
pub fn is_negative(number: i64) -> bool
    ensures { number ≡ signed result (unsigned_abs number) }
{
    number < 0
}

/// The number of this size, with the sign `-` where it is to be negative.
pub fn with_sign(negative: bool, size: u64) -> i64
    requires { size < 2 ^ 63 }
    ensures { result ≡ signed negative size }
{
    if negative {
        -(size as i64)
    } else {
        size as i64
    }
}

/// Whether the signs are not the same.
pub fn differ(a: bool, b: bool) -> bool
    ensures { result ≡ differ a b }
{
    a != b
}
