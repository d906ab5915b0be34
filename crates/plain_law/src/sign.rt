ghost use Rattle.std.specs.Prelude.{◌≡◌, IfSome, ◌+ℤ◌, unsigned_abs};
ghost use Rattle.plain_law.specs.Numbers.{signed, differ};

/// A size with its sign.
#[derive(Clone, Copy, Debug)]
pub struct Signed {
    pub negative: bool,
    pub size: u128,
}

/// Whether the signs are not the same.
pub fn differ(a: bool, b: bool) -> bool
    ensures { result ≡ differ a b }
{
    a != b
}

/// Whether the number is below 0.
pub fn is_negative(number: i64) -> bool
    ensures { number ≡ signed result (unsigned_abs number) }
{
    number < 0
}

/// The sum, and `None` where 128 bits do not hold its size.
pub fn signed_sum(a: Signed, b: Signed) -> Option<Signed>
    ensures { IfSome result (λ r. signed r.negative r.size ≡ signed a.negative a.size +ℤ signed b.negative b.size) }
{
    if a.negative == b.negative {
        let size = a.size.checked_add(b.size)?;
        Some(Signed {
            negative: a.negative,
            size,
        })
    } else if a.size >= b.size {
        Some(Signed {
            negative: a.negative,
            size: a.size - b.size,
        })
    } else {
        Some(Signed {
            negative: b.negative,
            size: b.size - a.size,
        })
    }
}
