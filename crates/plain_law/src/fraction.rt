ghost use Rattle.std.specs.Prelude.{◌≡◌, ◌≢◌, ◌<◌, ◌↔◌, IsNone, IfSome, IsTrue, false, true, ℤ, pos};

use crate::divisor::gcd;
use crate::sign::{Signed, differ, is_negative, signed_sum};

/// An exact number: a fraction of two numbers of 128 bits, with a sign.
///
/// The calls answer in lowest terms, and the contracts say nothing of that.
#[derive(Clone, Copy, Debug)]
pub struct Exact {
    negative: bool,
    numerator: u128,
    denominator: u128,
    ghost positive: { 0 < denominator },
}

impl Exact {
    ghost use Rattle.exact_fraction.specs.Number.{of_ℤ, ◌+ℚ◌, ◌*ℚ◌, ◌/ℚ◌, neg_ℚ, inv_ℚ, is_zero_ℚ, is_at_most_ℚ, floor_ℚ, ◌-ℚ◌};
    ghost use Rattle.exact_fraction.specs.Powers.{power, whole_power};
    ghost use Rattle.exact_law.specs.Model.{has_power};
    ghost use Rattle.plain_law.specs.Numbers.{number, signed};

    /// The whole number.
    pub fn whole(value: i64) -> Exact
        ensures { number result ≡ of_ℤ value }
    {
        Exact {
            negative: is_negative(value),
            numerator: value.unsigned_abs() as u128,
            denominator: 1,
        }
    }

    /// The quotient of the two numbers, and `None` exactly where the divisor is 0.
    pub fn ratio(numerator: i64, denominator: u64) -> Option<Exact>
        ensures undefined { IsNone result ↔ (denominator ≡ 0) }
        ensures quotient { IfSome result (λ r. number r ≡ of_ℤ numerator /ℚ of_ℤ (pos denominator)) }
    {
        if denominator == 0 {
            return None;
        }
        let size = numerator.unsigned_abs() as u128;
        Some(Exact::reduced(is_negative(numerator), size, denominator as u128))
    }

    // The fraction in lowest terms.
    fn reduced(negative: bool, numerator: u128, denominator: u128) -> Exact
        requires { 0 < denominator }
        ensures { number result ≡ of_ℤ (signed negative numerator) /ℚ of_ℤ (pos denominator) }
    {
        let divisor = gcd(numerator, denominator);
        Exact {
            negative,
            numerator: numerator / divisor,
            denominator: denominator / divisor,
        }
    }

    /// Whether the number is 0.
    pub fn is_zero(self) -> bool
        ensures { result ≡ is_zero_ℚ (number self) }
    {
        self.numerator == 0
    }

    /// Whether the number is at least 0.
    pub fn is_not_negative(self) -> bool
        ensures { result ≡ is_at_most_ℚ (of_ℤ (pos 0)) (number self) }
    {
        if self.negative {
            return self.numerator == 0;
        }
        true
    }

    /// The number with the other sign.
    pub fn negated(self) -> Exact
        ensures { number result ≡ neg_ℚ (number self) }
    {
        Exact {
            negative: !self.negative,
            numerator: self.numerator,
            denominator: self.denominator,
        }
    }

    /// The sum; `None` only where 128 bits do not hold a number on the way.
    pub fn plus(self, other: Exact) -> Option<Exact>
        ensures { IfSome result (λ r. number r ≡ number self +ℚ number other) }
    {
        let divisor = gcd(self.denominator, other.denominator);
        let left = self.denominator / divisor;
        let right = other.denominator / divisor;
        let sum = signed_sum(
            Signed {
                negative: self.negative,
                size: self.numerator.checked_mul(right)?,
            },
            Signed {
                negative: other.negative,
                size: other.numerator.checked_mul(left)?,
            },
        )?;
        let denominator = self.denominator.checked_mul(right)?;
        Some(Exact::reduced(sum.negative, sum.size, denominator))
    }

    /// The difference; `None` only where 128 bits do not hold a number on the way.
    pub fn minus(self, other: Exact) -> Option<Exact>
        ensures { IfSome result (λ r. number r ≡ number self -ℚ number other) }
    {
        self.plus(other.negated())
    }

    /// The product; `None` only where 128 bits do not hold a number on the way.
    pub fn times(self, other: Exact) -> Option<Exact>
        ensures { IfSome result (λ r. number r ≡ number self *ℚ number other) }
    {
        let left = Exact::reduced(self.negative, self.numerator, other.denominator);
        let right = Exact::reduced(other.negative, other.numerator, self.denominator);
        let numerator = left.numerator.checked_mul(right.numerator)?;
        let denominator = left.denominator.checked_mul(right.denominator)?;
        Some(Exact {
            negative: differ(left.negative, right.negative),
            numerator,
            denominator,
        })
    }

    /// 1 divided by the number, and `None` exactly where the number is 0.
    pub fn inverse(self) -> Option<Exact>
        ensures undefined { IsNone result ↔ (is_zero_ℚ (number self) ≡ true) }
        ensures inverse { IfSome result (λ r. number r ≡ inv_ℚ (number self)) }
        ensures not_zero { IfSome result (λ r. is_zero_ℚ (number self) ≡ false) }
    {
        if self.numerator == 0 {
            return None;
        }
        Some(Exact {
            negative: self.negative,
            numerator: self.denominator,
            denominator: self.numerator,
        })
    }

    /// The quotient; `None` only where the divisor is 0 or 128 bits do not hold a number on the way.
    pub fn over(self, other: Exact) -> Option<Exact>
        ensures quotient { IfSome result (λ r. number r ≡ number self /ℚ number other) }
        ensures divisor { IfSome result (λ r. is_zero_ℚ (number other) ≡ false) }
    {
        self.times(other.inverse()?)
    }

    // The number times itself, so many factors.
    pub(crate) fn product_of(self, factors: u8) -> Option<Exact>
        ensures { IfSome result (λ r. number r ≡ power (number self) factors) }
    {
        let mut product = Exact::whole(1);
        for _ in 0..factors {
            product = product.times(self)?;
        }
        Some(product)
    }

    /// The whole power; `None` only where 128 bits do not hold a number on the way, or the number is 0
    /// and the exponent is negative.
    pub fn power(self, exponent: i8) -> Option<Exact>
        ensures power { IfSome result (λ r. number r ≡ whole_power (number self) exponent) }
        ensures defined { IfSome result (λ r. has_power (number self) exponent ≡ true) }
    {
        let product = self.product_of(exponent.unsigned_abs())?;
        if exponent >= 0 {
            return Some(product);
        }
        product.inverse()
    }

    /// The greatest whole number not above.
    pub fn floor(self) -> Exact
        ensures { number result ≡ of_ℤ (floor_ℚ (number self)) }
    {
        if self.negative && self.numerator > 0 {
            return Exact::of_size(true, (self.numerator - 1) / self.denominator + 1);
        }
        Exact::of_size(false, self.numerator / self.denominator)
    }

    /// The number of things that are so many.
    pub(crate) fn count(size: usize) -> Exact
        ensures { number result ≡ of_ℤ (pos size) }
    {
        Exact::of_size(false, size as u128)
    }

    // The whole number of this size.
    fn of_size(negative: bool, size: u128) -> Exact
        ensures { number result ≡ of_ℤ (signed negative size) }
    {
        Exact {
            negative,
            numerator: size,
            denominator: 1,
        }
    }

    /// Whether the number is at most the other; `None` only where 128 bits do not hold their difference.
    pub fn at_most(self, other: Exact) -> Option<bool>
        ensures { IfSome result (λ r. r ≡ is_at_most_ℚ (number self) (number other)) }
    {
        Some(other.minus(self)?.is_not_negative())
    }
}
