ghost use Rattle.std.specs.Prelude.{◌≡◌, IfSome, pos};
ghost use Rattle.exact_fraction.specs.Number.{ℚ, of_ℤ, ◌≤ℚ◌};
ghost use Rattle.exact_law.specs.Rounding.{AreDigitsOf};
ghost use Rattle.decimal18.specs.Bound.{value_of};
ghost use Rattle.fixed_interval.specs.Interval.{Encloses};
ghost use Rattle.round_out.specs.Searches.{digits_of_span};
ghost use Rattle.round_out.specs.Settled.{AreSettledDigits, IsPlaced, stated_digits};

use crate::scale::digits_of;
use fixed_interval::Span;

/// What a span of variances tells of the standard uncertainty, the root of the variance.
#[derive(Clone, Copy, Debug, PartialEq, Eq)]
pub enum Rounded {
    /// It is 0.
    Zero,
    /// It has these two significant digits.
    Digits {
        /// The digits, as a number from 10 to 99.
        m: u8,
        /// The exponent of the power of ten that is their unit, from -19 to 8.
        e: i8,
    },
    /// The ends of the span have no digits in common.
    Unsettled,
}

/// The two significant digits of the root of a variance (JCGM 100:2008, 7.2.6), where both ends of its span have the
/// same.
pub fn two_digits(v: &Span) -> Rounded
    requires not_negative { of_ℤ (pos 0) ≤ℚ value_of v.now.lo }
    ensures said { result ≡ digits_of_span v.now }
    ensures exact { AreSettledDigits v.now (stated_digits result) }
    ensures holds { (x : ℚ) → Encloses v.now x → IfSome (stated_digits result) (AreDigitsOf x) }
    ensures place { IsPlaced result }
{
    if v.hi().coefficient() <= 0 {
        return Rounded::Zero;
    }
    if v.lo().coefficient() <= 0 {
        return Rounded::Unsettled;
    }
    let low = digits_of(v.lo());
    let high = digits_of(v.hi());
    if low.m != high.m || low.e != high.e {
        return Rounded::Unsettled;
    }
    Rounded::Digits { m: low.m, e: low.e }
}
