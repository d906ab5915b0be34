ghost use Rattle.std.specs.Prelude.{◌≡◌, ◌≤◌, ◌+◌, IfOk, pos};
ghost use Rattle.std.specs.Option.{ok_or};
ghost use Rattle.exact_fraction.specs.Number.{ℚ, of_ℤ, ◌*ℚ◌, ◌≤ℚ◌};
ghost use Rattle.exact_law.specs.Rounding.{IsHundredths};
ghost use Rattle.decimal18.specs.Bound.{value_of};
ghost use Rattle.fixed_interval.specs.Interval.{Encloses};
ghost use Rattle.round_out.specs.Correlations.{ArePositive, IsSaid, IsSaidOf, IsTrueOf, coefficient_square};
ghost use Rattle.round_out.specs.Searches.{correlation_of};
ghost use Rattle.round_out.specs.WithinOne.{IsWithinOne};

use decimal18::Dec;
use fixed_interval::{Overflow, Span, Steps, cut, div, mul};
use std::sync::ledger::Ledger;

/// What spans of a covariance and of two variances tell of the correlation coefficient (JCGM 100:2008, 5.2.2).
#[derive(Clone, Copy, Debug, PartialEq, Eq)]
pub enum CorrSaid {
    /// There is none: one of the variances is 0.
    None,
    /// The spans settle no hundredths.
    Unsettled,
    /// It has these hundredths, from -100 to 100.
    Hundredths(i8),
}

// The square of the coefficient, brought into [0, 1].
fn square_of<L: Ledger>(
    c: &Span,
    v: &Span,
    w: &Span,
    steps: &mut Steps<L>,
) -> Result<Span, Overflow>
    requires positive { ArePositive v.now w.now }
    ensures span { result ≡ ok_or (coefficient_square c.now v.now w.now) (record {}) }
    ensures within { IfOk result IsWithinOne }
    ensures ticks { steps.new ≤ steps.old + 4 }
{
    let Ok(first) = div(c, v, steps) else {
        return Err(Overflow);
    };
    let Ok(second) = div(c, w, steps) else {
        return Err(Overflow);
    };
    let Ok(product) = mul(&first, &second, steps) else {
        return Err(Overflow);
    };
    Ok(cut(&product, Dec::whole(0), Dec::whole(1), steps))
}

// The hundredths of the root of a number from 0 to 1.
fn hundredths_of(square: Dec) -> u8
    requires not_negative { of_ℤ (pos 0) ≤ℚ value_of square }
    requires at_most_one { value_of square ≤ℚ of_ℤ (pos 1) }
    ensures root { IsHundredths (value_of square) result }
    ensures most { result ≤ 100 }
{
    // with so many places 18 digits are less than half a hundredth
    if square.places() > 22 {
        return 0;
    }
    let size = square.coefficient().unsigned_abs() as u128 * 40_000;
    let unit = 10_u128.pow(square.places() as u32);
    for m in 0..100_u8 {
        let end = 2 * m as u128 + 1;
        if size < end * end * unit {
            return m;
        }
    }
    100
}

// The hundredths that the ends of the square have in common, with the sign of the covariance.
fn said(c: &Span, square: &Span) -> CorrSaid
    requires { IsWithinOne square.now }
    ensures { IsSaidOf c.now square.now result }
{
    let size = hundredths_of(square.lo());
    if size != hundredths_of(square.hi()) {
        return CorrSaid::Unsettled;
    }
    if size == 0 || c.lo().coefficient() >= 0 {
        return CorrSaid::Hundredths(size as i8);
    }
    if c.hi().coefficient() <= 0 {
        return CorrSaid::Hundredths(-(size as i8));
    }
    CorrSaid::Unsettled
}

/// The correlation coefficient of two quantities with this covariance and these variances, in hundredths, where the
/// spans settle them. It ticks at most four times.
///
/// # Errors
///
/// [`Overflow`] exactly where no variance may be 0 and a quotient of the covariance by a variance, or the product of the
/// two quotients, is out of the range of bounds.
pub fn correlation<L: Ledger>(
    c: &Span,
    vy: &Span,
    vz: &Span,
    steps: &mut Steps<L>,
) -> Result<CorrSaid, Overflow>
    requires first { of_ℤ (pos 0) ≤ℚ value_of vy.now.lo }
    requires second { of_ℤ (pos 0) ≤ℚ value_of vz.now.lo }
    ensures said { result ≡ correlation_of c.now vy.now vz.now }
    ensures exact { IsSaid c.now vy.now vz.now result }
    ensures holds { IfOk result (λ said. (x v w : ℚ) → Encloses c.now x → Encloses vy.now v → Encloses vz.now w → x *ℚ x ≤ℚ v *ℚ w → IsTrueOf said x v w) }
    ensures ticks { steps.new ≤ steps.old + 4 }
{
    if vy.hi().coefficient() <= 0 || vz.hi().coefficient() <= 0 {
        return Ok(CorrSaid::None);
    }
    if vy.lo().coefficient() <= 0 || vz.lo().coefficient() <= 0 {
        return Ok(CorrSaid::Unsettled);
    }
    let Ok(square) = square_of(c, vy, vz, steps) else {
        return Err(Overflow);
    };
    Ok(said(c, &square))
}
