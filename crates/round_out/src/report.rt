ghost use Rattle.std.specs.Prelude.{◌≡◌, ◌≤◌, ◌+◌, Some, IfOk, pos, negsuc, ◌≤ℤ◌};
ghost use Rattle.std.specs.Option.{ok_or};
ghost use Rattle.exact_fraction.specs.Number.{ℚ, of_ℤ, ◌*ℚ◌, ◌≤ℚ◌};
ghost use Rattle.decimal18.specs.Bound.{value_of};
ghost use Rattle.fixed_interval.specs.Interval.{Encloses};
ghost use Rattle.fixed_interval.specs.Rules.{product_span, square_span};
ghost use Rattle.fixed_interval.specs.Sums.{both};
ghost use Rattle.round_out.specs.Settled.{settled_estimate};
ghost use Rattle.round_out.specs.Reports.{IsReportOf, IsReportPlaced, expanded_of, in_units, is_point, reported_of, with_digits};
ghost use Rattle.round_out.specs.declared.digits.Rounded.TheVariants.{Zero};

use crate::digits::{Rounded, two_digits};
use crate::estimate::estimate_at;
use crate::outcome::Reported;
use fixed_interval::{Overflow, Span, Steps, is_at_most, mul, sqr};
use std::sync::ledger::Ledger;

// Whether a span is that of one number.
fn is_point(s: &Span) -> bool
    ensures { result ≡ is_point s.now }
{
    is_at_most(s.hi(), s.lo())
}

// The estimate, where its uncertainty is 0.
fn exactly(y: &Span) -> Reported
    ensures { result ≡ with_digits y.now Zero }
{
    if is_point(y) {
        return Reported::Exact(y.lo());
    }
    Reported::Unsettled
}

// The estimate at the place of the two digits of its uncertainty.
fn at_digits(y: &Span, m: u8, e: i8) -> Reported
    requires least { negsuc 18 ≤ℤ e }
    requires most { e ≤ℤ pos 8 }
    ensures { result ≡ in_units (settled_estimate y.now e) m e }
{
    match estimate_at(y, e) {
        Some(estimate) => Reported::Rounded { estimate, m, e },
        None => Reported::Unsettled,
    }
}

/// The estimate with its standard uncertainty, the root of the variance, rounded to the place of the uncertainty's second
/// digit (JCGM 100:2008, 7.2.6), where the spans settle both.
pub fn reported(y: &Span, v: &Span) -> Reported
    requires not_negative { of_ℤ (pos 0) ≤ℚ value_of v.now.lo }
    ensures exact { result ≡ reported_of y.now v.now }
    ensures holds { (x q : ℚ) → Encloses y.now x → Encloses v.now q → IsReportOf x q result }
    ensures place { IsReportPlaced result }
{
    match two_digits(v) {
        Rounded::Zero => exactly(y),
        Rounded::Digits { m, e } => at_digits(y, m, e),
        Rounded::Unsettled => Reported::Unsettled,
    }
}

// The variance of `k` times a quantity that has this variance.
fn scaled_variance<L: Ledger>(v: &Span, k: &Span, steps: &mut Steps<L>) -> Result<Span, Overflow>
    requires not_negative { of_ℤ (pos 0) ≤ℚ value_of v.now.lo }
    ensures span { result ≡ ok_or (both (square_span k.now) (Some v.now) product_span) (record {}) }
    ensures encloses { (q f : ℚ) → Encloses v.now q → Encloses k.now f → IfOk result (λ s. Encloses s (f *ℚ f *ℚ q)) }
    ensures not_negative { IfOk result (λ s. of_ℤ (pos 0) ≤ℚ value_of s.lo) }
    ensures ticks { steps.new ≤ steps.old + 2 }
{
    let Ok(square) = sqr(k, steps) else {
        return Err(Overflow);
    };
    // the ends of both spans are in order, as either end tells
    let _in_order = (square.lo(), v.lo());
    mul(&square, v, steps)
}

/// The estimate with its expanded uncertainty (JCGM 100:2008, 6.2.1), `k` times the root of the variance, rounded to the
/// place of the uncertainty's second digit (7.2.6), where the spans settle both and that of `k` is a point. It ticks at
/// most twice.
///
/// # Errors
///
/// [`Overflow`] exactly where the span of `k` is a point, and the square of `k` or its product with the variance is out of
/// the range of bounds.
pub fn expanded<L: Ledger>(
    y: &Span,
    v: &Span,
    k: &Span,
    steps: &mut Steps<L>,
) -> Result<Reported, Overflow>
    requires not_negative { of_ℤ (pos 0) ≤ℚ value_of v.now.lo }
    ensures exact { result ≡ expanded_of y.now v.now k.now }
    ensures holds { (x q f : ℚ) → Encloses y.now x → Encloses v.now q → Encloses k.now f → IfOk result (IsReportOf x (f *ℚ f *ℚ q)) }
    ensures place { IfOk result IsReportPlaced }
    ensures ticks { steps.new ≤ steps.old + 2 }
{
    if !is_point(k) {
        return Ok(Reported::Unsettled);
    }
    let Ok(variance) = scaled_variance(v, k, steps) else {
        return Err(Overflow);
    };
    Ok(reported(y, &variance))
}
