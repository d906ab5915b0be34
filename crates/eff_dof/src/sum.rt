ghost use Rattle.std.specs.Prelude.{◌≡◌, ◌+◌, ◌*◌, ◌≤◌, length, pos};
ghost use Rattle.std.specs.Option.{ok_or};
ghost use Rattle.exact_fraction.specs.Number.{of_ℤ, ◌≤ℚ◌};
ghost use Rattle.decimal18.specs.Bound.{value_of};
ghost use Rattle.fixed_interval.specs.Sums.{Continues, term_if};
ghost use Rattle.eff_dof.specs.Parts.{AllParts, IsPartOf};
ghost use Rattle.eff_dof.specs.Degrees.{counts, inverse_span, term, variance_span};

use crate::part::{Part, counts};
use crate::term::term;
use fixed_interval::{Overflow, Span, Steps, with_term, zero};
use std::sync::ledger::Ledger;

// The sum of the parts' variances.
pub(crate) fn variance<L: Ledger>(parts: &[Part], steps: &mut Steps<L>) -> Result<Span, Overflow>
    ensures span { result ≡ ok_or (variance_span parts.now) (record {}) }
    ensures ticks { steps.new ≤ steps.old + length parts.now }
{
    let mut sum = None;
    for part in parts {
        sum = with_term(sum, &part.variance, steps)?;
    }
    Ok(sum.unwrap_or(zero()))
}

// The sum with a part's term more, where the part counts.
fn with_part<L: Ledger>(
    sum: Option<Span>,
    part: &Part,
    whole: &Span,
    steps: &mut Steps<L>,
) -> Result<Option<Span>, Overflow>
    requires part { IsPartOf whole.now part.now }
    requires positive { ¬ (value_of whole.now.hi ≤ℚ of_ℤ (pos 0)) }
    ensures sum { Continues sum (term_if (counts part.now) (term whole.now part.now)) result }
    ensures ticks { steps.new ≤ steps.old + 5 }
{
    if !counts(part) {
        return Ok(sum);
    }
    let term = term(part, whole, steps)?;
    with_term(sum, &term, steps)
}

// The span of 1/ν of the variance.
pub(crate) fn inverse<L: Ledger>(
    parts: &[Part],
    whole: &Span,
    steps: &mut Steps<L>,
) -> Result<Span, Overflow>
    requires parts { AllParts (IsPartOf whole.now) parts.now }
    requires positive { ¬ (value_of whole.now.hi ≤ℚ of_ℤ (pos 0)) }
    ensures span { result ≡ ok_or (inverse_span whole.now parts.now) (record {}) }
    ensures ticks { steps.new ≤ steps.old + 5 * length parts.now }
{
    let mut sum = None;
    for part in parts {
        sum = with_part(sum, part, whole, steps)?;
    }
    Ok(sum.unwrap_or(zero()))
}
