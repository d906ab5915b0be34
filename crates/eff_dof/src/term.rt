ghost use Rattle.std.specs.Prelude.{◌≡◌, ◌+◌, ◌≤◌, Some, pos};
ghost use Rattle.std.specs.Option.{ok_or};
ghost use Rattle.exact_fraction.specs.Number.{of_ℤ, ◌≤ℚ◌};
ghost use Rattle.decimal18.specs.Bound.{scaled, value_of};
ghost use Rattle.fixed_interval.specs.Interval.{point_span};
ghost use Rattle.fixed_interval.specs.Rules.{quotient_span};
ghost use Rattle.type_b.specs.Shapes.{IsDegrees};
ghost use Rattle.eff_dof.specs.Parts.{IsPartOf};
ghost use Rattle.eff_dof.specs.Degrees.{inverse_of_percent, over_degrees, term};

use crate::least::square;
use crate::part::Part;
use decimal18::Dec;
use fixed_interval::{Overflow, Span, Steps, div, mul, point, share, sqr, zero};
use std::sync::ledger::Ledger;
use type_b::Dof;

// 1/ν of an uncertainty that is itself uncertain by so many percent.
fn inverse_of_percent(percent: u8) -> Dec
    ensures { result ≡ inverse_of_percent percent }
{
    Dec::new(2 * square(percent) as i64, 4).unwrap()
}

// The span of the quotients by a whole number.
fn over_whole<L: Ledger>(a: &Span, number: u32, steps: &mut Steps<L>) -> Result<Span, Overflow>
    requires least { 1 ≤ number }
    requires most { number ≤ 1000000 }
    ensures span { result ≡ ok_or (quotient_span a.now (point_span (scaled (pos number) 0))) (record {}) }
    ensures ticks { steps.new ≡ steps.old + 2 }
{
    let divisor = point(Dec::whole(number as i32), steps);
    div(a, &divisor, steps).map_err(|_| Overflow)
}

// The span of the quotients by ν.
fn over_degrees<L: Ledger>(a: &Span, dof: Dof, steps: &mut Steps<L>) -> Result<Span, Overflow>
    requires { IsDegrees dof }
    ensures span { result ≡ ok_or (over_degrees dof a.now) (record {}) }
    ensures ticks { steps.new ≤ steps.old + 2 }
{
    match dof {
        Dof::Inf => Ok(zero()),
        Dof::Whole(number) => over_whole(a, number, steps),
        Dof::Rel(percent) => {
            let inverse = point(inverse_of_percent(percent), steps);
            mul(a, &inverse, steps)
        }
    }
}

// The square of a part's share in the variance, over its degrees of freedom.
pub(crate) fn term<L: Ledger>(
    part: &Part,
    whole: &Span,
    steps: &mut Steps<L>,
) -> Result<Span, Overflow>
    requires part { IsPartOf whole.now part.now }
    requires positive { ¬ (value_of whole.now.hi ≤ℚ of_ℤ (pos 0)) }
    ensures span { result ≡ ok_or (term whole.now part.now) (record {}) }
    ensures ticks { steps.new ≤ steps.old + 4 }
{
    let share = share(&part.variance, whole, steps);
    let square = sqr(&share, steps)?;
    over_degrees(&square, part.dof, steps)
}
