ghost use Rattle.std.specs.Prelude.{◌≡◌, ◌+◌, ◌≤◌, ◌≤ℤ◌, false, true, Some, IfOk, Ok, pos};
ghost use Rattle.std.specs.Option.{ok_or};
ghost use Rattle.decimal18.specs.Bound.{scaled};
ghost use Rattle.fixed_interval.specs.Interval.{Encloses};
ghost use Rattle.type_b.specs.Shapes.{checked, is_zero};
ghost use Rattle.type_b.specs.Variances.{deviation_of, deviation_span, divided, square_of, states_deviation, steps_of_deviation, steps_of_variance, variance_of, variance_span};

use crate::normal::normal_factor;
use crate::shape::Shape;
use decimal18::Dec;
use fixed_interval::{Overflow, Span, Steps, add, div, mul, point, sqr};
use std::sync::ledger::Ledger;

// The span of the quotients of the numbers in `a` by one number.
fn divided<L: Ledger>(a: &Span, by: Dec, steps: &mut Steps<L>) -> Result<Span, Overflow>
    requires { is_zero by ≡ false }
    ensures span { result ≡ ok_or (divided (Some a.now) by) (record {}) }
    ensures ticks { steps.new ≡ steps.old + 2 }
{
    let divisor = point(by, steps);
    div(a, &divisor, steps).map_err(|_| Overflow)
}

// The span of a half-width's square over a whole number.
fn square_over<L: Ledger>(half: Dec, divisor: i32, steps: &mut Steps<L>) -> Result<Span, Overflow>
    requires { pos 1 ≤ℤ divisor }
    ensures span { result ≡ ok_or (divided (square_of half) (scaled divisor 0)) (record {}) }
    ensures ticks { IfOk result (λ _. steps.new ≡ steps.old + 4) }
    ensures most_ticks { steps.new ≤ steps.old + 4 }
{
    let half = point(half, steps);
    let square = sqr(&half, steps)?;
    divided(&square, Dec::whole(divisor), steps)
}

// The span of the variance of a trapezoidal distribution.
fn trapezoid<L: Ledger>(half: Dec, beta: Dec, steps: &mut Steps<L>) -> Result<Span, Overflow>
    ensures span { result ≡ ok_or (variance_span (Shape.Trap half beta)) (record {}) }
    ensures ticks { IfOk result (λ _. steps.new ≡ steps.old + 9) }
    ensures most_ticks { steps.new ≤ steps.old + 9 }
{
    let half = point(half, steps);
    let square = sqr(&half, steps)?;
    let one = point(Dec::whole(1), steps);
    let beta = point(beta, steps);
    let square_of_beta = sqr(&beta, steps)?;
    let factor = add(&one, &square_of_beta, steps)?;
    let product = mul(&square, &factor, steps)?;
    divided(&product, Dec::whole(6), steps)
}

/// Whether the shape states the standard deviation, by a number or by the quotient of two.
pub fn states_deviation(shape: &Shape) -> bool
    ensures { result ≡ states_deviation shape.now }
{
    matches!(
        shape,
        Shape::Std { .. } | Shape::Exp { .. } | Shape::Norm { .. }
    )
}

/// The span of the standard deviation that is stated, in the unit of the estimate: `u`, the expanded
/// uncertainty over its coverage factor, or the half-width over the normal distribution's factor (JCGM
/// 100:2008, 4.3.3, 4.3.4).
///
/// # Errors
///
/// [`Overflow`] exactly where the quotient is out of the range of bounds.
#[tactic(auto, using(crate::proofs::Enclosed::deviation_encloses))]
pub fn deviation<L: Ledger>(shape: &Shape, steps: &mut Steps<L>) -> Result<Span, Overflow>
    requires checked { checked shape.now ≡ Ok (record {}) }
    requires stated { states_deviation shape.now ≡ true }
    ensures span { result ≡ ok_or (deviation_span shape.now) (record {}) }
    ensures encloses { IfOk result (λ s. Encloses s (deviation_of shape.now)) }
    ensures ticks { steps.new ≡ steps.old + steps_of_deviation shape.now }
{
    match shape {
        Shape::Std { u } => Ok(point(*u, steps)),
        Shape::Exp { expanded, k } => {
            let expanded = point(*expanded, steps);
            divided(&expanded, *k, steps)
        }
        Shape::Norm { half, level } => {
            let half = point(*half, steps);
            divided(&half, normal_factor(*level), steps)
        }
        _ => unreachable!(),
    }
}

/// The span of the variance, in the square of the estimate's unit (JCGM 100:2008, 4.3): the point 0
/// without uncertainty, the square of the standard deviation where that is stated, and for a half-width
/// `a` the number `a²/3` of a rectangular, `a²/6` of a triangular, `a²(1 + beta²)/6` of a trapezoidal
/// and `a²/2` of a U-shaped distribution.
///
/// # Errors
///
/// [`Overflow`] exactly where an operation on the way leaves the range of bounds.
#[tactic(auto, using(crate::proofs::Enclosed::variance_encloses))]
pub fn variance<L: Ledger>(shape: &Shape, steps: &mut Steps<L>) -> Result<Span, Overflow>
    requires checked { checked shape.now ≡ Ok (record {}) }
    ensures span { result ≡ ok_or (variance_span shape.now) (record {}) }
    ensures encloses { IfOk result (λ s. Encloses s (variance_of shape.now)) }
    ensures ticks { IfOk result (λ _. steps.new ≡ steps.old + steps_of_variance shape.now) }
    ensures most_ticks { steps.new ≤ steps.old + steps_of_variance shape.now }
{
    match shape {
        Shape::Exact => Ok(point(Dec::whole(0), steps)),
        Shape::Std { .. } | Shape::Exp { .. } | Shape::Norm { .. } => {
            let deviation = deviation(shape, steps)?;
            sqr(&deviation, steps)
        }
        Shape::Rect { half } => square_over(*half, 3, steps),
        Shape::Tri { half } => square_over(*half, 6, steps),
        Shape::Trap { half, beta } => trapezoid(*half, *beta, steps),
        Shape::Arcsine { half } => square_over(*half, 2, steps),
    }
}
