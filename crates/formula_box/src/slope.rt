//! The derivative of a part of a formula by a name, and the rule of each operation.

ghost use Rattle.std.specs.Prelude.{◌≡◌, ◌+◌, ◌≤◌, ◌||◌, false, true, cond, bytes_eq, Option, Some};
ghost use Rattle.fixed_interval.specs.Interval.{Interval, point_span, sum_span};
ghost use Rattle.fixed_interval.specs.Rules.{one_bound, difference_span, product_span, negative_span};
ghost use Rattle.fixed_interval.specs.Powers.{then_span, steps_of_power};
ghost use Rattle.formula_ast.specs.Trees.{IsExponent};
ghost use Rattle.formula_ast.specs.declared.token.Sign.TheVariants.{Plus, Minus, Times, Over};
ghost use Rattle.fixed_interval.specs.Sums.{zero_span, both};
ghost use Rattle.formula_box.specs.Slopes.{quotient_there, power_slope, where_used};
ghost use Rattle.formula_box.specs.Parts.{short_slope};

use crate::factor::{falling_factor, rising_factor};
use decimal18::Dec;
use fixed_interval::{Span, Steps, add, div, mul, neg, point, sub, zero};
use formula_ast::Name;
use std::sync::ledger::Ledger;

/// The derivative of a part of a formula by a name.
#[derive(Clone, Copy)]
pub(crate) struct Slope {
    /// Whether the name occurs in the part.
    pub used: bool,
    /// The span of the derivative, and `None` where an operation left the range.
    pub span: Option<Span>,
}

/// The value of a part of a formula and its derivative.
#[derive(Clone, Copy)]
pub(crate) struct Part {
    pub value: Span,
    pub slope: Slope,
}

impl Slope {
    /// The derivative of a part in which the name does not occur.
    pub fn absent() -> Slope
        ensures used { result.used ≡ false }
        ensures span { result.span ≡ Some zero_span }
    {
        Slope {
            used: false,
            span: Some(zero()),
        }
    }

    /// The derivative of a part in which the name occurs.
    pub fn found(span: Option<Span>) -> Slope
        ensures used { result.used ≡ true }
        ensures span { result.span ≡ span }
    {
        Slope { used: true, span }
    }
}

// ---- operations on spans that may be missing
fn sum_there<L: Ledger>(a: Option<Span>, b: Option<Span>, steps: &mut Steps<L>) -> Option<Span>
    ensures span { result ≡ both a b sum_span }
    ensures ticks { steps.new ≤ steps.old + 1 }
{
    add(&a?, &b?, steps).ok()
}

fn difference_there<L: Ledger>(
    a: Option<Span>,
    b: Option<Span>,
    steps: &mut Steps<L>,
) -> Option<Span>
    ensures span { result ≡ both a b difference_span }
    ensures ticks { steps.new ≤ steps.old + 1 }
{
    sub(&a?, &b?, steps).ok()
}

pub(crate) fn product_there<L: Ledger>(
    a: Option<Span>,
    b: Option<Span>,
    steps: &mut Steps<L>,
) -> Option<Span>
    ensures span { result ≡ both a b product_span }
    ensures ticks { steps.new ≤ steps.old + 1 }
{
    mul(&a?, &b?, steps).ok()
}

fn quotient_there<L: Ledger>(a: Option<Span>, b: Option<Span>, steps: &mut Steps<L>) -> Option<Span>
    ensures span { result ≡ both a b quotient_there }
    ensures ticks { steps.new ≤ steps.old + 1 }
{
    div(&a?, &b?, steps).ok()
}

// ---- the rules where the name is in the left operand alone
/// The derivative of `a * b` where the name does not occur in `b`, which has the value `b`.
pub(crate) fn slope_times<L: Ledger>(a: &Slope, b: Option<Span>, steps: &mut Steps<L>) -> Slope
    ensures used { result.used ≡ a.now.used }
    ensures span { result.span ≡ where_used a.now.used (both a.now.span b product_span) }
    ensures ticks { steps.new ≤ steps.old + 1 }
{
    if !a.used {
        return Slope::absent();
    }
    Slope::found(product_there(a.span, b, steps))
}

/// The derivative of `a / b` where the name does not occur in `b`, which has the value `b`.
pub(crate) fn slope_over<L: Ledger>(a: &Slope, b: Option<Span>, steps: &mut Steps<L>) -> Slope
    ensures used { result.used ≡ a.now.used }
    ensures span { result.span ≡ where_used a.now.used (both a.now.span b quotient_there) }
    ensures ticks { steps.new ≤ steps.old + 1 }
{
    if !a.used {
        return Slope::absent();
    }
    Slope::found(quotient_there(a.span, b, steps))
}

// ---- the rules
/// The derivative of a name.
pub(crate) fn slope_of_name<L: Ledger>(name: &Name, by: &Name, steps: &mut Steps<L>) -> Slope
    ensures used { result.used ≡ bytes_eq by.now name.now }
    ensures span { result.span ≡ Some (cond (bytes_eq by.now name.now) (point_span one_bound) zero_span) }
    ensures ticks { steps.new ≤ steps.old + 1 }
{
    if by != name {
        return Slope::absent();
    }
    Slope::found(Some(point(Dec::whole(1), steps)))
}

/// The derivative of `-a`.
pub(crate) fn slope_of_opposite<L: Ledger>(a: &Slope, steps: &mut Steps<L>) -> Slope
    ensures used { result.used ≡ a.now.used }
    ensures span { result.span ≡ where_used a.now.used (then_span a.now.span (λ d. Some (negative_span d))) }
    ensures ticks { steps.new ≤ steps.old + 1 }
{
    if !a.used {
        return Slope::absent();
    }
    let Some(slope) = a.span else {
        return Slope::found(None);
    };
    Slope::found(Some(neg(&slope, steps)))
}

/// The derivative of `a + b`.
pub(crate) fn slope_of_sum<L: Ledger>(a: &Slope, b: &Slope, steps: &mut Steps<L>) -> Slope
    ensures used { result.used ≡ (a.now.used || b.now.used) }
    ensures span { (v w x : Option Interval) → result.span ≡ short_slope Plus a.now.used b.now.used v w x a.now.span b.now.span }
    ensures ticks { steps.new ≤ steps.old + 1 }
{
    if !a.used {
        return *b;
    }
    if !b.used {
        return *a;
    }
    Slope::found(sum_there(a.span, b.span, steps))
}

/// The derivative of `a - b`.
pub(crate) fn slope_of_difference<L: Ledger>(a: &Slope, b: &Slope, steps: &mut Steps<L>) -> Slope
    ensures used { result.used ≡ (a.now.used || b.now.used) }
    ensures span { (v w x : Option Interval) → result.span ≡ short_slope Minus a.now.used b.now.used v w x a.now.span b.now.span }
    ensures ticks { steps.new ≤ steps.old + 1 }
{
    if !b.used {
        return *a;
    }
    Slope::found(difference_there(a.span, b.span, steps))
}

/// The derivative of `a * b`.
pub(crate) fn slope_of_product<L: Ledger>(a: &Part, b: &Part, steps: &mut Steps<L>) -> Slope
    ensures used { result.used ≡ (a.now.slope.used || b.now.slope.used) }
    ensures span { (x : Option Interval) → result.span ≡ short_slope Times a.now.slope.used b.now.slope.used
        (Some a.now.value) (Some b.now.value) x a.now.slope.span b.now.slope.span }
    ensures ticks { steps.new ≤ steps.old + 3 }
{
    if !b.slope.used {
        return slope_times(&a.slope, Some(b.value), steps);
    }
    let right = product_there(Some(a.value), b.slope.span, steps);
    if !a.slope.used {
        return Slope::found(right);
    }
    let left = product_there(a.slope.span, Some(b.value), steps);
    Slope::found(sum_there(left, right, steps))
}

/// The derivative of `a / b`, which has the value `value`.
pub(crate) fn slope_of_quotient<L: Ledger>(
    a: &Part,
    b: &Part,
    value: Span,
    steps: &mut Steps<L>,
) -> Slope
    ensures used { result.used ≡ (a.now.slope.used || b.now.slope.used) }
    ensures span { (v : Option Interval) → result.span ≡ short_slope Over a.now.slope.used b.now.slope.used
        v (Some b.now.value) (Some value) a.now.slope.span b.now.slope.span }
    ensures ticks { steps.new ≤ steps.old + 3 }
{
    if !b.slope.used {
        return slope_over(&a.slope, Some(b.value), steps);
    }
    let part = product_there(Some(value), b.slope.span, steps);
    let dividend = difference_there(a.slope.span, part, steps);
    Slope::found(quotient_there(dividend, Some(b.value), steps))
}

/// The derivative of the power of `a` by `k`, which has the value `value`.
pub(crate) fn slope_of_power<L: Ledger>(a: &Part, k: i8, value: Span, steps: &mut Steps<L>) -> Slope
    requires { IsExponent k }
    ensures used { result.used ≡ a.now.slope.used }
    ensures span { result.span ≡ where_used a.now.slope.used
        (power_slope k (Some a.now.value) (Some value) a.now.slope.span) }
    ensures ticks { steps.new + steps_of_power k ≤ steps.old + 11 }
{
    if !a.slope.used {
        return Slope::absent();
    }
    if k == 1 {
        return Slope::found(a.slope.span);
    }
    let factor = if k > 0 {
        rising_factor(a.value, k.unsigned_abs(), steps)
    } else {
        falling_factor(a.value, k, value, steps)
    };
    Slope::found(product_there(factor, a.slope.span, steps))
}
