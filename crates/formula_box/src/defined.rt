//! The derivative of a formula that is known to have a value: of its parts, only those values are found that the rules
//! ask for, and nothing is found of a part in which the name does not occur but whether it does.

ghost use Rattle.std.specs.Prelude.{◌≡◌, ◌+◌, ◌≤◌, true, is_some};
ghost use Rattle.std.specs.Option.{ok_or};
ghost use Rattle.fixed_interval.specs.Rules.{product_span};
ghost use Rattle.fixed_interval.specs.Sums.{both};
ghost use Rattle.formula_ast.specs.Trees.{HasExponents};
ghost use Rattle.formula_ast.specs.Views.{tree_of};
ghost use Rattle.formula_box.specs.Values.{span_of};
ghost use Rattle.formula_box.specs.Slopes.{occurs, there, quotient_there, where_used, partial_of};
ghost use Rattle.formula_box.specs.Costs.{value_cost, partial_cost};
ghost use Rattle.formula_box.specs.Parts.{has_value, AllHaveValues, IsSlopeOf};

use crate::differentiation::part_from;
use crate::evaluation::eval;
use crate::names::Env;
use crate::slope::{
    Slope, product_there, slope_of_difference, slope_of_name, slope_of_opposite, slope_of_sum,
    slope_over, slope_times,
};
use fixed_interval::{Overflow, Span, Steps};
use formula_ast::{Formula, Name};
use std::sync::ledger::Ledger;

/// The span of the formula's partial derivative by the name `by`, where the formula has a value: what
/// [`partial`](crate::partial) answers, mostly with fewer operations.
///
/// # Errors
///
/// [`Overflow`] exactly where an operation for the derivative leaves the range.
pub fn partial_where_defined<E: Env, L: Ledger>(
    f: &Formula,
    by: &Name,
    env: &E,
    steps: &mut Steps<L>,
) -> Result<Span, Overflow>
    requires exponents { HasExponents (tree_of f.now) }
    requires defined { has_value (E.given env.now) (tree_of f.now) ≡ true }
    ensures span { result ≡ ok_or (there (partial_of (E.given env.now) by.now (tree_of f.now))) (record {}) }
    ensures ticks { steps.new ≤ steps.old + partial_cost (tree_of f.now) }
{
    slope_in(f, by, env, steps).span.ok_or(Overflow)
}

// The derivative of a part of a formula that has a value.
fn slope_in<E: Env, L: Ledger>(f: &Formula, by: &Name, env: &E, steps: &mut Steps<L>) -> Slope
    requires exponents { HasExponents (tree_of f.now) }
    requires defined { AllHaveValues (E.given env.now) (tree_of f.now) }
    ensures slope { IsSlopeOf (E.given env.now) by.now (tree_of f.now) result }
    ensures ticks { steps.new ≤ steps.old + partial_cost (tree_of f.now) }
{
    match f {
        Formula::Num(_) => Slope::absent(),
        Formula::Var(name) => slope_of_name(name, by, steps),
        Formula::Neg(a) => {
            let a = slope_in(a, by, env, steps);
            slope_of_opposite(&a, steps)
        }
        Formula::Add(a, b) => {
            let a = slope_in(a, by, env, steps);
            let b = slope_in(b, by, env, steps);
            slope_of_sum(&a, &b, steps)
        }
        Formula::Sub(a, b) => {
            let a = slope_in(a, by, env, steps);
            let b = slope_in(b, by, env, steps);
            slope_of_difference(&a, &b, steps)
        }
        Formula::Mul(a, b) => {
            if !occurs(by, b) {
                let a = slope_in(a, by, env, steps);
                return slope_times_value(&a, b, env, steps);
            }
            if !occurs(by, a) {
                let b = slope_in(b, by, env, steps);
                return value_times_slope(a, &b, env, steps);
            }
            slope_by_values(f, by, env, steps)
        }
        Formula::Div(a, b) => {
            if !occurs(by, b) {
                let a = slope_in(a, by, env, steps);
                return slope_over_value(&a, b, env, steps);
            }
            slope_by_values(f, by, env, steps)
        }
        Formula::Pow(..) => slope_by_values(f, by, env, steps),
    }
}

// Whether the name occurs in the formula.
fn occurs(by: &Name, f: &Formula) -> bool
    ensures { result ≡ occurs by.now (tree_of f.now) }
{
    match f {
        Formula::Num(_) => false,
        Formula::Var(name) => by == name,
        Formula::Neg(a) | Formula::Pow(a, _) => occurs(by, a),
        Formula::Add(a, b) | Formula::Sub(a, b) | Formula::Mul(a, b) | Formula::Div(a, b) => {
            occurs(by, a) || occurs(by, b)
        }
    }
}

// The derivative of a part that has a value, by the values of all in it, each found once.
fn slope_by_values<E: Env, L: Ledger>(
    f: &Formula,
    by: &Name,
    env: &E,
    steps: &mut Steps<L>,
) -> Slope
    requires exponents { HasExponents (tree_of f.now) }
    requires defined { has_value (E.given env.now) (tree_of f.now) ≡ true }
    ensures slope { IsSlopeOf (E.given env.now) by.now (tree_of f.now) result }
    ensures ticks { steps.new ≤ steps.old + partial_cost (tree_of f.now) }
{
    if !occurs(by, f) {
        return Slope::absent();
    }
    let mut uses = 0;
    part_from(f, by, env, &mut uses, steps).unwrap().slope
}

// The derivative of `a * b` where the name does not occur in `b`, whose value is found where it counts.
fn slope_times_value<E: Env, L: Ledger>(
    a: &Slope,
    b: &Formula,
    env: &E,
    steps: &mut Steps<L>,
) -> Slope
    requires { HasExponents (tree_of b.now) }
    ensures used { result.used ≡ a.now.used }
    ensures span { result.span ≡ where_used a.now.used (both a.now.span (there (span_of (E.given env.now) (tree_of b.now))) product_span) }
    ensures ticks { steps.new ≤ steps.old + value_cost (tree_of b.now) + 1 }
{
    if !a.used {
        return Slope::absent();
    }
    let b = eval(b, env, steps).ok();
    slope_times(a, b, steps)
}

// The derivative of `a / b` where the name does not occur in `b`, whose value is found where it counts.
fn slope_over_value<E: Env, L: Ledger>(
    a: &Slope,
    b: &Formula,
    env: &E,
    steps: &mut Steps<L>,
) -> Slope
    requires { HasExponents (tree_of b.now) }
    ensures used { result.used ≡ a.now.used }
    ensures span { result.span ≡ where_used a.now.used (both a.now.span (there (span_of (E.given env.now) (tree_of b.now))) quotient_there) }
    ensures ticks { steps.new ≤ steps.old + value_cost (tree_of b.now) + 1 }
{
    if !a.used {
        return Slope::absent();
    }
    let b = eval(b, env, steps).ok();
    slope_over(a, b, steps)
}

// The derivative of `a * b` where the name occurs in `b` and not in `a`.
fn value_times_slope<E: Env, L: Ledger>(
    a: &Formula,
    b: &Slope,
    env: &E,
    steps: &mut Steps<L>,
) -> Slope
    requires { HasExponents (tree_of a.now) }
    ensures used { result.used ≡ true }
    ensures span { result.span ≡ both (there (span_of (E.given env.now) (tree_of a.now))) b.now.span product_span }
    ensures ticks { steps.new ≤ steps.old + value_cost (tree_of a.now) + 1 }
{
    let a = eval(a, env, steps).ok();
    Slope::found(product_there(a, b.span, steps))
}
