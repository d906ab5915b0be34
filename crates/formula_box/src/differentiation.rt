ghost use Rattle.std.specs.Prelude.{◌≡◌, ◌+◌, ◌≤◌, IfOk};
ghost use Rattle.formula_ast.specs.Trees.{HasExponents};
ghost use Rattle.formula_ast.specs.Views.{tree_of};
ghost use Rattle.formula_box.specs.Values.{use_after};
ghost use Rattle.formula_box.specs.Slopes.{partial_of};
ghost use Rattle.formula_box.specs.Costs.{partial_cost};
ghost use Rattle.formula_box.specs.Parts.{IsPartOf};

use crate::evaluation::look_up;
use crate::fault::EvalFault;
use crate::names::Env;
use crate::operations::{OVERFLOW, difference, product, quotient, sum, whole_power};
use crate::slope::{
    Part, Slope, slope_of_difference, slope_of_name, slope_of_opposite, slope_of_power,
    slope_of_product, slope_of_quotient, slope_of_sum,
};
use fixed_interval::{Span, Steps, neg, point};
use formula_ast::{Formula, Name};
use std::sync::ledger::Ledger;

/// The span of the formula's partial derivative by the name `by`. Each value is found once.
///
/// # Errors
///
/// The fault of the formula's value, where that has one, and else [`EvalFault::Arith`] with an overflow
/// exactly where an operation for the derivative leaves the range.
pub fn partial<E: Env, L: Ledger>(
    f: &Formula,
    by: &Name,
    env: &E,
    steps: &mut Steps<L>,
) -> Result<Span, EvalFault>
    requires { HasExponents (tree_of f.now) }
    ensures span { result ≡ partial_of (E.given env.now) by.now (tree_of f.now) }
    ensures ticks { steps.new ≤ steps.old + partial_cost (tree_of f.now) }
{
    let mut uses = 0;
    let whole = part_from(f, by, env, &mut uses, steps)?;
    whole.slope.span.ok_or(OVERFLOW)
}

// The value and the derivative of a part of a formula, whose uses of names begin with use `uses`.
pub(crate) fn part_from<E: Env, L: Ledger>(
    f: &Formula,
    by: &Name,
    env: &E,
    uses: &mut usize,
    steps: &mut Steps<L>,
) -> Result<Part, EvalFault>
    requires { HasExponents (tree_of f.now) }
    ensures part { IsPartOf (E.given env.now) by.now uses.old (tree_of f.now) result }
    ensures counted { IfOk result (λ _. uses.new ≡ use_after uses.old (tree_of f.now)) }
    ensures ticks { steps.new ≤ steps.old + partial_cost (tree_of f.now) }
{
    match f {
        Formula::Num(q) => Ok(Part {
            value: point(*q, steps),
            slope: Slope::absent(),
        }),
        Formula::Var(name) => {
            let value = look_up(name, env, uses)?;
            let slope = slope_of_name(name, by, steps);
            Ok(Part { value, slope })
        }
        Formula::Neg(a) => {
            let a = part_from(a, by, env, uses, steps)?;
            let value = neg(&a.value, steps);
            let slope = slope_of_opposite(&a.slope, steps);
            Ok(Part { value, slope })
        }
        Formula::Add(a, b) => {
            let a = part_from(a, by, env, uses, steps)?;
            let b = part_from(b, by, env, uses, steps)?;
            let value = sum(&a.value, &b.value, steps)?;
            let slope = slope_of_sum(&a.slope, &b.slope, steps);
            Ok(Part { value, slope })
        }
        Formula::Sub(a, b) => {
            let a = part_from(a, by, env, uses, steps)?;
            let b = part_from(b, by, env, uses, steps)?;
            let value = difference(&a.value, &b.value, steps)?;
            let slope = slope_of_difference(&a.slope, &b.slope, steps);
            Ok(Part { value, slope })
        }
        Formula::Mul(a, b) => {
            let a = part_from(a, by, env, uses, steps)?;
            let b = part_from(b, by, env, uses, steps)?;
            let value = product(&a.value, &b.value, steps)?;
            let slope = slope_of_product(&a, &b, steps);
            Ok(Part { value, slope })
        }
        Formula::Div(a, b) => {
            let a = part_from(a, by, env, uses, steps)?;
            let b = part_from(b, by, env, uses, steps)?;
            let value = quotient(&a.value, &b.value, steps)?;
            let slope = slope_of_quotient(&a, &b, value, steps);
            Ok(Part { value, slope })
        }
        Formula::Pow(a, k) => {
            let a = part_from(a, by, env, uses, steps)?;
            let value = whole_power(&a.value, *k, steps)?;
            let slope = slope_of_power(&a, *k, value, steps);
            Ok(Part { value, slope })
        }
    }
}
