ghost use Rattle.std.specs.Prelude.{◌≡◌, ◌+◌, ◌≤◌, IfOk};
ghost use Rattle.formula_ast.specs.Trees.{HasExponents};
ghost use Rattle.formula_ast.specs.Views.{tree_of};
ghost use Rattle.formula_box.specs.Values.{next_use, use_after, used, span_from, span_of};
ghost use Rattle.formula_box.specs.Costs.{value_cost};

use crate::fault::EvalFault;
use crate::names::Env;
use crate::operations::{difference, product, quotient, sum, whole_power};
use fixed_interval::{Span, Steps, neg, point};
use formula_ast::{Formula, Name};
use std::sync::ledger::Ledger;

// The number of the use after use `k`.
pub(crate) fn next_use(k: usize) -> usize
    ensures { result ≡ next_use k }
{
    k.saturating_add(1)
}

// The span of a name, which is use `uses`; this counts it.
pub(crate) fn look_up<E: Env>(name: &Name, env: &E, uses: &mut usize) -> Result<Span, EvalFault>
    ensures span { result ≡ used uses.old (E.given env.now name.now) }
    ensures counted { uses.new ≡ next_use uses.old }
{
    let this = *uses;
    *uses = next_use(this);
    env.value(name).ok_or(EvalFault::NoValue(this))
}

/// The span of the formula's value.
///
/// # Errors
///
/// The first fault, operands before operations and the left operand before the right one.
pub fn eval<E: Env, L: Ledger>(
    f: &Formula,
    env: &E,
    steps: &mut Steps<L>,
) -> Result<Span, EvalFault>
    requires { HasExponents (tree_of f.now) }
    ensures span { result ≡ span_of (E.given env.now) (tree_of f.now) }
    ensures ticks { steps.new ≤ steps.old + value_cost (tree_of f.now) }
{
    let mut uses = 0;
    eval_from(f, env, &mut uses, steps)
}

// The span of a part of a formula, whose uses of names begin with use `uses`.
fn eval_from<E: Env, L: Ledger>(
    f: &Formula,
    env: &E,
    uses: &mut usize,
    steps: &mut Steps<L>,
) -> Result<Span, EvalFault>
    requires { HasExponents (tree_of f.now) }
    ensures span { result ≡ span_from (E.given env.now) uses.old (tree_of f.now) }
    ensures counted { IfOk result (λ _. uses.new ≡ use_after uses.old (tree_of f.now)) }
    ensures ticks { steps.new ≤ steps.old + value_cost (tree_of f.now) }
{
    match f {
        Formula::Num(q) => Ok(point(*q, steps)),
        Formula::Var(name) => look_up(name, env, uses),
        Formula::Neg(a) => {
            let a = eval_from(a, env, uses, steps)?;
            Ok(neg(&a, steps))
        }
        Formula::Add(a, b) => {
            let a = eval_from(a, env, uses, steps)?;
            let b = eval_from(b, env, uses, steps)?;
            sum(&a, &b, steps)
        }
        Formula::Sub(a, b) => {
            let a = eval_from(a, env, uses, steps)?;
            let b = eval_from(b, env, uses, steps)?;
            difference(&a, &b, steps)
        }
        Formula::Mul(a, b) => {
            let a = eval_from(a, env, uses, steps)?;
            let b = eval_from(b, env, uses, steps)?;
            product(&a, &b, steps)
        }
        Formula::Div(a, b) => {
            let a = eval_from(a, env, uses, steps)?;
            let b = eval_from(b, env, uses, steps)?;
            quotient(&a, &b, steps)
        }
        Formula::Pow(a, k) => {
            let a = eval_from(a, env, uses, steps)?;
            whole_power(&a, *k, steps)
        }
    }
}
