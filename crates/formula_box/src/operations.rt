//! The operations of a formula, each with the fault of an evaluation.

ghost use Rattle.std.specs.Prelude.{◌≡◌, ◌+◌, ◌≤◌};
ghost use Rattle.formula_ast.specs.Trees.{IsExponent};
ghost use Rattle.fixed_interval.specs.Powers.{power, steps_of_power};
ghost use Rattle.formula_ast.specs.declared.token.Sign.TheVariants.{Plus, Minus, Times, Over};
ghost use Rattle.formula_box.specs.Values.{joined_span, arithmetic};

use crate::fault::EvalFault;
use fixed_interval::{ArithFault, Overflow, Span, Steps, add, div, mul, pow, sub};
use std::sync::ledger::Ledger;

/// The fault of an operation that leaves the range.
pub(crate) const OVERFLOW: EvalFault = EvalFault::Arith(ArithFault::Overflow);

pub(crate) fn sum<L: Ledger>(a: &Span, b: &Span, steps: &mut Steps<L>) -> Result<Span, EvalFault>
    ensures span { result ≡ joined_span Plus a.now b.now }
    ensures ticks { steps.new ≡ steps.old + 1 }
{
    add(a, b, steps).map_err(|_: Overflow| OVERFLOW)
}

pub(crate) fn difference<L: Ledger>(
    a: &Span,
    b: &Span,
    steps: &mut Steps<L>,
) -> Result<Span, EvalFault>
    ensures span { result ≡ joined_span Minus a.now b.now }
    ensures ticks { steps.new ≡ steps.old + 1 }
{
    sub(a, b, steps).map_err(|_: Overflow| OVERFLOW)
}

pub(crate) fn product<L: Ledger>(
    a: &Span,
    b: &Span,
    steps: &mut Steps<L>,
) -> Result<Span, EvalFault>
    ensures span { result ≡ joined_span Times a.now b.now }
    ensures ticks { steps.new ≡ steps.old + 1 }
{
    mul(a, b, steps).map_err(|_: Overflow| OVERFLOW)
}

pub(crate) fn quotient<L: Ledger>(
    a: &Span,
    b: &Span,
    steps: &mut Steps<L>,
) -> Result<Span, EvalFault>
    ensures span { result ≡ joined_span Over a.now b.now }
    ensures ticks { steps.new ≡ steps.old + 1 }
{
    div(a, b, steps).map_err(|fault| EvalFault::Arith(fault))
}

pub(crate) fn whole_power<L: Ledger>(
    a: &Span,
    k: i8,
    steps: &mut Steps<L>,
) -> Result<Span, EvalFault>
    requires { IsExponent k }
    ensures span { result ≡ arithmetic (power a.now k) }
    ensures ticks { steps.new ≤ steps.old + steps_of_power k }
{
    pow(a, k, steps).map_err(|fault| EvalFault::Arith(fault))
}
