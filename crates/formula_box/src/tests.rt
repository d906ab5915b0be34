ghost use Rattle.std.specs.Prelude.{◌≡◌, if◌then◌else◌, bytes_eq, Some, None, IfOk};
ghost use Rattle.formula_ast.specs.Trees.{HasExponents};
ghost use Rattle.formula_ast.specs.Views.{tree_of};

use crate::{Env, EvalFault, eval, partial, partial_where_defined};
use decimal18::Dec;
use fixed_interval::{ArithFault, Overflow, Span, Steps, ends};
use formula_ast::{Formula, Name, read_formula};
use std::alloc::Global;
use std::marker::Brand;
use std::process::Abort;
use std::sync::ledger::{Blank, Ledger};
use std::test::Fail;

const OVERFLOW: EvalFault = EvalFault::Arith(ArithFault::Overflow);

const ZERO_DIVISOR: EvalFault = EvalFault::Arith(ArithFault::ZeroDivisor);

// The coefficients and the places of the two ends.
type Shown = (i64, u8, i64, u8);

// A formula, the ends of X, and the value and the derivative by X.
type Row = (
    &'static str,
    i64,
    i64,
    Result<Shown, EvalFault>,
    Result<Shown, EvalFault>,
);

const ROWS: [Row; 28] = [
    ("X*X", 2, 3, Ok((4, 0, 9, 0)), Ok((4, 0, 6, 0))),
    ("X^2", 2, 3, Ok((4, 0, 9, 0)), Ok((4, 0, 6, 0))),
    ("X^3 - X", 2, 2, Ok((6, 0, 6, 0)), Ok((11, 0, 11, 0))),
    ("-X^-1", 2, 2, Ok((-5, 1, -5, 1)), Ok((25, 2, 25, 2))),
    ("X/(X+1)", 1, 1, Ok((5, 1, 5, 1)), Ok((25, 2, 25, 2))),
    ("1/(X-5)", 6, 6, Ok((1, 0, 1, 0)), Ok((-1, 0, -1, 0))),
    ("1/(X-5)", 5, 5, Err(ZERO_DIVISOR), Err(ZERO_DIVISOR)),
    (
        "1/3",
        2,
        2,
        Ok((333_333_333_333_333_333, 18, 333_333_333_333_333_334, 18)),
        Ok((0, 0, 0, 0)),
    ),
    ("(-2)^3 + X", 0, 0, Ok((-8, 0, -8, 0)), Ok((1, 0, 1, 0))),
    ("10^9*10^9", 2, 2, Err(OVERFLOW), Err(OVERFLOW)),
    ("10^9*(X-1)*10^9", 1, 1, Ok((0, 0, 0, 0)), Err(OVERFLOW)),
    (
        "1/(X-5) + 10^9*10^9",
        5,
        5,
        Err(ZERO_DIVISOR),
        Err(ZERO_DIVISOR),
    ),
    ("10^9*10^9 + 1/(X-5)", 5, 5, Err(OVERFLOW), Err(OVERFLOW)),
    (
        "X + X*Y",
        5,
        5,
        Err(EvalFault::NoValue(2)),
        Err(EvalFault::NoValue(2)),
    ),
    (
        "Y + X*Y",
        5,
        5,
        Err(EvalFault::NoValue(0)),
        Err(EvalFault::NoValue(0)),
    ),
    (
        "X*Y + 1/(X-5)",
        5,
        5,
        Err(EvalFault::NoValue(1)),
        Err(EvalFault::NoValue(1)),
    ),
    ("2 - X", 5, 5, Ok((-3, 0, -3, 0)), Ok((-1, 0, -1, 0))),
    (
        "(1/3)*X",
        -3,
        -3,
        Ok((-100_000_000_000_000_001, 17, -999_999_999_999_999_999, 18)),
        Ok((333_333_333_333_333_333, 18, 333_333_333_333_333_334, 18)),
    ),
    (
        "X*(1/3)",
        3,
        3,
        Ok((999_999_999_999_999_999, 18, 100_000_000_000_000_001, 17)),
        Ok((333_333_333_333_333_333, 18, 333_333_333_333_333_334, 18)),
    ),
    (
        "X/(1/3-1)",
        1,
        1,
        Ok((-150_000_000_000_000_001, 17, -149_999_999_999_999_999, 17)),
        Ok((-150_000_000_000_000_001, 17, -149_999_999_999_999_999, 17)),
    ),
    ("(X - X)/2", 2, 2, Ok((0, 0, 0, 0)), Ok((0, 0, 0, 0))),
    (
        "X*999999999999999999",
        1,
        1,
        Ok((999_999_999_999_999_999, 0, 999_999_999_999_999_999, 0)),
        Ok((999_999_999_999_999_999, 0, 999_999_999_999_999_999, 0)),
    ),
    (
        "(X+X)*999999999999999999",
        0,
        0,
        Ok((0, 0, 0, 0)),
        Err(OVERFLOW),
    ),
    (
        "0.1*(10^-9*10^-9*10^-9*10^-9*X)",
        1,
        1,
        Ok((0, 0, 1, 36)),
        Ok((0, 0, 1, 36)),
    ),
    (
        "(2*X)^2*3",
        -1,
        -1,
        Ok((12, 0, 12, 0)),
        Ok((-24, 0, -24, 0)),
    ),
    (
        "(X/3)^1",
        1,
        1,
        Ok((333_333_333_333_333_333, 18, 333_333_333_333_333_334, 18)),
        Ok((333_333_333_333_333_333, 18, 333_333_333_333_333_334, 18)),
    ),
    ("(X*X)*(X*X)", 2, 2, Ok((16, 0, 16, 0)), Ok((32, 0, 32, 0))),
    ("X/X/X", 2, 2, Ok((5, 1, 5, 1)), Ok((-25, 2, -25, 2))),
];

// One name and its span.
#[derive(Clone, Copy)]
struct Single {
    name: Name,
    span: Span,
}

impl Env for Single {
    ghost given = { λ single n. if bytes_eq single.name n then Some single.span else None };

    fn value(&self, name: &Name) -> Option<Span> {
        if self.name != *name {
            return None;
        }
        Some(self.span)
    }
}

fn shown(span: &Span) -> Shown {
    let (lo, hi) = (span.lo(), span.hi());
    (lo.coefficient(), lo.places(), hi.coefficient(), hi.places())
}

// The span from one whole number to another.
fn whole_ends<L: Ledger>(lo: i64, hi: i64, steps: &mut Steps<L>) -> Result<Span, &'static str> {
    if lo > hi {
        return Err("not a span");
    }
    let Some(low) = Dec::new(lo, 0) else {
        return Err("not a bound");
    };
    let Some(high) = Dec::new(hi, 0) else {
        return Err("not a bound");
    };
    Ok(ends(low, high, steps))
}

// The formula that the text spells.
fn formula_of(alloc: Global, text: &str) -> Result<Formula, &'static str>
    ensures { IfOk result (λ f. HasExponents (tree_of f)) }
{
    let Ok(formula) = read_formula(alloc, text.as_bytes()) else {
        return Err("refused");
    };
    Ok(formula)
}

// The derivative of the formula, where it has a value, as found without its value.
fn where_defined<L: Ledger>(
    formula: &Formula,
    name: &Name,
    env: &Single,
    steps: &mut Steps<L>,
) -> Option<Result<Shown, EvalFault>>
    requires { HasExponents (tree_of formula.now) }
{
    eval(formula, env, steps).ok()?;
    let found = partial_where_defined(formula, name, env, steps);
    Some(found.map(|s| shown(&s)).map_err(|_: Overflow| OVERFLOW))
}

fn rows<L: Ledger>(rt: &impl Abort, alloc: Global, blank: Blank) -> Result<(), Fail>
    requires name { blank.name ≡ L.name }
    requires parts { blank.parts ≡ L.parts }
    requires one { L.parts ≡ 1 }
{
    let mut steps: Steps<L> = Steps::new(blank);
    let name = Name::new(b"X").ok_or("no name")?;
    for (text, lo, hi, value, derivative) in ROWS {
        let formula = formula_of(alloc, text)?;
        let span = whole_ends(lo, hi, &mut steps)?;
        let env = Single { name, span };
        let found = eval(&formula, &env, &mut steps).map(|s| shown(&s));
        assert_eq!(rt; found, value, "the value of {text}");
        let found = partial(&formula, &name, &env, &mut steps).map(|s| shown(&s));
        assert_eq!(rt; found, derivative, "the derivative of {text}");
        let found = where_defined(&formula, &name, &env, &mut steps);
        assert_eq!(rt;
            found.unwrap_or(derivative),
            derivative,
            "the derivative of {text}, which has a value"
        );
    }
    Ok(())
}

#[test]
fn values_and_derivatives(rt: HostRuntime) -> Result<(), Fail> {
    rows::<Brand>(&rt, rt.alloc(), Blank::new(1))
}
