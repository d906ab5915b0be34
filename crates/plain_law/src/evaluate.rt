ghost use Rattle.std.specs.Prelude.{nat_eq, ◌&&◌, cond, Some, None};
ghost use Rattle.exact_law.specs.Model.{estimate, is_input, expansion, replaced, unit, value_of, derivative_of};
ghost use Rattle.plain_law.specs.Models.{expression, rows, IsAnswer, IsJetOrFailure};

use crate::Exact;
use crate::jet::{Jet, difference, fitted, negative, power, product, quotient, sum, unit};
use crate::model::{Body, Expression, Failure};

/// The value of the row `y` (JCGM 100:2008, 4.1.4).
pub fn value(model: &[Body], y: usize) -> Result<Exact, Failure>
    ensures { IsAnswer result (value_of nat_eq (rows model.now) y) }
{
    Ok(jet_at(model, model.len(), y, y)?.value)
}

/// The sensitivity of the row `y` to the input `i` (JCGM 100:2008, 5.1.3).
pub fn derivative(model: &[Body], y: usize, i: usize) -> Result<Exact, Failure>
    ensures { IsAnswer result (derivative_of nat_eq (rows model.now) y i) }
{
    Ok(jet_at(model, model.len(), y, i)?.slope)
}

// The jet of the row along `along`, with formulas put in `depth` times one into another.
#[cycle(expansion)]
fn jet_at(model: &[Body], depth: usize, key: usize, along: usize) -> Result<Jet, Failure>
    ensures { IsJetOrFailure (estimate nat_eq (rows model.now)) (unit nat_eq along) (is_input nat_eq (rows model.now)) (expansion nat_eq (rows model.now) depth key) result }
{
    match model.get(key) {
        Some(Body::Formula(formula)) => {
            if depth > 0 {
                return jet_of(model, depth - 1, formula, along);
            }
            Err(Failure::Undefined)
        }
        Some(Body::Input(estimate)) => Ok(Jet {
            value: *estimate,
            slope: unit(along, key),
        }),
        None => Err(Failure::Undefined),
    }
}

// The same of an expression.
#[cycle(expansion)]
fn jet_of(model: &[Body], depth: usize, formula: &Expression, along: usize) -> Result<Jet, Failure>
    ensures { IsJetOrFailure (estimate nat_eq (rows model.now)) (unit nat_eq along) (is_input nat_eq (rows model.now)) (replaced (expansion nat_eq (rows model.now) depth) (expression formula.now)) result }
{
    match formula {
        Expression::Num(number) => Ok(Jet {
            value: *number,
            slope: Exact::whole(0),
        }),
        Expression::Key(key) => jet_at(model, depth, *key, along),
        Expression::Neg(a) => Ok(negative(jet_of(model, depth, a, along)?)),
        Expression::Add(a, b) => {
            let left = jet_of(model, depth, a, along)?;
            fitted(sum(left, jet_of(model, depth, b, along)?))
        }
        Expression::Sub(a, b) => {
            let left = jet_of(model, depth, a, along)?;
            fitted(difference(left, jet_of(model, depth, b, along)?))
        }
        Expression::Mul(a, b) => {
            let left = jet_of(model, depth, a, along)?;
            fitted(product(left, jet_of(model, depth, b, along)?))
        }
        Expression::Div(a, b) => {
            let left = jet_of(model, depth, a, along)?;
            quotient(left, jet_of(model, depth, b, along)?)
        }
        Expression::Pow(a, exponent) => {
            let exponent = *exponent;
            power(jet_of(model, depth, a, along)?, exponent)
        }
    }
}
