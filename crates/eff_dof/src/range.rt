ghost use Rattle.std.specs.Prelude.{◌≡◌, pos};
ghost use Rattle.exact_fraction.specs.Number.{is_at_most_ℚ, of_ℤ};
ghost use Rattle.decimal18.specs.Bound.{value_of};
ghost use Rattle.decimal18.specs.Down.{down, up};
ghost use Rattle.eff_dof.specs.Degrees.{at_most, inverse_by, most, range, upper_end};

use crate::part::is_zero;
use decimal18::{Dec, div_down, div_up};
use fixed_interval::{Span, greater, is_at_most, lesser};
use table_g2::{Nu, TOLD_APART};

// The number, and the most degrees that are told apart where it is greater or out of range.
fn at_most(number: Option<Dec>) -> Dec
    ensures { result ≡ at_most number }
{
    let most = Dec::whole(TOLD_APART);
    match number {
        Some(number) => lesser(number, most),
        None => most,
    }
}

// 1 divided by the number, rounded down.
fn inverse_down(number: Dec) -> Dec
    ensures { result ≡ inverse_by down number }
{
    if is_zero(number) {
        return Dec::whole(TOLD_APART);
    }
    at_most(div_down(Dec::whole(1), number))
}

// 1 divided by the number, rounded up.
fn inverse_up(number: Dec) -> Dec
    ensures { result ≡ inverse_by up number }
{
    if is_zero(number) {
        return Dec::whole(TOLD_APART);
    }
    at_most(div_up(Dec::whole(1), number))
}

fn is_at_most_zero(number: Dec) -> bool
    ensures { result ≡ is_at_most_ℚ (value_of number) (of_ℤ (pos 0)) }
{
    is_at_most(number, Dec::whole(0))
}

// The upper end of the degrees of freedom, by the least 1/ν and their lower end.
fn upper_end(inverse: &Span, lo: Dec) -> Option<Dec>
    ensures { result ≡ upper_end inverse.now lo }
{
    if is_at_most_zero(inverse.lo()) {
        return None;
    }
    Some(greater(inverse_up(inverse.lo()), lo))
}

// The degrees of freedom by the span of 1/ν, and the least that they may be.
pub(crate) fn range(inverse: &Span, least: Dec) -> Nu
    ensures { result ≡ range inverse.now least }
{
    let lo = greater(inverse_down(inverse.hi()), least);
    let hi = upper_end(inverse, lo);
    Nu::Range { lo, hi }
}
