// How far a value lies inside its limits.
ghost use Rattle.std.specs.Prelude.{◌≡◌, ◌≤◌, ◌+◌};
ghost use Rattle.guard_band.specs.Statements.{IsAnswer, above, at_limit, below, with_square};
ghost use Rattle.guard_band.specs.Distances.{exact_span, exact_spans};

use decimal18::Dec;
use fixed_interval::{Overflow, Span, Steps, point, sqr, sub};
use std::sync::ledger::Ledger;

// How far a value lies inside a limit, and the square of that.
#[derive(Clone, Copy)]
pub(crate) struct Distance {
    pub(crate) inside: Span,
    pub(crate) square: Span,
}

fn with_square<L: Ledger>(inside: Span, steps: &mut Steps<L>) -> Result<Distance, Overflow>
    ensures found { IsAnswer exact_span (with_square inside) result }
    ensures ticks { steps.new ≡ steps.old + 1 }
{
    let Ok(square) = sqr(&inside, steps) else {
        return Err(Overflow);
    };
    Ok(Distance { inside, square })
}

// The distance of `y` above a lower limit, if there is one.
pub(crate) fn above<L: Ledger>(
    limit: Option<Dec>,
    y: &Span,
    steps: &mut Steps<L>,
) -> Result<Option<Distance>, Overflow>
    ensures found { IsAnswer exact_spans (at_limit (above y.now) limit) result }
    ensures ticks { steps.new ≤ steps.old + 3 }
{
    let Some(limit) = limit else {
        return Ok(None);
    };
    let limit = point(limit, steps);
    let Ok(inside) = sub(y, &limit, steps) else {
        return Err(Overflow);
    };
    let Ok(distance) = with_square(inside, steps) else {
        return Err(Overflow);
    };
    Ok(Some(distance))
}

// The distance of `y` below an upper limit, if there is one.
pub(crate) fn below<L: Ledger>(
    limit: Option<Dec>,
    y: &Span,
    steps: &mut Steps<L>,
) -> Result<Option<Distance>, Overflow>
    ensures found { IsAnswer exact_spans (at_limit (below y.now) limit) result }
    ensures ticks { steps.new ≤ steps.old + 3 }
{
    let Some(limit) = limit else {
        return Ok(None);
    };
    let limit = point(limit, steps);
    let Ok(inside) = sub(&limit, y, steps) else {
        return Err(Overflow);
    };
    let Ok(distance) = with_square(inside, steps) else {
        return Err(Overflow);
    };
    Ok(Some(distance))
}
