// Answers that spans may not settle, and the conditions at one limit.
ghost use Rattle.std.specs.Prelude.{◌≡◌};
ghost use Rattle.exact_law.specs.WrittenRule.{both, either};
ghost use Rattle.guard_band.specs.Statements.{ends_of};
ghost use Rattle.guard_band.specs.Distances.{answer_of, condition_over, exact_span};

use crate::distances::Distance;
use crate::rule::Condition;
use fixed_interval::{Span, Truth, at_most, zero};

#[tactic(auto, unfolding(exact_law::specs::WrittenRule::both))]
pub(crate) fn both(a: Truth, b: Truth) -> Truth
    ensures { answer_of result ≡ both (answer_of a) (answer_of b) }
{
    match a {
        Truth::No => Truth::No,
        Truth::Yes => b,
        Truth::Unsettled => match b {
            Truth::No => Truth::No,
            Truth::Yes | Truth::Unsettled => Truth::Unsettled,
        },
    }
}

#[tactic(auto, unfolding(exact_law::specs::WrittenRule::either))]
fn either(a: Truth, b: Truth) -> Truth
    ensures { answer_of result ≡ either (answer_of a) (answer_of b) }
{
    match a {
        Truth::Yes => Truth::Yes,
        Truth::No => b,
        Truth::Unsettled => match b {
            Truth::Yes => Truth::Yes,
            Truth::No | Truth::Unsettled => Truth::Unsettled,
        },
    }
}

// Whether the condition holds at the limit from which the distance is.
pub(crate) fn holds(condition: Condition, band: &Span, distance: &Distance) -> Truth
    ensures { answer_of result ≡ condition_over condition (ends_of band.now) (exact_span distance.now) }
{
    let inside = at_most(&zero(), &distance.inside);
    match condition {
        Condition::Guarded => both(inside, at_most(band, &distance.square)),
        Condition::Inside => inside,
        Condition::Near => either(inside, at_most(&distance.square, band)),
    }
}
