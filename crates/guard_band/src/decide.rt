ghost use Rattle.std.specs.Prelude.{◌≡◌, ◌≤◌, ◌+◌, ◌++◌, IfOk, pos};
ghost use Rattle.std.specs.Option.{ok_or};
ghost use Rattle.exact_fraction.specs.Number.{ℚ, of_ℤ, ◌≤ℚ◌, ◌<ℚ◌};
ghost use Rattle.exact_law.specs.WrittenRule.{FourOutcomes, No, Statement, Stated, all_over, decision_by, stated};
ghost use Rattle.decimal18.specs.Bound.{value_of};
ghost use Rattle.fixed_interval.specs.Interval.{Encloses};
ghost use Rattle.guard_band.specs.Statements.{IsAnswer, IsRule, decision_of, decision_over, ends_of, exact_form, exact_rule, guard_square_span};
ghost use Rattle.guard_band.specs.Distances.{answer_of, condition_over, exact_spans};

use crate::conditions::{both, holds};
use crate::distances::{Distance, above, below};
use crate::rule::{Condition, Form, Rule, Said};
use decimal18::Dec;
use fixed_interval::{Overflow, Span, Steps, Truth, mul, point, sqr};
use std::sync::ledger::Ledger;

// The square of the guard band.
fn guard_square<L: Ledger>(
    guard: Dec,
    k: &Span,
    v: &Span,
    steps: &mut Steps<L>,
) -> Result<Span, Overflow>
    ensures span { result ≡ ok_or (guard_square_span guard k.now v.now) (record {}) }
    ensures ticks { steps.new ≤ steps.old + 5 }
{
    let guard = point(guard, steps);
    let Ok(guard_square) = sqr(&guard, steps) else {
        return Err(Overflow);
    };
    let Ok(factor_square) = sqr(k, steps) else {
        return Err(Overflow);
    };
    let Ok(product) = mul(&guard_square, &factor_square, steps) else {
        return Err(Overflow);
    };
    mul(&product, v, steps)
}

// Whether the condition holds at a limit, if there is one.
fn holds_at(condition: Condition, band: &Span, distance: &Option<Distance>) -> Truth
    ensures { answer_of result ≡ all_over (condition_over condition (ends_of band.now)) (exact_spans distance.now) }
{
    match distance {
        Some(distance) => holds(condition, band, distance),
        None => Truth::Yes,
    }
}

// Whether it holds at both limits, as far as they are there.
fn holds_for_all(
    condition: Condition,
    band: &Span,
    lower: &Option<Distance>,
    upper: &Option<Distance>,
) -> Truth
    ensures { answer_of result ≡ all_over (condition_over condition (ends_of band.now)) (exact_spans lower.now ++ exact_spans upper.now) }
{
    both(
        holds_at(condition, band, lower),
        holds_at(condition, band, upper),
    )
}

// The same of the second and the third condition, where the first one does not hold.
#[tactic(auto, unfolding(exact_law::specs::WrittenRule::decided, exact_law::specs::WrittenRule::decision_by))]
fn said_conditionally(inside: Truth, near: Truth) -> Said
    ensures { decision_of result ≡ decision_by FourOutcomes No (answer_of inside) (answer_of near) }
{
    match inside {
        Truth::Yes => Said::ConditionalPass,
        Truth::Unsettled => Said::Undecided {
            first: Condition::Inside,
        },
        Truth::No => match near {
            Truth::Yes => Said::ConditionalFail,
            Truth::Unsettled => Said::Undecided {
                first: Condition::Near,
            },
            Truth::No => Said::Fail,
        },
    }
}

// What the first condition of the form says that is not settled as one that does not hold.
#[tactic(auto, unfolding(exact_law::specs::WrittenRule::decided, exact_law::specs::WrittenRule::decision_by))]
fn said(form: Form, guarded: Truth, inside: Truth, near: Truth) -> Said
    ensures { decision_of result ≡ decision_by (exact_form form) (answer_of guarded) (answer_of inside) (answer_of near) }
{
    match guarded {
        Truth::Yes => return Said::Pass,
        Truth::Unsettled => {
            return Said::Undecided {
                first: Condition::Guarded,
            };
        }
        Truth::No => {}
    }
    match form {
        Form::Binary => Said::Fail,
        Form::Four => said_conditionally(inside, near),
    }
}

/// The statement of conformity by the rule on a quantity of which `y` encloses the value, `v` the variance and `k` the
/// coverage factor, where these settle it. A value on a limit is inside it. The guard band is `rule.guard` expanded
/// uncertainties wide; no root is taken, as its square is compared with those of the distances from the limits. It ticks at
/// most eleven times.
///
/// # Errors
///
/// [`Overflow`] exactly where an end of one of these spans is out of the range of bounds: the squares of the guard factor and
/// of the coverage factor, their product, its product with the variance, a distance from a limit, and the square of one.
pub fn statement<L: Ledger>(
    y: &Span,
    v: &Span,
    k: &Span,
    rule: &Rule,
    steps: &mut Steps<L>,
) -> Result<Said, Overflow>
    requires rule { IsRule rule.now }
    requires variance { of_ℤ (pos 0) ≤ℚ value_of v.now.lo }
    requires factor { of_ℤ (pos 0) <ℚ value_of k.now.lo }
    ensures exact { IsAnswer decision_of (decision_over rule.now y.now v.now k.now) result }
    ensures holds { IfOk result (λ said. (x u f : ℚ) → Encloses y.now x → Encloses v.now u → Encloses k.now f
        → (s : Statement) → decision_of said ≡ Stated s → stated (exact_rule rule.now) x f u ≡ s) }
    ensures ticks { steps.new ≤ steps.old + 11 }
{
    let Ok(band) = guard_square(rule.guard, k, v, steps) else {
        return Err(Overflow);
    };
    let Ok(lower) = above(rule.lower, y, steps) else {
        return Err(Overflow);
    };
    let Ok(upper) = below(rule.upper, y, steps) else {
        return Err(Overflow);
    };
    let guarded = holds_for_all(Condition::Guarded, &band, &lower, &upper);
    let inside = holds_for_all(Condition::Inside, &band, &lower, &upper);
    let near = holds_for_all(Condition::Near, &band, &lower, &upper);
    Ok(said(rule.form, guarded, inside, near))
}
