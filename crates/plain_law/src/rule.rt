ghost use Rattle.std.specs.Prelude.{◌≡◌, Bool, ◌&&◌, ◌||◌, cond, IfSome};
ghost use Rattle.exact_law.specs.WrittenRule.{above_lower, below_upper, guard_square, is_guarded, is_inside, is_near, all_of, stated, stated_by, ConditionalPass, ConditionalFail, Fail};
ghost use Rattle.plain_law.specs.Numbers.{number};
ghost use Rattle.plain_law.specs.RuleViews.{distances_of, form_of, limit_of, rule_of, statement_of};

use crate::fraction::Exact;

/// The form of a rule: with two outcomes (ILAC-G8:09/2019, 4.2.2), or with four (4.2.3).
#[derive(Clone, Copy, Debug)]
pub enum Form {
    Binary,
    FourOutcomes,
}

/// A statement of conformity.
#[derive(Clone, Copy, Debug, PartialEq, Eq)]
pub enum Statement {
    Pass,
    ConditionalPass,
    ConditionalFail,
    Fail,
}

/// A written rule: the limits that there are, the guard factor r of the guard band w = r U, and the form.
#[derive(Clone, Copy, Debug)]
pub struct Rule {
    pub lower: Option<Exact>,
    pub upper: Option<Exact>,
    pub guard: Exact,
    pub form: Form,
}

// How far an estimate lies inside a limit.
#[derive(Clone, Copy, Debug)]
enum Distance {
    NoLimit,
    Inside(Exact),
}

#[tactic(auto, unfolding(exact_law::specs::WrittenRule::above_lower))]
fn above_lower(limit: Option<Exact>, estimate: Exact) -> Option<Distance>
    ensures { IfSome result (λ r. distances_of r ≡ above_lower (limit_of limit) (number estimate)) }
{
    let Some(limit) = limit else {
        return Some(Distance::NoLimit);
    };
    Some(Distance::Inside(estimate.minus(limit)?))
}

#[tactic(auto, unfolding(exact_law::specs::WrittenRule::below_upper))]
fn below_upper(limit: Option<Exact>, estimate: Exact) -> Option<Distance>
    ensures { IfSome result (λ r. distances_of r ≡ below_upper (limit_of limit) (number estimate)) }
{
    let Some(limit) = limit else {
        return Some(Distance::NoLimit);
    };
    Some(Distance::Inside(limit.minus(estimate)?))
}

// W = r² k² V.
#[tactic(auto, unfolding(exact_law::specs::WrittenRule::guard_square))]
fn guard_square(rule: &Rule, factor: Exact, variance: Exact) -> Option<Exact>
    ensures { IfSome result (λ r. number r ≡ guard_square (rule_of rule.now) (number factor) (number variance)) }
{
    let guard = rule.guard.times(rule.guard)?;
    guard.times(factor.times(factor)?)?.times(variance)
}

fn both(a: bool, b: bool) -> bool
    ensures { result ≡ (a && b) }
{
    a && b
}

fn either(a: bool, b: bool) -> bool
    ensures { result ≡ (a || b) }
{
    a || b
}

// Whether each condition holds for all of some limits.
#[derive(Clone, Copy, Debug)]
struct Conditions {
    guarded: bool,
    inside: bool,
    near: bool,
}

#[tactic(auto, unfolding(exact_law::specs::WrittenRule::is_guarded, exact_law::specs::WrittenRule::is_inside, exact_law::specs::WrittenRule::is_near))]
fn conditions_inside(square: Exact, distance: Exact) -> Option<Conditions>
    ensures guarded { IfSome result (λ r. r.guarded ≡ is_guarded (number square) (number distance)) }
    ensures inside { IfSome result (λ r. r.inside ≡ is_inside (number distance)) }
    ensures near { IfSome result (λ r. r.near ≡ is_near (number square) (number distance)) }
{
    let inside = distance.is_not_negative();
    let distance_square = distance.times(distance)?;
    let is_far = square.at_most(distance_square)?;
    let is_close = distance_square.at_most(square)?;
    Some(Conditions {
        guarded: both(inside, is_far),
        inside,
        near: either(inside, is_close),
    })
}

#[tactic(auto, unfolding(exact_law::specs::WrittenRule::all_of))]
fn conditions_at(square: Exact, distance: Distance) -> Option<Conditions>
    ensures guarded { IfSome result (λ r. r.guarded ≡ all_of (is_guarded (number square)) (distances_of distance)) }
    ensures inside { IfSome result (λ r. r.inside ≡ all_of is_inside (distances_of distance)) }
    ensures near { IfSome result (λ r. r.near ≡ all_of (is_near (number square)) (distances_of distance)) }
{
    match distance {
        Distance::NoLimit => Some(Conditions {
            guarded: true,
            inside: true,
            near: true,
        }),
        Distance::Inside(distance) => conditions_inside(square, distance),
    }
}

fn joined(a: Conditions, b: Conditions) -> Conditions
    ensures guarded { result.guarded ≡ (a.guarded && b.guarded) }
    ensures inside { result.inside ≡ (a.inside && b.inside) }
    ensures near { result.near ≡ (a.near && b.near) }
{
    Conditions {
        guarded: both(a.guarded, b.guarded),
        inside: both(a.inside, b.inside),
        near: both(a.near, b.near),
    }
}

fn unguarded(conditions: Conditions) -> Statement
    ensures { statement_of result ≡ cond conditions.inside ConditionalPass (cond conditions.near ConditionalFail Fail) }
{
    if conditions.inside {
        return Statement::ConditionalPass;
    }
    if conditions.near {
        return Statement::ConditionalFail;
    }
    Statement::Fail
}

// The statement for the first condition of the form that holds.
#[tactic(auto, unfolding(exact_law::specs::WrittenRule::stated_by))]
fn stated_by(form: Form, conditions: Conditions) -> Statement
    ensures { statement_of result ≡ stated_by (form_of form) conditions.guarded conditions.inside conditions.near }
{
    if conditions.guarded {
        return Statement::Pass;
    }
    match form {
        Form::Binary => Statement::Fail,
        Form::FourOutcomes => unguarded(conditions),
    }
}

/// The statement of the rule on an estimate with this coverage factor and this variance. `None` comes
/// only where 128 bits do not hold a number on the way.
pub fn stated(rule: &Rule, estimate: Exact, factor: Exact, variance: Exact) -> Option<Statement>
    ensures { IfSome result (λ r. statement_of r
        ≡ stated (rule_of rule.now) (number estimate) (number factor) (number variance)) }
{
    let square = guard_square(rule, factor, variance)?;
    let lower = conditions_at(square, above_lower(rule.lower, estimate)?)?;
    let upper = conditions_at(square, below_upper(rule.upper, estimate)?)?;
    Some(stated_by(rule.form, joined(lower, upper)))
}
