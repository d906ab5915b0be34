ghost use Rattle.std.specs.Prelude.{◌≡◌, map, IfSome};
ghost use Rattle.exact_law.specs.WrittenRule.{all_over, both, compared, decided, decision, decision_by, either, guarded_over, inside_over, near_over, Unsettled};
ghost use Rattle.plain_law.specs.RuleViews.{answer_of, decision_of, ends_of, form_of, span_of, statement_of};

use crate::fraction::Exact;
use crate::rule::{Form, Statement};

/// The ends of an interval, the lower first.
#[derive(Clone, Copy, Debug)]
pub struct Ends {
    pub low: Exact,
    pub high: Exact,
}

/// An interval that holds the distance of an estimate from a limit, towards the inside, and one that
/// holds its square.
#[derive(Clone, Copy, Debug)]
pub struct Span {
    pub distance: Ends,
    pub square: Ends,
}

/// A statement, or the number of the condition that is not settled.
#[derive(Clone, Copy, Debug, PartialEq, Eq)]
pub enum Decision {
    Stated(Statement),
    Undecided(u8),
}

#[derive(Clone, Copy, Debug)]
enum Answer {
    Yes,
    No,
    Unsettled,
}

// Whether what lies in the one interval is at most what lies in the other.
#[tactic(auto, unfolding(exact_law::specs::WrittenRule::compared))]
fn compared(a: Ends, b: Ends) -> Option<Answer>
    ensures { IfSome result (λ r. answer_of r ≡ compared (ends_of a) (ends_of b)) }
{
    if a.high.at_most(b.low)? {
        return Some(Answer::Yes);
    }
    if a.low.at_most(b.high)? {
        return Some(Answer::Unsettled);
    }
    Some(Answer::No)
}

#[tactic(auto, unfolding(exact_law::specs::WrittenRule::both))]
fn both(a: Answer, b: Answer) -> Answer
    ensures { answer_of result ≡ both (answer_of a) (answer_of b) }
{
    match a {
        Answer::No => Answer::No,
        Answer::Yes => b,
        Answer::Unsettled => unsettled_and(b),
    }
}

#[tactic(auto, unfolding(exact_law::specs::WrittenRule::both))]
fn unsettled_and(b: Answer) -> Answer
    ensures { answer_of result ≡ both Unsettled (answer_of b) }
{
    match b {
        Answer::No => Answer::No,
        Answer::Yes | Answer::Unsettled => Answer::Unsettled,
    }
}

#[tactic(auto, unfolding(exact_law::specs::WrittenRule::either))]
fn either(a: Answer, b: Answer) -> Answer
    ensures { answer_of result ≡ either (answer_of a) (answer_of b) }
{
    match a {
        Answer::Yes => Answer::Yes,
        Answer::No => b,
        Answer::Unsettled => unsettled_or(b),
    }
}

#[tactic(auto, unfolding(exact_law::specs::WrittenRule::either))]
fn unsettled_or(b: Answer) -> Answer
    ensures { answer_of result ≡ either Unsettled (answer_of b) }
{
    match b {
        Answer::Yes => Answer::Yes,
        Answer::No | Answer::Unsettled => Answer::Unsettled,
    }
}

// Whether each condition holds for all of some spans.
#[derive(Clone, Copy, Debug)]
struct Answers {
    guarded: Answer,
    inside: Answer,
    near: Answer,
}

#[tactic(auto, unfolding(exact_law::specs::WrittenRule::guarded_over, exact_law::specs::WrittenRule::inside_over, exact_law::specs::WrittenRule::near_over))]
fn answers_at(square: Ends, span: &Span) -> Option<Answers>
    ensures guarded { IfSome result (λ r. answer_of r.guarded ≡ guarded_over (ends_of square) (span_of span.now)) }
    ensures inside { IfSome result (λ r. answer_of r.inside ≡ inside_over (span_of span.now)) }
    ensures near { IfSome result (λ r. answer_of r.near ≡ near_over (ends_of square) (span_of span.now)) }
{
    let zero = Exact::whole(0);
    let inside = compared(
        Ends {
            low: zero,
            high: zero,
        },
        span.distance,
    )?;
    let far = compared(square, span.square)?;
    let close = compared(span.square, square)?;
    Some(Answers {
        guarded: both(inside, far),
        inside,
        near: either(inside, close),
    })
}

fn joined(a: Answers, b: Answers) -> Answers
    ensures guarded { answer_of result.guarded ≡ both (answer_of a.guarded) (answer_of b.guarded) }
    ensures inside { answer_of result.inside ≡ both (answer_of a.inside) (answer_of b.inside) }
    ensures near { answer_of result.near ≡ both (answer_of a.near) (answer_of b.near) }
{
    Answers {
        guarded: both(a.guarded, b.guarded),
        inside: both(a.inside, b.inside),
        near: both(a.near, b.near),
    }
}

fn answers_over(square: Ends, spans: &[Span]) -> Option<Answers>
    ensures guarded { IfSome result (λ r. answer_of r.guarded ≡ all_over (guarded_over (ends_of square)) (map span_of spans.now)) }
    ensures inside { IfSome result (λ r. answer_of r.inside ≡ all_over inside_over (map span_of spans.now)) }
    ensures near { IfSome result (λ r. answer_of r.near ≡ all_over (near_over (ends_of square)) (map span_of spans.now)) }
{
    let mut answers = Answers {
        guarded: Answer::Yes,
        inside: Answer::Yes,
        near: Answer::Yes,
    };
    for span in spans {
        answers = joined(answers, answers_at(square, span)?);
    }
    Some(answers)
}

// Where a condition is settled, it speaks or the later ones do.
#[tactic(auto, unfolding(exact_law::specs::WrittenRule::decided))]
fn decided(answer: Answer, statement: Statement, condition: u8, later: Decision) -> Decision
    ensures { decision_of result ≡ decided (answer_of answer) (statement_of statement) condition (decision_of later) }
{
    match answer {
        Answer::Yes => Decision::Stated(statement),
        Answer::No => later,
        Answer::Unsettled => Decision::Undecided(condition),
    }
}

#[tactic(auto, unfolding(exact_law::specs::WrittenRule::decision_by))]
fn decision_by(form: Form, answers: Answers) -> Decision
    ensures { decision_of result ≡ decision_by (form_of form) (answer_of answers.guarded) (answer_of answers.inside) (answer_of answers.near) }
{
    let fail = Decision::Stated(Statement::Fail);
    match form {
        Form::Binary => decided(answers.guarded, Statement::Pass, 1, fail),
        Form::FourOutcomes => {
            let third = decided(answers.near, Statement::ConditionalFail, 3, fail);
            let second = decided(answers.inside, Statement::ConditionalPass, 2, third);
            decided(answers.guarded, Statement::Pass, 1, second)
        }
    }
}

/// The statement over intervals: over one that holds the square of the guard band, and over the spans of
/// the limits. A condition that the intervals do not settle speaks by its number. `None` comes only where
/// 128 bits do not hold a number on the way.
#[tactic(auto, unfolding(exact_law::specs::WrittenRule::decision))]
pub fn decide(form: Form, guard_square: Ends, spans: &[Span]) -> Option<Decision>
    ensures { IfSome result (λ r. decision_of r ≡ decision (form_of form) (ends_of guard_square) (map span_of spans.now)) }
{
    Some(decision_by(form, answers_over(guard_square, spans)?))
}
