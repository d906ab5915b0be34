ghost use Rattle.std.specs.Prelude.{◌≡◌, IfSome};
ghost use Rattle.sheet_rows.specs.Rows.{row_of};
ghost use Rattle.sheet_rows.specs.Regular.{IsRegular};

use crate::Session;
use crate::tests::{formula_row, letter, of_letter};
use answers::{Answer, AskFault, Edit, Query};
use decimal18::Dec;
use fixed_interval::Steps;
use guard_band::{Form, Rule, Said};
use round_out::{CorrSaid, Reported};
use sheet_rows::Row;
use std::alloc::Global;
use std::marker::Brand;
use std::process::Abort;
use std::sync::ledger::{Blank, Ledger};
use std::test::Fail;
use table_g2::{DofSaid, Level};
use type_b::{Dof, Shape, are_degrees, check};

// What is asked of the quantities of one or two letters.
#[derive(Clone, Copy, Debug)]
enum Ask {
    Variance(u8),
    Covariance(u8, u8),
    Correlation(u8, u8),
    Degrees(u8),
    Report(u8),
    // At 95 percent.
    Expanded(u8),
    // By the tolerance of this letter, at 95 percent.
    Decide(u8, u8),
    Budget(u8),
}

// What is answered.
#[derive(Clone, Copy, Debug, PartialEq, Eq)]
enum Told {
    // A span of one whole number.
    Point(i64),
    Hundredths(i8),
    Degrees(u64),
    // The estimate and the uncertainty in units of a power of ten.
    Rounded(i128, u8, i8),
    // The same, with the coefficient of the factor.
    WithFactor(i128, u8, i8, i64),
    Said(Said),
    // How many lines a budget has, and its variance.
    Lines(usize, i64),
    // A fault in the row of this letter.
    Fault(u8),
    LawOverflow,
    // Anything else, which no row of the tests wants.
    Other,
}

// Of the standard X = 5 with the standard uncertainty 1, A = X*2 and B = X*3: by what they share they are correlated.
const SHARED: [(Ask, Told); 5] = [
    (Ask::Variance(b'A'), Told::Point(4)),
    (Ask::Variance(b'B'), Told::Point(9)),
    (Ask::Covariance(b'A', b'B'), Told::Point(6)),
    (Ask::Correlation(b'A', b'B'), Told::Hundredths(100)),
    (Ask::Covariance(b'X', b'X'), Told::Point(1)),
];

// Of S = A + B, where A has the standard uncertainty 1 with 5 degrees of freedom, and B 2 with 10: the variance is 5, the
// degrees are 13.88.., and the factor for 13 is 2.16. The expanded uncertainty is 4.83, and the estimate 2 is inside the limit
// 4 of T, and outside the limit 1 of U, by less than that.
const SUM: [(Ask, Told); 7] = [
    (Ask::Variance(b'S'), Told::Point(5)),
    (Ask::Degrees(b'S'), Told::Degrees(13)),
    (Ask::Report(b'S'), Told::Rounded(20, 22, -1)),
    (Ask::Expanded(b'S'), Told::WithFactor(20, 48, -1, 216)),
    (Ask::Decide(b'S', b'T'), Told::Said(Said::ConditionalPass)),
    (Ask::Decide(b'S', b'U'), Told::Said(Said::ConditionalFail)),
    (Ask::Budget(b'S'), Told::Lines(4, 5)),
];

// Of Y = 1/(5-X) and Z = 1/(X-5) with X = 5, and of G = 10^9 with an uncertainty as great: which fault stands first.
const FAULTS: [(Ask, Told); 5] = [
    (Ask::Covariance(b'Y', b'Z'), Told::Fault(b'Y')),
    (Ask::Covariance(b'Z', b'Y'), Told::Fault(b'Z')),
    (Ask::Correlation(b'G', b'Y'), Told::Fault(b'Y')),
    (Ask::Variance(b'G'), Told::LawOverflow),
    (Ask::Degrees(b'G'), Told::LawOverflow),
];

// The row of an input with a standard uncertainty.
fn measured(byte: u8, estimate: i64, u: i64, dof: Dof) -> Option<Row>
    ensures { IfSome result (λ row. IsRegular (row_of row)) }
{
    let shape = Shape::Std { u: Dec::new(u, 0)? };
    if check(&shape).is_err() || !are_degrees(&dof) {
        return None;
    }
    Some(Row::Given {
        name: letter(byte)?,
        estimate: Dec::new(estimate, 0)?,
        shape,
        dof,
    })
}

// The row of a tolerance with this upper limit and a guard band of one expanded uncertainty.
fn tolerance(byte: u8, upper: i32) -> Option<Row>
    ensures { IfSome result (λ row. IsRegular (row_of row)) }
{
    Some(Row::Tolerance {
        name: letter(byte)?,
        rule: Rule {
            lower: None,
            upper: Some(Dec::whole(upper)),
            guard: Dec::whole(1),
            form: Form::Four,
        },
    })
}

fn query_of(ask: Ask) -> Option<Query> {
    let query = match ask {
        Ask::Variance(y) => Query::Variance(letter(y)?),
        Ask::Covariance(y, z) => Query::Covariance(letter(y)?, letter(z)?),
        Ask::Correlation(y, z) => Query::Correlation(letter(y)?, letter(z)?),
        Ask::Degrees(y) => Query::Degrees(letter(y)?),
        Ask::Report(y) => Query::Report(letter(y)?),
        Ask::Expanded(y) => Query::Expanded(letter(y)?, Level::L95),
        Ask::Decide(y, t) => Query::Decide(letter(y)?, letter(t)?, Level::L95),
        Ask::Budget(y) => Query::Budget(letter(y)?),
    };
    Some(query)
}

fn of_answer(answer: Result<Answer, AskFault>) -> Told {
    match &answer {
        Ok(Answer::Variance(_, span) | Answer::Covariance(_, _, span)) => {
            if span.lo() != span.hi() || span.lo().places() != 0 {
                return Told::Other;
            }
            Told::Point(span.lo().coefficient())
        }
        Ok(Answer::Correlation(_, _, CorrSaid::Hundredths(d))) => Told::Hundredths(*d),
        Ok(Answer::Degrees(_, DofSaid::Whole(nu))) => Told::Degrees(*nu),
        Ok(Answer::Report(_, Reported::Rounded { estimate, m, e })) => {
            Told::Rounded(*estimate, *m, *e)
        }
        Ok(Answer::Expanded(_, Reported::Rounded { estimate, m, e }, k)) => {
            Told::WithFactor(*estimate, *m, *e, k.coefficient())
        }
        Ok(Answer::Decision(_, _, said)) => Told::Said(*said),
        Ok(Answer::Budget(lines, _, variance)) => {
            Told::Lines(lines.as_slice().len(), variance.lo().coefficient())
        }
        Ok(Answer::ValueFault(_, row)) => Told::Fault(of_letter(row)),
        Ok(Answer::LawOverflow) => Told::LawOverflow,
        _ => Told::Other,
    }
}

fn add(session: &mut Session, row: Row) -> Result<(), Fail>
    requires { IsRegular (row_of row) }
{
    match session.edit(Edit::Add(row)) {
        Ok(()) => Ok(()),
        Err(_) => Err("not added")?,
    }
}

fn ask_all<L: Ledger>(
    rt: &impl Abort,
    session: &mut Session,
    rows: &[(Ask, Told)],
    steps: &mut Steps<L>,
) -> Result<(), Fail> {
    for (ask, wanted) in rows {
        let query = query_of(*ask).ok_or("no name")?;
        assert_eq!(rt; of_answer(session.ask(&query, steps)), *wanted);
    }
    Ok(())
}

fn shared(alloc: Global) -> Result<Session, Fail> {
    let mut session = Session::new(alloc)?;
    add(
        &mut session,
        measured(b'X', 5, 1, Dof::Inf).ok_or("no row")?,
    )?;
    add(&mut session, formula_row(alloc, b'A', b"X*2")?)?;
    add(&mut session, formula_row(alloc, b'B', b"X*3")?)?;
    Ok(session)
}

fn sum(alloc: Global) -> Result<Session, Fail> {
    let mut session = Session::new(alloc)?;
    add(
        &mut session,
        measured(b'A', 1, 1, Dof::Whole(5)).ok_or("no row")?,
    )?;
    add(
        &mut session,
        measured(b'B', 1, 2, Dof::Whole(10)).ok_or("no row")?,
    )?;
    add(&mut session, formula_row(alloc, b'S', b"A+B")?)?;
    add(&mut session, tolerance(b'T', 4).ok_or("no row")?)?;
    add(&mut session, tolerance(b'U', 1).ok_or("no row")?)?;
    Ok(session)
}

fn faults(alloc: Global) -> Result<Session, Fail> {
    let mut session = Session::new(alloc)?;
    let great = 1_000_000_000;
    add(
        &mut session,
        measured(b'X', 5, 1, Dof::Inf).ok_or("no row")?,
    )?;
    add(&mut session, formula_row(alloc, b'Y', b"1/(5-X)")?)?;
    add(&mut session, formula_row(alloc, b'Z', b"1/(X-5)")?)?;
    add(
        &mut session,
        measured(b'G', great, great, Dof::Inf).ok_or("no row")?,
    )?;
    Ok(session)
}

fn run_all<L: Ledger>(rt: &impl Abort, alloc: Global, blank: Blank) -> Result<(), Fail>
    requires name { blank.name ≡ L.name }
    requires parts { blank.parts ≡ L.parts }
    requires one { L.parts ≡ 1 }
{
    let mut steps: Steps<L> = Steps::new(blank);
    let mut session = shared(alloc)?;
    ask_all(rt, &mut session, &SHARED, &mut steps)?;
    let mut session = sum(alloc)?;
    ask_all(rt, &mut session, &SUM, &mut steps)?;
    let mut session = faults(alloc)?;
    ask_all(rt, &mut session, &FAULTS, &mut steps)
}

#[test]
fn replies_follow_the_law(rt: HostRuntime) -> Result<(), Fail> {
    run_all::<Brand>(&rt, rt.alloc(), Blank::new(1))
}
