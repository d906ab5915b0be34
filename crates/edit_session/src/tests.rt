ghost use Rattle.std.specs.Prelude.{◌≡◌, true, Ok, IfOk, IfSome};
ghost use Rattle.formula_ast.specs.Names.{is_plain_name};
ghost use Rattle.formula_ast.specs.Printing.{print};
ghost use Rattle.formula_ast.specs.Reading.{reading_of};
ghost use Rattle.formula_ast.specs.Views.{tree_of};
ghost use Rattle.sheet_rows.specs.Rows.{row_of};
ghost use Rattle.sheet_rows.specs.Regular.{IsRegular};

use crate::Session;
use answers::{Answer, AskFault, Edit, HistoryFault, MarkFault, Query};
use decimal18::Dec;
use fixed_interval::Steps;
use formula_ast::{Formula, Name, read_formula};
use sheet_rows::{EditFault, Row, RowList};
use std::alloc::Global;
use std::marker::Brand;
use std::process::Abort;
use std::rc::Rc;
use std::sync::ledger::{Blank, Ledger};
use std::test::Fail;
use table_records::read_records;
use type_a::Readings;
use type_b::{Dof, Shape};

// A command; rows and marks are named by letters.
#[derive(Clone, Copy, Debug)]
enum Step {
    Add(u8, i64),
    Set(u8, i64),
    Remove(u8),
    Undo,
    Redo,
    Mark(u8),
    Restore(u8),
    // The lower end of the value.
    Value(u8),
    ValueAt(u8, u8),
    // The place among all rows.
    Place(u8),
}

// What comes of a command, with the names of refusals by their letters.
#[derive(Clone, Copy, Debug, PartialEq, Eq)]
enum Outcome {
    Done,
    // The lower end of a value, or a place.
    Number(i64),
    // An edit that the sheet refuses.
    Refused,
    NothingToUndo,
    NothingToRedo,
    MarksFull,
    NoMark(u8),
    NoSuchResult(u8),
    // Anything else, which no row of the tests wants.
    Other,
}

// Sixteen marks are kept.
const MARKS: [(Step, Outcome); 19] = [
    (Step::Mark(b'A'), Outcome::Done),
    (Step::Mark(b'B'), Outcome::Done),
    (Step::Mark(b'C'), Outcome::Done),
    (Step::Mark(b'D'), Outcome::Done),
    (Step::Mark(b'E'), Outcome::Done),
    (Step::Mark(b'F'), Outcome::Done),
    (Step::Mark(b'G'), Outcome::Done),
    (Step::Mark(b'H'), Outcome::Done),
    (Step::Mark(b'I'), Outcome::Done),
    (Step::Mark(b'J'), Outcome::Done),
    (Step::Mark(b'K'), Outcome::Done),
    (Step::Mark(b'L'), Outcome::Done),
    (Step::Mark(b'M'), Outcome::Done),
    (Step::Mark(b'N'), Outcome::Done),
    (Step::Mark(b'O'), Outcome::Done),
    (Step::Mark(b'P'), Outcome::Done),
    (Step::Mark(b'Q'), Outcome::MarksFull),
    (Step::Mark(b'C'), Outcome::Done),
    (Step::Restore(b'Q'), Outcome::NoMark(b'Q')),
];

// A mark sees no later edit, and the undo of a removal puts the row back at its place.
const EDITS: [(Step, Outcome); 17] = [
    (Step::Add(b'X', 5), Outcome::Done),
    (Step::Add(b'Z', 7), Outcome::Done),
    (Step::Mark(b'M'), Outcome::Done),
    (Step::Set(b'X', 6), Outcome::Done),
    (Step::ValueAt(b'M', b'X'), Outcome::Number(5)),
    (Step::ValueAt(b'N', b'X'), Outcome::NoMark(b'N')),
    (Step::Remove(b'X'), Outcome::Done),
    (Step::Place(b'Z'), Outcome::Number(0)),
    (Step::Undo, Outcome::Done),
    (Step::Place(b'Z'), Outcome::Number(1)),
    (Step::Value(b'X'), Outcome::Number(6)),
    (Step::Restore(b'M'), Outcome::Done),
    (Step::Redo, Outcome::NothingToRedo),
    (Step::Value(b'X'), Outcome::Number(5)),
    (Step::Undo, Outcome::Done),
    (Step::Value(b'X'), Outcome::Number(6)),
    (Step::Value(b'Y'), Outcome::NoSuchResult(b'Y')),
];

// A refused edit is no step: undo leads to the sheet before the last accepted edit, and redo back to the one after it.
const REFUSALS: [(Step, Outcome); 12] = [
    (Step::Add(b'X', 5), Outcome::Done),
    (Step::Set(b'X', 6), Outcome::Done),
    (Step::Add(b'X', 7), Outcome::Refused),
    (Step::Set(b'Y', 7), Outcome::Refused),
    (Step::Remove(b'Y'), Outcome::Refused),
    (Step::Value(b'X'), Outcome::Number(6)),
    (Step::Undo, Outcome::Done),
    (Step::Value(b'X'), Outcome::Number(5)),
    (Step::Set(b'Y', 7), Outcome::Refused),
    (Step::Redo, Outcome::Done),
    (Step::Value(b'X'), Outcome::Number(6)),
    (Step::Place(b'X'), Outcome::Number(0)),
];

// Names in queries for sensitivities, over the table T of A, whose mean is 2, and B, whose mean is 4, and the
// formula Y, which is T.A * T.B. The first name is looked for first.
const SLOPES: [(&str, &str, Outcome); 6] = [
    ("Y", "T.B", Outcome::Number(2)),
    ("Y", "T.A", Outcome::Number(4)),
    ("T.A", "T.B", Outcome::Number(0)),
    ("Y", "Y", Outcome::NoSuchResult(b'Y')),
    ("T", "R", Outcome::NoSuchResult(b'T')),
    ("Y", "T", Outcome::NoSuchResult(b'T')),
];

// What follows 256 settings and as many undos.
const LAST_UNDO: [(Step, Outcome); 4] = [
    (Step::Undo, Outcome::NothingToUndo),
    (Step::Value(b'X'), Outcome::Number(0)),
    (Step::Redo, Outcome::Done),
    (Step::Value(b'X'), Outcome::Number(1)),
];

pub(crate) fn letter(byte: u8) -> Option<Name>
    ensures { IfSome result (λ name. is_plain_name name ≡ true) }
{
    Name::plain(&[byte])
}

// The row of an exact input.
fn given(byte: u8, value: i64) -> Option<Row>
    ensures { IfSome result (λ row. IsRegular (row_of row)) }
{
    Some(Row::Given {
        name: letter(byte)?,
        estimate: Dec::new(value, 0)?,
        shape: Shape::Exact,
        dof: Dof::Inf,
    })
}

// The row of a table of two columns.
fn table(alloc: Global) -> Result<Row, Fail>
    ensures { IfOk result (λ row. IsRegular (row_of row)) }
{
    let name = letter(b'T').ok_or("no name")?;
    let Ok(records) = read_records(alloc, b"A,B\n1,3\n3,5\n") else {
        return Err("no table")?;
    };
    let Ok(readings) = Readings::new(alloc, records.rows.as_slice()) else {
        return Err("not taken")?;
    };
    Ok(Row::Joint {
        name,
        columns: records.columns,
        readings: Rc::new(alloc, readings)?,
    })
}

fn formula_of(alloc: Global, text: &[u8]) -> Result<Formula, &'static str>
    ensures { IfOk result (λ f. reading_of (print (tree_of f)) ≡ Ok (tree_of f)) }
{
    match read_formula(alloc, text) {
        Ok(formula) => Ok(formula),
        Err(_) => Err("not a formula"),
    }
}

// The row of a formula.
pub(crate) fn formula_row(alloc: Global, byte: u8, text: &[u8]) -> Result<Row, Fail>
    ensures { IfOk result (λ row. IsRegular (row_of row)) }
{
    let name = letter(byte).ok_or("no name")?;
    let formula = formula_of(alloc, text)?;
    Ok(Row::Formula {
        name,
        formula: Rc::new(alloc, formula)?,
    })
}

pub(crate) fn of_letter(name: &Name) -> u8 {
    match name.as_bytes() {
        [byte] => *byte,
        _ => b'?',
    }
}

fn of_edit(done: Result<(), EditFault>) -> Outcome {
    match done {
        Ok(()) => Outcome::Done,
        Err(EditFault::OutOfMemory) => Outcome::Other,
        Err(_) => Outcome::Refused,
    }
}

fn of_step(done: Result<(), HistoryFault>) -> Outcome {
    match done {
        Ok(()) => Outcome::Done,
        Err(HistoryFault::NothingToUndo) => Outcome::NothingToUndo,
        Err(HistoryFault::NothingToRedo) => Outcome::NothingToRedo,
        Err(HistoryFault::OutOfMemory) => Outcome::Other,
    }
}

fn of_mark(done: Result<(), MarkFault>) -> Outcome {
    match &done {
        Ok(()) => Outcome::Done,
        Err(MarkFault::MarksFull) => Outcome::MarksFull,
        Err(MarkFault::NoMark(name)) => Outcome::NoMark(of_letter(name)),
        Err(MarkFault::OutOfMemory) => Outcome::Other,
    }
}

// A value or a sensitivity by its lower end, and the rows by the place of `name` among them.
fn of_answer(answer: Result<Answer, AskFault>, name: &Name) -> Outcome {
    match &answer {
        Ok(Answer::Value(_, span)) => Outcome::Number(span.lo().coefficient()),
        Ok(Answer::Sensitivity(_, _, span)) => Outcome::Number(span.lo().coefficient()),
        Ok(Answer::Dump(rows)) => place_in(rows, name),
        Err(AskFault::NoMark(name)) => Outcome::NoMark(of_letter(name)),
        Err(AskFault::NoSuchResult(name)) => Outcome::NoSuchResult(of_letter(name)),
        Ok(_) | Err(AskFault::OutOfMemory) => Outcome::Other,
    }
}

fn place_in(rows: &RowList, name: &Name) -> Outcome {
    let place = rows.as_slice().iter().position(|row| row.name() == name);
    match place.map(i64::try_from) {
        Some(Ok(place)) => Outcome::Number(place),
        _ => Outcome::Other,
    }
}

fn outcome_of<L: Ledger>(
    session: &mut Session,
    step: Step,
    steps: &mut Steps<L>,
) -> Option<Outcome> {
    let outcome = match step {
        Step::Add(name, value) => of_edit(session.edit(Edit::Add(given(name, value)?))),
        Step::Set(name, value) => of_edit(session.edit(Edit::Set(given(name, value)?))),
        Step::Remove(name) => of_edit(session.edit(Edit::Remove(letter(name)?))),
        Step::Undo => of_step(session.undo()),
        Step::Redo => of_step(session.redo()),
        Step::Mark(name) => of_mark(session.mark(letter(name)?)),
        Step::Restore(name) => of_mark(session.restore(&letter(name)?)),
        Step::Value(name) => {
            let name = letter(name)?;
            of_answer(session.ask(&Query::Value(name), steps), &name)
        }
        Step::ValueAt(mark, name) => {
            let name = letter(name)?;
            of_answer(
                session.ask_at(&letter(mark)?, &Query::Value(name), steps),
                &name,
            )
        }
        Step::Place(name) => of_answer(session.ask(&Query::Dump, steps), &letter(name)?),
    };
    Some(outcome)
}

fn follow<L: Ledger>(
    rt: &impl Abort,
    session: &mut Session,
    rows: &[(Step, Outcome)],
    steps: &mut Steps<L>,
) {
    for (step, wanted) in rows {
        assert_eq!(rt; outcome_of(session, *step, steps), Some(*wanted));
    }
}

// Sets X to each number from 1 to 256, and goes as many steps back.
fn set_and_undo<L: Ledger>(rt: &impl Abort, session: &mut Session, steps: &mut Steps<L>) {
    for value in 1..257 {
        assert_eq!(rt;
            outcome_of(session, Step::Set(b'X', value), steps),
            Some(Outcome::Done)
        );
    }
    for _ in 0..256 {
        assert_eq!(rt; outcome_of(session, Step::Undo, steps), Some(Outcome::Done));
    }
}

fn run_all<L: Ledger>(rt: &impl Abort, alloc: Global, blank: Blank) -> Result<(), Fail>
    requires name { blank.name ≡ L.name }
    requires parts { blank.parts ≡ L.parts }
    requires one { L.parts ≡ 1 }
{
    let mut steps: Steps<L> = Steps::new(blank);
    let mut marked = Session::new(alloc)?;
    follow(rt, &mut marked, &MARKS, &mut steps);
    let mut edited = Session::new(alloc)?;
    follow(rt, &mut edited, &EDITS, &mut steps);
    let mut refused = Session::new(alloc)?;
    follow(rt, &mut refused, &REFUSALS, &mut steps);
    let mut session = Session::new(alloc)?;
    assert_eq!(rt;
        outcome_of(&mut session, Step::Add(b'X', 0), &mut steps),
        Some(Outcome::Done)
    );
    set_and_undo(rt, &mut session, &mut steps);
    follow(rt, &mut session, &LAST_UNDO, &mut steps);
    Ok(())
}

#[test]
fn sessions_keep_the_past_and_marks(rt: HostRuntime) -> Result<(), Fail> {
    run_all::<Brand>(&rt, rt.alloc(), Blank::new(1))
}

fn slopes<L: Ledger>(rt: &impl Abort, alloc: Global, blank: Blank) -> Result<(), Fail>
    requires name { blank.name ≡ L.name }
    requires parts { blank.parts ≡ L.parts }
    requires one { L.parts ≡ 1 }
{
    let mut steps: Steps<L> = Steps::new(blank);
    let mut session = Session::new(alloc)?;
    assert_eq!(rt;
        of_edit(session.edit(Edit::Add(table(alloc)?))),
        Outcome::Done
    );
    assert_eq!(rt;
        of_edit(session.edit(Edit::Add(formula_row(alloc, b'Y', b"T.A*T.B")?))),
        Outcome::Done
    );
    for (y, x, wanted) in SLOPES {
        let y = Name::new(y.as_bytes()).ok_or("no name")?;
        let x = Name::new(x.as_bytes()).ok_or("no name")?;
        let answer = session.ask(&Query::Sensitivity(y, x), &mut steps);
        assert_eq!(rt; of_answer(answer, &y), wanted);
    }
    Ok(())
}

#[test]
fn columns_of_tables_have_sensitivities(rt: HostRuntime) -> Result<(), Fail> {
    slopes::<Brand>(&rt, rt.alloc(), Blank::new(1))
}
