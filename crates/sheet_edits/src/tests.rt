ghost use Rattle.std.specs.Prelude.{◌≡◌, true, Ok, IfOk};
ghost use Rattle.formula_ast.specs.Names.{is_name, is_plain_name};
ghost use Rattle.formula_ast.specs.Printing.{print};
ghost use Rattle.formula_ast.specs.Reading.{reading_of};
ghost use Rattle.formula_ast.specs.Views.{tree_of};
ghost use Rattle.type_b.specs.Shapes.{HasDecimals};
ghost use Rattle.sheet_rows.specs.Rows.{row_of};
ghost use Rattle.sheet_rows.specs.Regular.{IsRegular};

use crate::Sheet;
use decimal18::Dec;
use formula_ast::{Formula, Name, read_formula};
use sheet_rows::{EditFault, Row};
use std::alloc::Global;
use std::process::Abort;
use std::rc::Rc;
use std::test::Fail;
use type_b::{Dof, Shape, are_degrees, check};

fn name_of(text: &str) -> Result<Name, &'static str>
    ensures { IfOk result (λ name. is_name name ≡ true) }
{
    Name::new(text.as_bytes()).ok_or("not a name")
}

fn plain(text: &str) -> Result<Name, &'static str>
    ensures { IfOk result (λ name. is_plain_name name ≡ true) }
{
    Name::plain(text.as_bytes()).ok_or("not a name")
}

fn given(name: &str, shape: Shape, dof: Dof) -> Result<Row, &'static str>
    requires { HasDecimals shape }
    ensures { IfOk result (λ row. IsRegular (row_of row)) }
{
    if check(&shape).is_err() || !are_degrees(&dof) {
        return Err("not an uncertainty");
    }
    Ok(Row::Given {
        name: plain(name)?,
        estimate: Dec::whole(1),
        shape,
        dof,
    })
}

// An exact input.
fn input(name: &str) -> Result<Row, &'static str>
    ensures { IfOk result (λ row. IsRegular (row_of row)) }
{
    given(name, Shape::Exact, Dof::Inf)
}

fn correlation(name: &str, first: &str, second: &str) -> Result<Row, &'static str>
    ensures { IfOk result (λ row. IsRegular (row_of row)) }
{
    Ok(Row::Correlation {
        name: plain(name)?,
        first: name_of(first)?,
        second: name_of(second)?,
        coefficient: Dec::whole(1),
    })
}

fn formula_of(alloc: Global, text: &str) -> Result<Formula, &'static str>
    ensures { IfOk result (λ f. reading_of (print (tree_of f)) ≡ Ok (tree_of f)) }
{
    match read_formula(alloc, text.as_bytes()) {
        Ok(formula) => Ok(formula),
        Err(_) => Err("not a formula"),
    }
}

fn function(alloc: Global, name: &str, text: &str) -> Result<Row, &'static str>
    ensures { IfOk result (λ row. IsRegular (row_of row)) }
{
    let name = plain(name)?;
    let formula = formula_of(alloc, text)?;
    match Rc::new(alloc, formula) {
        Ok(formula) => Ok(Row::Formula { name, formula }),
        Err(_) => Err("no memory"),
    }
}

// What the row of an edit is.
#[derive(Clone, Copy)]
enum What {
    Exact,
    Deviation,
    FiveDegrees,
    HalfWidth,
    By(&'static str),
    Of(&'static str, &'static str),
}

fn row_of(alloc: Global, name: &str, what: What) -> Result<Row, &'static str>
    ensures { IfOk result (λ row. IsRegular (row_of row)) }
{
    match what {
        What::Exact => input(name),
        What::Deviation => given(name, Shape::Std { u: Dec::whole(1) }, Dof::Inf),
        What::FiveDegrees => given(name, Shape::Std { u: Dec::whole(1) }, Dof::Whole(5)),
        What::HalfWidth => given(
            name,
            Shape::Rect {
                half: Dec::whole(1),
            },
            Dof::Inf,
        ),
        What::By(text) => function(alloc, name, text),
        What::Of(first, second) => correlation(name, first, second),
    }
}

#[derive(Clone, Copy)]
enum Kind {
    Add,
    Set,
    Remove,
}

#[derive(Clone, Copy)]
enum Outcome {
    Fine,
    Duplicate(&'static str),
    Unknown(&'static str),
    NotEarlier(&'static str),
    NotCorrelatable(&'static str),
    AlreadyCorrelated(&'static str),
    InUse(&'static str),
}

// An edit, the name of its row, what that is, what comes of the edit, and how many rows there are then.
type Case = (Kind, &'static str, What, Outcome, usize);

const CASES: [Case; 43] = [
    (
        Kind::Add,
        "A",
        What::By("A + 1"),
        Outcome::NotEarlier("A"),
        0,
    ),
    (Kind::Add, "A", What::By("B"), Outcome::Unknown("B"), 0),
    (Kind::Add, "A", What::Exact, Outcome::Fine, 1),
    (Kind::Add, "a", What::Exact, Outcome::Fine, 2),
    (Kind::Add, "A", What::Exact, Outcome::Duplicate("A"), 2),
    (Kind::Add, "A", What::By("Z"), Outcome::Duplicate("A"), 2),
    (Kind::Add, "B", What::By("A + a * A"), Outcome::Fine, 3),
    (Kind::Add, "C", What::By("-(B - B)^2"), Outcome::Fine, 4),
    (
        Kind::Add,
        "D",
        What::By("D + Z + Y"),
        Outcome::Unknown("Z"),
        4,
    ),
    (
        Kind::Add,
        "D",
        What::By("A + D"),
        Outcome::NotEarlier("D"),
        4,
    ),
    (Kind::Set, "Q", What::By("Z"), Outcome::Unknown("Q"), 4),
    (Kind::Set, "B", What::By("C + Q"), Outcome::Unknown("Q"), 4),
    (
        Kind::Set,
        "B",
        What::By("A + C + B"),
        Outcome::NotEarlier("C"),
        4,
    ),
    (Kind::Set, "A", What::By("a"), Outcome::NotEarlier("a"), 4),
    (Kind::Set, "A", What::By("2^3"), Outcome::Fine, 4),
    (Kind::Remove, "A", What::Exact, Outcome::InUse("B"), 4),
    (Kind::Set, "A", What::Exact, Outcome::Fine, 4),
    (Kind::Remove, "a", What::Exact, Outcome::InUse("B"), 4),
    (Kind::Remove, "B", What::Exact, Outcome::InUse("C"), 4),
    (Kind::Remove, "Q", What::Exact, Outcome::Unknown("Q"), 4),
    (Kind::Remove, "C", What::Exact, Outcome::Fine, 3),
    (Kind::Remove, "B", What::Exact, Outcome::Fine, 2),
    (Kind::Set, "a", What::By("A / 3"), Outcome::Fine, 2),
    (Kind::Remove, "A", What::Exact, Outcome::InUse("a"), 2),
    (Kind::Add, "G", What::HalfWidth, Outcome::Fine, 3),
    (Kind::Add, "B", What::Deviation, Outcome::Fine, 4),
    (Kind::Add, "C", What::Deviation, Outcome::Fine, 5),
    (
        Kind::Add,
        "P",
        What::Of("G", "B"),
        Outcome::NotCorrelatable("G"),
        5,
    ),
    (Kind::Add, "P", What::Of("B", "P"), Outcome::Unknown("P"), 5),
    (Kind::Add, "P", What::Of("B", "C"), Outcome::Fine, 6),
    (Kind::Add, "F", What::By("B * P"), Outcome::Unknown("P"), 6),
    (Kind::Add, "D", What::Deviation, Outcome::Fine, 7),
    (
        Kind::Add,
        "Q",
        What::Of("D", "C"),
        Outcome::AlreadyCorrelated("C"),
        7,
    ),
    (
        Kind::Add,
        "R",
        What::Of("D", "D"),
        Outcome::NotCorrelatable("D"),
        7,
    ),
    (Kind::Set, "C", What::FiveDegrees, Outcome::InUse("P"), 7),
    (Kind::Set, "P", What::Of("C", "B"), Outcome::Fine, 7),
    (
        Kind::Set,
        "P",
        What::Of("C", "D"),
        Outcome::NotEarlier("D"),
        7,
    ),
    (Kind::Add, "F", What::By("A + D"), Outcome::Fine, 8),
    (
        Kind::Set,
        "D",
        What::Of("B", "C"),
        Outcome::AlreadyCorrelated("B"),
        8,
    ),
    (Kind::Remove, "B", What::Exact, Outcome::InUse("P"), 8),
    (Kind::Remove, "P", What::Exact, Outcome::Fine, 7),
    (Kind::Set, "D", What::Of("B", "C"), Outcome::InUse("F"), 7),
    (Kind::Set, "C", What::FiveDegrees, Outcome::Fine, 7),
];

fn fault_of(outcome: Outcome) -> Result<Option<EditFault>, &'static str> {
    match outcome {
        Outcome::Fine => Ok(None),
        Outcome::Duplicate(name) => Ok(Some(EditFault::Duplicate(name_of(name)?))),
        Outcome::Unknown(name) => Ok(Some(EditFault::Unknown(name_of(name)?))),
        Outcome::NotEarlier(name) => Ok(Some(EditFault::NotEarlier(name_of(name)?))),
        Outcome::NotCorrelatable(name) => Ok(Some(EditFault::NotCorrelatable(name_of(name)?))),
        Outcome::AlreadyCorrelated(name) => Ok(Some(EditFault::AlreadyCorrelated(name_of(name)?))),
        Outcome::InUse(name) => Ok(Some(EditFault::InUse(name_of(name)?))),
    }
}

fn add(sheet: &mut Sheet, name: &str) -> Result<Option<EditFault>, &'static str> {
    Ok(sheet.try_add(input(name)?).err())
}

fn edit(
    sheet: &mut Sheet,
    alloc: Global,
    kind: Kind,
    name: &str,
    what: What,
) -> Result<Option<EditFault>, &'static str> {
    match kind {
        Kind::Add => Ok(sheet.try_add(row_of(alloc, name, what)?).err()),
        Kind::Set => Ok(sheet.try_set(row_of(alloc, name, what)?).err()),
        Kind::Remove => Ok(sheet.try_remove(&name_of(name)?).err()),
    }
}

// Whether the fault is the outcome.
fn is_outcome(fault: Option<EditFault>, outcome: Outcome) -> Result<bool, &'static str> {
    Ok(fault == fault_of(outcome)?)
}

fn run_cases(sheet: &mut Sheet, alloc: Global) -> Result<(), &'static str> {
    for (kind, name, what, outcome, rows) in CASES {
        let fault = edit(sheet, alloc, kind, name, what)?;
        if !is_outcome(fault, outcome)? {
            return Err("another outcome");
        }
        if sheet.len() != rows {
            return Err("another number of rows");
        }
    }
    Ok(())
}

// As `edit`, by the calls that hand out the sheet before: with the number of that sheet's rows, or of those that a refused
// edit leaves.
fn edit_with_copy(
    sheet: &mut Sheet,
    alloc: Global,
    kind: Kind,
    name: &str,
    what: What,
) -> Result<(Option<EditFault>, usize), &'static str> {
    let before = match kind {
        Kind::Add => sheet.try_add_with_copy(row_of(alloc, name, what)?),
        Kind::Set => sheet.try_set_with_copy(row_of(alloc, name, what)?),
        Kind::Remove => sheet.try_remove_with_copy(&name_of(name)?),
    };
    match before {
        Ok(before) => Ok((None, before.len())),
        Err(fault) => Ok((Some(fault), sheet.len())),
    }
}

fn run_cases_with_copies(sheet: &mut Sheet, alloc: Global) -> Result<(), &'static str> {
    for (kind, name, what, outcome, rows) in CASES {
        let len = sheet.len();
        let (fault, before) = edit_with_copy(sheet, alloc, kind, name, what)?;
        if !is_outcome(fault, outcome)? {
            return Err("another outcome");
        }
        if before != len || sheet.len() != rows {
            return Err("another number of rows");
        }
    }
    Ok(())
}

#[test]
fn accepted_edits_hand_out_the_sheet_before(rt: HostRuntime) -> Result<(), Fail> {
    let mut sheet = Sheet::new(rt.alloc())?;
    run_cases_with_copies(&mut sheet, rt.alloc())?;
    Ok(())
}

#[test]
fn refusals_leave_the_sheet(rt: HostRuntime) -> Result<(), Fail> {
    let mut sheet = Sheet::new(rt.alloc())?;
    run_cases(&mut sheet, rt.alloc())?;
    Ok(())
}

fn place(sheet: &Sheet, name: &str) -> Result<Option<usize>, &'static str> {
    Ok(sheet.place_of(&name_of(name)?))
}

// Adds an input whose name is a letter and a number.
fn add_numbered(
    sheet: &mut Sheet,
    alloc: Global,
    number: u16,
) -> Result<Option<EditFault>, &'static str> {
    let Ok(name) = format!(in alloc; "N{number}") else {
        return Err("no memory");
    };
    add(sheet, name.as_str())
}

fn fill(sheet: &mut Sheet, alloc: Global) -> Result<(), &'static str> {
    for number in 0..4096 {
        if add_numbered(sheet, alloc, number)? != None {
            return Err("refused");
        }
    }
    Ok(())
}

#[test]
fn a_sheet_has_a_last_row(rt: HostRuntime) -> Result<(), Fail> {
    let mut sheet = Sheet::new(rt.alloc())?;
    fill(&mut sheet, rt.alloc())?;
    let full = add_numbered(&mut sheet, rt.alloc(), 0)?;
    assert_eq!(rt; full, Some(EditFault::RowsFull));
    assert_eq!(rt; sheet.len(), 4096);
    assert_eq!(rt; place(&sheet, "N4095")?, Some(4095));
    Ok(())
}

// The place and the name that are handed out with a removed row, and the rows of a copy made before.
fn removal(sheet: &mut Sheet, name: &Name) -> Result<(usize, Name, usize), &'static str> {
    let Ok(copy) = sheet.copy() else {
        return Err("no memory");
    };
    let rows = copy.rows().len();
    let Ok((at, row)) = sheet.try_remove(name) else {
        return Err("refused");
    };
    Ok((at, *row.name(), rows))
}

fn name_at(sheet: &Sheet, at: usize) -> Option<Name> {
    match sheet.row_at(at) {
        Some(row) => Some(*row.name()),
        None => None,
    }
}

#[test]
fn a_removed_row_is_handed_out(rt: HostRuntime) -> Result<(), Fail> {
    let mut sheet = Sheet::new(rt.alloc())?;
    let (x, y) = (name_of("X")?, name_of("Y")?);
    for name in ["X", "Y"] {
        assert_eq!(rt; add(&mut sheet, name)?, None);
    }
    assert_eq!(rt; removal(&mut sheet, &x), Ok((0, x, 2)));
    assert_eq!(rt; (name_at(&sheet, 0), name_at(&sheet, 1)), (Some(y), None));
    Ok(())
}
