ghost use Rattle.std.specs.Prelude.{◌≡◌, true, None, IfOk, OnOk, Option};
ghost use Rattle.sheet_rows.specs.Regular.{AreRegular};
ghost use Rattle.sheet_rows.specs.Sheets.{has_quantity, has_input, has_rule};
ghost use Rattle.answers.specs.declared.command.Query.TheVariants.{Value as AskValue, Sensitivity as AskSensitivity};
ghost use Rattle.answers.specs.Replies.{IsRegularAnswer};
ghost use Rattle.answers.specs.declared.reply.Reply.{Reply};
ghost use Rattle.edit_session.specs.Replies.{answer_in, reply_to, unknown_result, unless_there};
ghost use Rattle.edit_session.specs.Sound.{IsSoundAnswer};
ghost use Rattle.edit_session.specs.Calls.{IsAskReply, RepliesWith};
ghost use Rattle.edit_session.specs.Asking.{Finds};

use crate::asked::Asked;
use crate::budget::budget_answer;
use crate::statement::decide_answer;
use crate::stop::Stop;
use crate::uncertainty::{
    correlation_answer, covariance_answer, degrees_answer, expanded_answer, report_answer,
    variance_answer,
};
use answers::{Answer, AskFault, Query};
use fixed_interval::Steps;
use formula_ast::Name;
use line_text::OutOfMemory;
use sheet_edits::Sheet;
use sheet_rows::RowList;
use std::alloc::Global;
use std::sync::ledger::Ledger;

/// Asks a sheet.
///
/// # Errors
///
/// [`AskFault::NoSuchResult`] exactly where the query names no quantity of the sheet, or no input or tolerance where it
/// asks for one, with the first such name; or out of memory.
pub(crate) fn ask_sheet<L: Ledger>(
    alloc: Global,
    sheet: &Sheet,
    query: &Query,
    steps: &mut Steps<L>,
) -> Result<Answer, AskFault>
    ensures reply { (reply : Option Reply) → IsAskReply result reply → RepliesWith reply (reply_to sheet.now query.now) }
    ensures sound { IfOk result (IsSoundAnswer sheet.now query.now) }
    ensures regular { IfOk result IsRegularAnswer }
{
    if let Some(name) = unknown_result(sheet, query) {
        return Err(AskFault::NoSuchResult(name));
    }
    // The sheet stands, as the contract of `rows` says, so that what is found of it holds of its exact law.
    let _rows = sheet.rows();
    match answer(alloc, sheet, query, steps) {
        Ok(answer) => Ok(answer),
        Err(stop) => stop.answer(),
    }
}

// The first name in the query that is that of no result of the sheet.
fn unknown_result(sheet: &Sheet, query: &Query) -> Option<Name>
    ensures { result ≡ unknown_result sheet.now query.now }
{
    match query {
        Query::Value(y) => unknown_quantity(sheet, y),
        Query::Variance(y) => unknown_quantity(sheet, y),
        Query::Covariance(y, z) => unknown_of_two(sheet, y, z),
        Query::Correlation(y, z) => unknown_of_two(sheet, y, z),
        Query::Sensitivity(y, x) => unknown_or_no_input(sheet, y, x),
        Query::Degrees(y) => unknown_quantity(sheet, y),
        Query::Report(y) => unknown_quantity(sheet, y),
        Query::Expanded(y, _) => unknown_quantity(sheet, y),
        Query::Decide(y, t, _) => unknown_or_no_rule(sheet, y, t),
        Query::Budget(y) => unknown_quantity(sheet, y),
        Query::Dump => None,
    }
}

fn unknown_quantity(sheet: &Sheet, y: &Name) -> Option<Name>
    ensures { result ≡ unless_there (has_quantity sheet.now y.now) y.now None }
{
    if sheet.has_quantity(y) {
        return None;
    }
    Some(*y)
}

fn unknown_of_two(sheet: &Sheet, y: &Name, z: &Name) -> Option<Name>
    ensures { result ≡ unless_there (has_quantity sheet.now y.now) y.now (unless_there (has_quantity sheet.now z.now) z.now None) }
{
    if sheet.has_quantity(y) {
        return unknown_quantity(sheet, z);
    }
    Some(*y)
}

// The second name is to be that of an input.
fn unknown_or_no_input(sheet: &Sheet, y: &Name, x: &Name) -> Option<Name>
    ensures { result ≡ unless_there (has_quantity sheet.now y.now) y.now (unless_there (has_input sheet.now x.now) x.now None) }
{
    if !sheet.has_quantity(y) {
        return Some(*y);
    }
    if sheet.has_input(x) {
        return None;
    }
    Some(*x)
}

// The second name is to be that of a tolerance.
fn unknown_or_no_rule(sheet: &Sheet, y: &Name, t: &Name) -> Option<Name>
    ensures { result ≡ unless_there (has_quantity sheet.now y.now) y.now (unless_there (has_rule sheet.now t.now) t.now None) }
{
    if !sheet.has_quantity(y) {
        return Some(*y);
    }
    if sheet.rule(t).is_some() {
        return None;
    }
    Some(*t)
}

// The answer to a query whose names are those of results.
fn answer<L: Ledger>(
    alloc: Global,
    sheet: &Sheet,
    query: &Query,
    steps: &mut Steps<L>,
) -> Result<Answer, Stop>
    requires { unknown_result sheet.now query.now ≡ None }
    ensures { Finds result (answer_in sheet.now query.now) }
{
    match query {
        Query::Value(y) => value_answer(alloc, sheet, *y, steps),
        Query::Variance(y) => variance_answer(alloc, sheet, *y, steps),
        Query::Covariance(y, z) => covariance_answer(alloc, sheet, *y, *z, steps),
        Query::Correlation(y, z) => correlation_answer(alloc, sheet, *y, *z, steps),
        Query::Sensitivity(y, x) => sensitivity_answer(alloc, sheet, *y, *x, steps),
        Query::Degrees(y) => degrees_answer(alloc, sheet, *y, steps),
        Query::Report(y) => report_answer(alloc, sheet, *y, steps),
        Query::Expanded(y, level) => expanded_answer(alloc, sheet, *y, *level, steps),
        Query::Decide(y, t, level) => decide_answer(alloc, sheet, *y, *t, *level, steps),
        Query::Budget(y) => budget_answer(alloc, sheet, *y, steps),
        Query::Dump => {
            let rows = rows_of(alloc, sheet)?;
            Ok(Answer::Dump(rows))
        }
    }
}

// The value of a quantity of the sheet.
fn value_answer<L: Ledger>(
    alloc: Global,
    sheet: &Sheet,
    y: Name,
    steps: &mut Steps<L>,
) -> Result<Answer, Stop>
    requires { has_quantity sheet.now y ≡ true }
    ensures { Finds result (answer_in sheet.now (AskValue y)) }
{
    let mut asked = Asked::new(alloc, sheet)?;
    let value = asked.value(&y, steps)?;
    Ok(Answer::Value(y, value))
}

// The sensitivity of a quantity of the sheet to an input.
fn sensitivity_answer<L: Ledger>(
    alloc: Global,
    sheet: &Sheet,
    y: Name,
    x: Name,
    steps: &mut Steps<L>,
) -> Result<Answer, Stop>
    requires quantity { has_quantity sheet.now y ≡ true }
    requires input { has_input sheet.now x ≡ true }
    ensures { Finds result (answer_in sheet.now (AskSensitivity y x)) }
{
    let mut asked = Asked::new(alloc, sheet)?;
    let _value = asked.value(&y, steps)?;
    let gradient = asked.gradient(&y, steps)?;
    Ok(Answer::Sensitivity(y, x, gradient.at(asked.numbered.number(&x))))
}

// The rows of a sheet.
fn rows_of(alloc: Global, sheet: &Sheet) -> Result<RowList, OutOfMemory>
    ensures rows { IfOk result (λ rows. rows ≡ sheet.now.rows) }
    ensures regular { OnOk result (AreRegular sheet.now.rows) }
{
    let mut rows = RowList::new(alloc)?;
    for row in sheet.rows() {
        rows.push(row.clone()?)?;
    }
    Ok(rows)
}
