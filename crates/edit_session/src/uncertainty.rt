ghost use Rattle.std.specs.Prelude.{◌≡◌, true};
ghost use Rattle.answers.specs.declared.command.Query.TheVariants.{Variance as AskVariance, Covariance as AskCovariance, Correlation as AskCorrelation, Degrees as AskDegrees, Report as AskReport, Expanded as AskExpanded};
ghost use Rattle.sheet_rows.specs.Sheets.{has_quantity};
ghost use Rattle.edit_session.specs.Replies.{answer_in};
ghost use Rattle.edit_session.specs.Asking.{Finds};

use crate::asked::{of_one, of_two};
use crate::law::{covariance_of, degrees_of, variance_of};
use crate::stop::Stop;
use answers::Answer;
use fixed_interval::Steps;
use formula_ast::Name;
use round_out::{correlation, expanded, reported};
use sheet_edits::Sheet;
use std::alloc::Global;
use std::sync::ledger::Ledger;
use table_g2::{Level, factor, said};

/// The variance of a quantity of the sheet.
pub(crate) fn variance_answer<L: Ledger>(
    alloc: Global,
    sheet: &Sheet,
    y: Name,
    steps: &mut Steps<L>,
) -> Result<Answer, Stop>
    requires { has_quantity sheet.now y ≡ true }
    ensures { Finds result (answer_in sheet.now (AskVariance y)) }
{
    let one = of_one(alloc, sheet, &y, steps)?;
    let variance = variance_of(&one.groups, &one.gradient, steps)?;
    Ok(Answer::Variance(y, variance))
}

/// The covariance of two quantities of the sheet.
pub(crate) fn covariance_answer<L: Ledger>(
    alloc: Global,
    sheet: &Sheet,
    y: Name,
    z: Name,
    steps: &mut Steps<L>,
) -> Result<Answer, Stop>
    requires first { has_quantity sheet.now y ≡ true }
    requires second { has_quantity sheet.now z ≡ true }
    ensures { Finds result (answer_in sheet.now (AskCovariance y z)) }
{
    let two = of_two(alloc, sheet, &y, &z, steps)?;
    let covariance = covariance_of(&two.groups, &two.first, &two.second, steps)?;
    Ok(Answer::Covariance(y, z, covariance))
}

/// The correlation coefficient of two quantities of the sheet.
pub(crate) fn correlation_answer<L: Ledger>(
    alloc: Global,
    sheet: &Sheet,
    y: Name,
    z: Name,
    steps: &mut Steps<L>,
) -> Result<Answer, Stop>
    requires first { has_quantity sheet.now y ≡ true }
    requires second { has_quantity sheet.now z ≡ true }
    ensures { Finds result (answer_in sheet.now (AskCorrelation y z)) }
{
    let two = of_two(alloc, sheet, &y, &z, steps)?;
    let covariance = covariance_of(&two.groups, &two.first, &two.second, steps)?;
    let first = variance_of(&two.groups, &two.first, steps)?;
    let second = variance_of(&two.groups, &two.second, steps)?;
    let said = correlation(&covariance, &first, &second, steps)?;
    Ok(Answer::Correlation(y, z, said))
}

/// The effective degrees of freedom of a quantity of the sheet.
pub(crate) fn degrees_answer<L: Ledger>(
    alloc: Global,
    sheet: &Sheet,
    y: Name,
    steps: &mut Steps<L>,
) -> Result<Answer, Stop>
    requires { has_quantity sheet.now y ≡ true }
    ensures { Finds result (answer_in sheet.now (AskDegrees y)) }
{
    let one = of_one(alloc, sheet, &y, steps)?;
    let nu = degrees_of(alloc, &one.groups, &one.gradient, steps)?;
    Ok(Answer::Degrees(y, said(&nu)))
}

/// A quantity of the sheet with its combined standard uncertainty, as it is reported.
pub(crate) fn report_answer<L: Ledger>(
    alloc: Global,
    sheet: &Sheet,
    y: Name,
    steps: &mut Steps<L>,
) -> Result<Answer, Stop>
    requires { has_quantity sheet.now y ≡ true }
    ensures { Finds result (answer_in sheet.now (AskReport y)) }
{
    let one = of_one(alloc, sheet, &y, steps)?;
    let variance = variance_of(&one.groups, &one.gradient, steps)?;
    Ok(Answer::Report(y, reported(&one.value, &variance)))
}

/// A quantity of the sheet with its expanded uncertainty at a level of confidence, as it is reported.
pub(crate) fn expanded_answer<L: Ledger>(
    alloc: Global,
    sheet: &Sheet,
    y: Name,
    level: Level,
    steps: &mut Steps<L>,
) -> Result<Answer, Stop>
    requires { has_quantity sheet.now y ≡ true }
    ensures { Finds result (answer_in sheet.now (AskExpanded y level)) }
{
    let one = of_one(alloc, sheet, &y, steps)?;
    let nu = degrees_of(alloc, &one.groups, &one.gradient, steps)?;
    let variance = variance_of(&one.groups, &one.gradient, steps)?;
    let k = factor(&nu, level, steps);
    let reported = expanded(&one.value, &variance, &k, steps)?;
    Ok(Answer::Expanded(y, reported, k.lo()))
}
