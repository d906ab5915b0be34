ghost use Rattle.std.specs.Prelude.{◌≡◌, true};
ghost use Rattle.answers.specs.declared.command.Query.TheVariants.{Decide as AskDecide};
ghost use Rattle.sheet_rows.specs.Sheets.{has_quantity, has_rule};
ghost use Rattle.edit_session.specs.Replies.{answer_in};
ghost use Rattle.edit_session.specs.Asking.{Finds};

use crate::asked::of_one;
use crate::law::{degrees_of, variance_of};
use crate::stop::Stop;
use answers::Answer;
use fixed_interval::Steps;
use formula_ast::Name;
use guard_band::statement;
use sheet_edits::Sheet;
use std::alloc::Global;
use std::sync::ledger::Ledger;
use table_g2::{Level, factor};

/// The statement of conformity (ILAC-G8:09/2019, 4.2.2, 4.2.3) on a quantity of the sheet by the rule of a tolerance, whose
/// guard band is a number of expanded uncertainties at a level of confidence.
pub(crate) fn decide_answer<L: Ledger>(
    alloc: Global,
    sheet: &Sheet,
    y: Name,
    t: Name,
    level: Level,
    steps: &mut Steps<L>,
) -> Result<Answer, Stop>
    requires quantity { has_quantity sheet.now y ≡ true }
    requires rule { has_rule sheet.now t ≡ true }
    ensures { Finds result (answer_in sheet.now (AskDecide y t level)) }
{
    let rule = sheet.rule(&t).unwrap();
    let one = of_one(alloc, sheet, &y, steps)?;
    let nu = degrees_of(alloc, &one.groups, &one.gradient, steps)?;
    let variance = variance_of(&one.groups, &one.gradient, steps)?;
    let k = factor(&nu, level, steps);
    let said = statement(&one.value, &variance, &k, &rule, steps)?;
    Ok(Answer::Decision(y, t, said))
}
