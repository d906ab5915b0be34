ghost use Rattle.std.specs.Prelude.{◌≡◌, List, ℕ, Option, true, bytes_eq};
ghost use Rattle.std.specs.Option.{ok_or};
ghost use Rattle.budget_table.specs.Budgets.{budget_lines};
ghost use Rattle.covariance.specs.Gradients.{found_at};
ghost use Rattle.covariance.specs.Groups.{IsRegular, group_of};
ghost use Rattle.adjoint_pass.specs.Sensitivities.{gradient_of};
ghost use Rattle.answers.specs.declared.command.Query.TheVariants.{Budget as AskBudget};
ghost use Rattle.sheet_rows.specs.Sheets.{has_quantity};
ghost use Rattle.sheet_model.specs.Quantities.{quantities};
ghost use Rattle.edit_session.specs.Replies.{answer_in, in_range, input_in, inputs_in, part_by, parts_in};
ghost use Rattle.edit_session.specs.Asking.{AddsTo, AreGroupsIn, Finds, IsAsked, IsGradientIn, IsStillAsked};

use crate::asked::Asked;
use crate::budget_parts::{InputList, PartList};
use crate::law::variance_of;
use crate::stop::Stop;
use answers::Answer;
use budget_table::{BudgetFault, BudgetInput, BudgetLines, GroupPart, budget};
use covariance::{Gradient, Group, GroupList, group_variance, meets};
use fixed_interval::{Span, Steps};
use formula_ast::Name;
use sheet_edits::Sheet;
use sheet_model::{InputVariance, group_names, input_variances};
use std::alloc::Global;
use std::sync::ledger::Ledger;

/// The uncertainty budget of a quantity of the sheet (JCGM 100:2008, 5.1.3). It goes once through the inputs and once
/// through the groups of the sheet.
pub(crate) fn budget_answer<L: Ledger>(
    alloc: Global,
    sheet: &Sheet,
    y: Name,
    steps: &mut Steps<L>,
) -> Result<Answer, Stop>
    requires { has_quantity sheet.now y ≡ true }
    ensures { Finds result (answer_in sheet.now (AskBudget y)) }
{
    let mut asked = Asked::new(alloc, sheet)?;
    let _value = asked.value(&y, steps)?;
    let gradient = asked.gradient(&y, steps)?;
    let groups = asked.groups()?;
    let variance = variance_of(&groups, &gradient, steps)?;
    let inputs = inputs_of(alloc, &mut asked, &gradient, steps)?;
    let parts = parts_of(alloc, sheet, &groups, &gradient, steps)?;
    let lines = lines_of(alloc, &inputs, &parts, steps)?;
    Ok(Answer::Budget(lines, y, variance))
}

// The inputs on which a quantity with this gradient depends.
fn inputs_of<L: Ledger>(
    alloc: Global,
    asked: &mut Asked<'_>,
    y: &Gradient,
    steps: &mut Steps<L>,
) -> Result<InputList, Stop>
    requires { IsAsked asked.old }
    ensures { (n : List ℕ) → IsGradientIn asked.old.sheet.now n y.now
        → Finds result (inputs_in asked.old.sheet.now (gradient_of bytes_eq (quantities asked.old.sheet.now) n)) }
{
    let all = input_variances(alloc, asked.sheet.rows(), steps)?;
    let mut found = InputList::new(alloc)?;
    for input in all.as_slice() {
        add_input(asked, input, y, &mut found, steps)?;
    }
    Ok(found)
}

// Puts an input at the end, where the quantity depends on it.
fn add_input<L: Ledger>(
    asked: &mut Asked<'_>,
    input: &InputVariance,
    y: &Gradient,
    found: &mut InputList,
    steps: &mut Steps<L>,
) -> Result<(), Stop>
    requires asked { IsAsked asked.old }
    requires there { has_quantity asked.old.sheet.now input.now.name ≡ true }
    ensures asked { IsStillAsked asked.old asked.new }
    ensures found { (n : List ℕ) → IsGradientIn asked.old.sheet.now n y.now
        → AddsTo result found.old found.new (input_in asked.old.sheet.now (gradient_of bytes_eq (quantities asked.old.sheet.now) n) input.now) }
{
    let id = asked.numbered.number(&input.name);
    if !y.has(id) {
        return Ok(());
    }
    let value = asked.value(&input.name, steps)?;
    let variance = within(input.variance)?;
    found.push(BudgetInput {
        name: input.name,
        value,
        variance,
        sens: y.at(id),
    })?;
    Ok(())
}

// An interval that is there where the operations for it stay in the range of bounds.
fn within(span: Option<Span>) -> Result<Span, Stop>
    ensures { Finds result (in_range (ok_or span (record {}))) }
{
    match span {
        Some(span) => Ok(span),
        None => Err(Stop::Law),
    }
}

// The groups that meet the cone of a quantity with this gradient, under the names of their rows.
fn parts_of<L: Ledger>(
    alloc: Global,
    sheet: &Sheet,
    groups: &GroupList,
    y: &Gradient,
    steps: &mut Steps<L>,
) -> Result<PartList, Stop>
    requires { AreGroupsIn sheet.now groups.now }
    ensures { (n : List ℕ) → IsGradientIn sheet.now n y.now
        → Finds result (parts_in sheet.now (gradient_of bytes_eq (quantities sheet.now) n)) }
{
    let named = group_names(alloc, sheet.rows())?;
    let names = named.as_slice();
    let mut found = PartList::new(alloc)?;
    for (place, group) in groups.as_slice().iter().enumerate() {
        add_part(names[place], group, y, &mut found, steps)?;
    }
    Ok(found)
}

// Puts a group at the end, where it meets the cone.
fn add_part<L: Ledger>(
    name: Name,
    group: &Group,
    y: &Gradient,
    found: &mut PartList,
    steps: &mut Steps<L>,
) -> Result<(), Stop>
    requires { IsRegular (group_of group.now) }
    ensures { AddsTo result found.old found.new (part_by (found_at y.now) name (group_of group.now)) }
{
    if !meets(group, y) {
        return Ok(());
    }
    let variance = group_variance(group, y, steps)?;
    found.push(GroupPart { name, variance })?;
    Ok(())
}

// The lines of a budget.
fn lines_of<L: Ledger>(
    alloc: Global,
    inputs: &InputList,
    parts: &PartList,
    steps: &mut Steps<L>,
) -> Result<BudgetLines, Stop>
    ensures { Finds result (in_range (ok_or (budget_lines inputs.now parts.now) (record {}))) }
{
    match budget(alloc, inputs.as_slice(), parts.as_slice(), steps) {
        Ok(lines) => Ok(lines),
        Err(BudgetFault::Overflow) => Err(Stop::Law),
        Err(BudgetFault::OutOfMemory) => Err(Stop::OutOfMemory),
    }
}
