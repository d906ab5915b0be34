ghost use Rattle.std.specs.Prelude.{◌≡◌, ◌+◌, ◌*◌, ◌≤◌, ◌++◌, map, length, None, Some, Err, IfOk, IfErr, OnOk, All};
ghost use Rattle.std.specs.Option.{ok_or, option_map};
ghost use Rattle.budget_table.specs.Budgets.{EnclosesOwn, budget_lines, group_line, input_line, input_lines};

use crate::fault::BudgetFault;
use crate::line::BudgetLine;
use crate::line_list::BudgetLines;
use crate::part::{BudgetInput, GroupPart};
use fixed_interval::{Overflow, Steps, mul, sqr};
use std::alloc::Global;
use std::sync::ledger::Ledger;

// The line of an input.
fn input_line<L: Ledger>(input: &BudgetInput, steps: &mut Steps<L>) -> Result<BudgetLine, Overflow>
    ensures line { result ≡ ok_or (input_line input.now) (record {}) }
    ensures ticks { steps.new ≤ steps.old + 2 }
{
    let BudgetInput {
        name,
        value,
        variance,
        sens,
    } = *input;
    let square = sqr(&sens, steps)?;
    let own = mul(&square, &variance, steps)?;
    Ok(BudgetLine::Input {
        name,
        value,
        variance,
        sens,
        own,
    })
}

// The line of a group.
fn group_line(group: &GroupPart) -> BudgetLine
    ensures { result ≡ group_line group.now }
{
    BudgetLine::Group {
        name: group.name,
        variance: group.variance,
    }
}

// Puts the lines of the inputs at the end.
fn put_inputs<L: Ledger>(
    lines: &mut BudgetLines,
    inputs: &[BudgetInput],
    steps: &mut Steps<L>,
) -> Result<(), BudgetFault>
    ensures ok { OnOk result (option_map (λ more. lines.old ++ more) (input_lines inputs.now) ≡ Some lines.new) }
    ensures overflow { result ≡ Err BudgetFault.Overflow → input_lines inputs.now ≡ None }
    ensures ticks { steps.new ≤ steps.old + 2 * length inputs.now }
{
    for input in inputs {
        let Ok(line) = input_line(input, steps) else {
            return Err(BudgetFault::Overflow);
        };
        if lines.push(line).is_err() {
            return Err(BudgetFault::OutOfMemory);
        }
    }
    Ok(())
}

// Puts the lines of the groups at the end.
fn put_groups(lines: &mut BudgetLines, groups: &[GroupPart]) -> Result<(), BudgetFault>
    ensures ok { OnOk result (lines.new ≡ lines.old ++ map group_line groups.now) }
    ensures err { IfErr result (λ fault. fault ≡ BudgetFault.OutOfMemory) }
{
    for group in groups {
        if lines.push(group_line(group)).is_err() {
            return Err(BudgetFault::OutOfMemory);
        }
    }
    Ok(())
}

/// The budget of a quantity: a line for each of its inputs, in order, with what the input brings to the variance (JCGM
/// 100:2008, 5.1.3), and then a line for each of the groups, in order. It ticks at most twice for each input.
///
/// # Errors
///
/// [`BudgetFault::Overflow`] where what an input brings to the variance leaves the range of bounds, and only there: then
/// there is never an answer. [`BudgetFault::OutOfMemory`] where there is no memory for the lines.
#[tactic(auto, unfolding(crate::specs::Budgets::budget_lines))]
pub fn budget<L: Ledger>(
    alloc: Global,
    inputs: &[BudgetInput],
    groups: &[GroupPart],
    steps: &mut Steps<L>,
) -> Result<BudgetLines, BudgetFault>
    ensures exact { IfOk result (λ lines. budget_lines inputs.now groups.now ≡ Some lines) }
    ensures overflow { result ≡ Err BudgetFault.Overflow → budget_lines inputs.now groups.now ≡ None }
    ensures encloses { IfOk result (λ lines. All EnclosesOwn lines) }
    ensures ticks { steps.new ≤ steps.old + 2 * length inputs.now }
{
    let Ok(mut lines) = BudgetLines::new(alloc) else {
        return Err(BudgetFault::OutOfMemory);
    };
    put_inputs(&mut lines, inputs, steps)?;
    put_groups(&mut lines, groups)?;
    Ok(lines)
}
