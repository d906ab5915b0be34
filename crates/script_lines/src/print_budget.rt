//! The text of a budget.

ghost use Rattle.std.specs.Prelude.{◌≡◌, ◌++◌, OnOk, codes};
ghost use Rattle.answers.specs.declared.reply.Answer.{Answer};
ghost use Rattle.script_lines.specs.Texts.{asked_of, text_of_ends, text_of_span, text_of_budget_line, text_of_budget_lines, text_of_answer};

use crate::print_result::{put_asked, put_ends, put_span};
use budget_table::BudgetLine;
use fixed_interval::Span;
use formula_ast::Name;
use line_text::{Bytes, OutOfMemory};

/// Puts a line of a budget at the end.
fn put_budget_line(text: &mut Bytes, line: &BudgetLine) -> Result<(), OutOfMemory>
    ensures { OnOk result (text.new ≡ text.old ++ text_of_budget_line line.now) }
{
    match line {
        BudgetLine::Input {
            name,
            value,
            variance,
            sens,
            own,
        } => {
            put_asked(text, b"input", name)?;
            text.extend_from_slice(b" value")?;
            put_ends(text, value)?;
            text.extend_from_slice(b" var")?;
            put_ends(text, variance)?;
            text.extend_from_slice(b" sens")?;
            put_ends(text, sens)?;
            text.extend_from_slice(b" own")?;
            put_span(text, own)
        }
        BudgetLine::Group { name, variance } => {
            put_asked(text, b"group", name)?;
            put_span(text, variance)
        }
    }
}

/// Puts the lines of a budget at the end.
fn put_budget_lines(text: &mut Bytes, lines: &[BudgetLine]) -> Result<(), OutOfMemory>
    ensures { OnOk result (text.new ≡ text.old ++ text_of_budget_lines lines.now) }
{
    for line in lines {
        put_budget_line(text, line)?;
    }
    Ok(())
}

/// Puts the lines of a budget, and then the variance of its quantity, at the end.
pub(crate) fn put_budget(
    text: &mut Bytes,
    lines: &[BudgetLine],
    name: &Name,
    variance: &Span,
) -> Result<(), OutOfMemory>
    ensures { OnOk result (text.new ≡ text.old ++ text_of_answer (Answer.Budget lines.now name.now variance.now)) }
{
    put_budget_lines(text, lines)?;
    put_asked(text, b"budget", name)?;
    put_span(text, variance)
}
