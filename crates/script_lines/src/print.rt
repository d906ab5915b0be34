ghost use Rattle.std.specs.Prelude.{◌≡◌, ◌++◌, map, IfOk, OnOk};
ghost use Rattle.sheet_rows.specs.Rows.{row_of};
ghost use Rattle.sheet_rows.specs.Regular.{AreRegular};
ghost use Rattle.answers.specs.Replies.{IsRegularAnswer, IsRegularReply};
ghost use Rattle.script_lines.specs.Texts.{arithmetic_words, text_of_rows, text_of_answer, text_of_reply, SaysOutOfMemory};

use crate::print_budget::put_budget;
use crate::print_fault::{
    put_ask_fault, put_edit_fault, put_history_fault, put_line_fault, put_mark_fault, put_named,
};
use crate::print_result::{
    put_correlation, put_decision, put_degrees, put_expanded, put_report, put_span_of,
    put_span_of_two,
};
use answers::{Answer, Reply};
use fixed_interval::ArithFault;
use line_text::{Bytes, OutOfMemory};
use row_text::put_row;
use sheet_rows::Row;
use std::alloc::Global;
use std::rc::Rc;

/// The words of a fault; the row in which it arose is written after them.
fn arithmetic_words(fault: &ArithFault) -> &'static [u8]
    ensures { result.now ≡ arithmetic_words fault.now }
{
    match fault {
        ArithFault::ZeroDivisor => b"fault zero_divisor ",
        ArithFault::Overflow => b"fault overflow ",
    }
}

/// Puts the rows at the end, a line each.
fn put_rows(text: &mut Bytes, rows: &[Rc<Row>]) -> Result<(), OutOfMemory>
    requires { AreRegular (map (λ row. row_of row.value) rows.now) }
    ensures { OnOk result (text.new ≡ text.old ++ text_of_rows (map (λ row. row_of row.value) rows.now)) }
{
    for row in rows {
        put_row(text, row)?;
        text.push(b'\n')?;
    }
    Ok(())
}

fn put_answer(text: &mut Bytes, answer: &Answer) -> Result<(), OutOfMemory>
    requires { IsRegularAnswer answer.now }
    ensures { OnOk result (text.new ≡ text.old ++ text_of_answer answer.now) }
{
    match answer {
        Answer::Value(name, span) => put_span_of(text, b"value", name, span),
        Answer::Variance(name, span) => put_span_of(text, b"var", name, span),
        Answer::Covariance(first, second, span) => {
            put_span_of_two(text, b"cov", first, second, span)
        }
        Answer::Correlation(first, second, said) => { put_correlation(text, first, second, said) }
        Answer::Sensitivity(name, input, span) => {
            put_span_of_two(text, b"sens", name, input, span)
        }
        Answer::Degrees(name, said) => put_degrees(text, name, said),
        Answer::Report(name, said) => put_report(text, name, said),
        Answer::Expanded(name, said, factor) => put_expanded(text, name, said, *factor),
        Answer::Decision(name, rule, said) => put_decision(text, name, rule, said),
        Answer::Budget(lines, name, variance) => {
            put_budget(text, lines.as_slice(), name, variance)
        }
        Answer::Dump(rows) => {
            put_rows(text, rows.as_slice())?;
            text.extend_from_slice(b"ok\n")
        }
        Answer::ValueFault(fault, row) => put_named(text, arithmetic_words(fault), row),
        Answer::LawOverflow => text.extend_from_slice(b"fault law_overflow\n"),
    }
}

/// Puts the text of a reply, of whole lines, at the end. A reply that says out of memory has none.
///
/// # Errors
///
/// [`OutOfMemory`] where there is no memory for the text.
pub fn put_reply(out: &mut Bytes, reply: &Reply) -> Result<(), OutOfMemory>
    requires told { SaysOutOfMemory reply.now → ⊥ }
    requires regular { IsRegularReply reply.now }
    ensures { OnOk result (out.new ≡ out.old ++ text_of_reply reply.now) }
{
    match reply {
        Reply::Fine => out.extend_from_slice(b"ok\n"),
        Reply::Line(fault) => put_line_fault(out, fault),
        Reply::Edit(fault) => put_edit_fault(out, fault),
        Reply::History(fault) => put_history_fault(out, fault),
        Reply::Mark(fault) => put_mark_fault(out, fault),
        Reply::Ask(fault) => put_ask_fault(out, fault),
        Reply::Said(answer) => put_answer(out, answer),
    }
}

/// The text of a reply, as [`put_reply`] puts it.
///
/// # Errors
///
/// [`OutOfMemory`] where there is no memory for the text.
pub fn print_reply(alloc: Global, reply: &Reply) -> Result<Bytes, OutOfMemory>
    requires told { SaysOutOfMemory reply.now → ⊥ }
    requires regular { IsRegularReply reply.now }
    ensures { IfOk result (λ text. text ≡ text_of_reply reply.now) }
{
    let mut text = Bytes::new(alloc)?;
    put_reply(&mut text, reply)?;
    Ok(text)
}
