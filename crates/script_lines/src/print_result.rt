//! The texts of what is answered of quantities.

ghost use Rattle.std.specs.Prelude.{◌≡◌, ◌++◌, OnOk, codes};
ghost use Rattle.decimal18.specs.Text.{text_of};
ghost use Rattle.round_out.specs.Printed.{text_at};
ghost use Rattle.guard_band.specs.Statements.{number_of};
ghost use Rattle.answers.specs.declared.reply.Answer.{Answer};
ghost use Rattle.script_lines.specs.Texts.{asked_of, asked_of_two, text_of_ends, text_of_span, text_of_coefficient, text_of_degrees, text_of_reported, text_of_factor, text_of_statement, text_of_answer};

use decimal18::Dec;
use fixed_interval::Span;
use formula_ast::Name;
use guard_band::{Condition, Said};
use itoa::Buffer;
use line_text::{Bytes, OutOfMemory};
use round_out::{CorrSaid, Reported, put_at};
use table_g2::DofSaid;

/// Puts the word of a query, or of a line of its answer, and the name that stands after it at the end.
pub(crate) fn put_asked(text: &mut Bytes, word: &[u8], name: &Name) -> Result<(), OutOfMemory>
    ensures { OnOk result (text.new ≡ text.old ++ asked_of word.now name.now) }
{
    text.extend_from_slice(word)?;
    text.extend_from_slice(b" ")?;
    text.extend_from_slice(name.as_bytes())
}

/// Puts the word of a query and the two names that were asked for at the end.
fn put_asked_two(
    text: &mut Bytes,
    word: &[u8],
    first: &Name,
    second: &Name,
) -> Result<(), OutOfMemory>
    ensures { OnOk result (text.new ≡ text.old ++ asked_of_two word.now first.now second.now) }
{
    put_asked(text, word, first)?;
    text.extend_from_slice(b" ")?;
    text.extend_from_slice(second.as_bytes())
}

/// Puts the ends of an interval at the end.
pub(crate) fn put_ends(text: &mut Bytes, span: &Span) -> Result<(), OutOfMemory>
    ensures { OnOk result (text.new ≡ text.old ++ text_of_ends span.now) }
{
    text.extend_from_slice(b" ")?;
    span.lo().put(text)?;
    text.extend_from_slice(b" ")?;
    span.hi().put(text)
}

/// Puts the ends of an interval at the end, and ends the line.
pub(crate) fn put_span(text: &mut Bytes, span: &Span) -> Result<(), OutOfMemory>
    ensures { OnOk result (text.new ≡ text.old ++ text_of_span span.now) }
{
    put_ends(text, span)?;
    text.extend_from_slice(b"\n")
}

/// Puts an interval of a quantity at the end.
pub(crate) fn put_span_of(
    text: &mut Bytes,
    word: &[u8],
    name: &Name,
    span: &Span,
) -> Result<(), OutOfMemory>
    ensures { OnOk result (text.new ≡ text.old ++ asked_of word.now name.now ++ text_of_span span.now) }
{
    put_asked(text, word, name)?;
    put_span(text, span)
}

/// Puts an interval of two quantities, or of a quantity and an input, at the end.
pub(crate) fn put_span_of_two(
    text: &mut Bytes,
    word: &[u8],
    first: &Name,
    second: &Name,
    span: &Span,
) -> Result<(), OutOfMemory>
    ensures { OnOk result (text.new ≡ text.old ++ asked_of_two word.now first.now second.now ++ text_of_span span.now) }
{
    put_asked_two(text, word, first, second)?;
    put_span(text, span)
}

/// Puts what is said of a correlation coefficient at the end.
fn put_coefficient(text: &mut Bytes, said: &CorrSaid) -> Result<(), OutOfMemory>
    ensures { OnOk result (text.new ≡ text.old ++ text_of_coefficient said.now) }
{
    match said {
        CorrSaid::None => text.extend_from_slice(b"none"),
        CorrSaid::Unsettled => text.extend_from_slice(b"undecided"),
        CorrSaid::Hundredths(d) => put_at(text, *d as i128, -2),
    }
}

/// Puts the correlation coefficient of two quantities at the end.
pub(crate) fn put_correlation(
    text: &mut Bytes,
    first: &Name,
    second: &Name,
    said: &CorrSaid,
) -> Result<(), OutOfMemory>
    ensures { OnOk result (text.new ≡ text.old ++ text_of_answer (Answer.Correlation first.now second.now said.now)) }
{
    put_asked_two(text, b"r", first, second)?;
    text.extend_from_slice(b" ")?;
    put_coefficient(text, said)?;
    text.extend_from_slice(b"\n")
}

/// Puts what is said of degrees of freedom at the end.
fn put_said_degrees(text: &mut Bytes, said: &DofSaid) -> Result<(), OutOfMemory>
    ensures { OnOk result (text.new ≡ text.old ++ text_of_degrees said.now) }
{
    match said {
        DofSaid::None => text.extend_from_slice(b"none"),
        DofSaid::Infinite => text.extend_from_slice(b"inf"),
        DofSaid::Big => text.extend_from_slice(b"big"),
        DofSaid::Whole(w) => text.extend_from_slice(Buffer::new().format(*w).as_bytes()),
        DofSaid::Unsettled => text.extend_from_slice(b"undecided"),
    }
}

/// Puts the effective degrees of freedom of a quantity at the end.
pub(crate) fn put_degrees(text: &mut Bytes, name: &Name, said: &DofSaid) -> Result<(), OutOfMemory>
    ensures { OnOk result (text.new ≡ text.old ++ text_of_answer (Answer.Degrees name.now said.now)) }
{
    put_asked(text, b"dof", name)?;
    text.extend_from_slice(b" ")?;
    put_said_degrees(text, said)?;
    text.extend_from_slice(b"\n")
}

/// Puts an estimate and its uncertainty, which has this letter, at the end.
fn put_reported(text: &mut Bytes, letter: &[u8], said: &Reported) -> Result<(), OutOfMemory>
    ensures { OnOk result (text.new ≡ text.old ++ text_of_reported letter.now said.now) }
{
    match said {
        Reported::Exact(estimate) => {
            estimate.put(text)?;
            text.extend_from_slice(b" ")?;
            text.extend_from_slice(letter)?;
            text.extend_from_slice(b" 0")
        }
        Reported::Rounded { estimate, m, e } => {
            put_at(text, *estimate, *e)?;
            text.extend_from_slice(b" ")?;
            text.extend_from_slice(letter)?;
            text.extend_from_slice(b" ")?;
            put_at(text, *m as i128, *e)
        }
        Reported::Unsettled => text.extend_from_slice(b"undecided"),
    }
}

/// Puts a quantity and its standard uncertainty at the end.
pub(crate) fn put_report(text: &mut Bytes, name: &Name, said: &Reported) -> Result<(), OutOfMemory>
    ensures { OnOk result (text.new ≡ text.old ++ text_of_answer (Answer.Report name.now said.now)) }
{
    put_asked(text, b"report", name)?;
    text.extend_from_slice(b" ")?;
    put_reported(text, b"u", said)?;
    text.extend_from_slice(b"\n")
}

/// Puts the coverage factor of an expanded uncertainty at the end, where that is settled.
fn put_factor(text: &mut Bytes, said: &Reported, factor: Dec) -> Result<(), OutOfMemory>
    ensures { OnOk result (text.new ≡ text.old ++ text_of_factor said.now factor) }
{
    match said {
        Reported::Exact(_) | Reported::Rounded { .. } => {
            text.extend_from_slice(b" k ")?;
            factor.put(text)
        }
        Reported::Unsettled => Ok(()),
    }
}

/// Puts a quantity, its expanded uncertainty and the coverage factor at the end.
pub(crate) fn put_expanded(
    text: &mut Bytes,
    name: &Name,
    said: &Reported,
    factor: Dec,
) -> Result<(), OutOfMemory>
    ensures { OnOk result (text.new ≡ text.old ++ text_of_answer (Answer.Expanded name.now said.now factor)) }
{
    put_asked(text, b"expanded", name)?;
    text.extend_from_slice(b" ")?;
    put_reported(text, b"U", said)?;
    put_factor(text, said, factor)?;
    text.extend_from_slice(b"\n")
}

/// The number by which a statement names a condition of its rule.
fn number_of(condition: &Condition) -> u64
    ensures { result ≡ number_of condition.now }
{
    match condition {
        Condition::Guarded => 1,
        Condition::Inside => 2,
        Condition::Near => 3,
    }
}

/// Puts what is said of conformity at the end.
fn put_statement(text: &mut Bytes, said: &Said) -> Result<(), OutOfMemory>
    ensures { OnOk result (text.new ≡ text.old ++ text_of_statement said.now) }
{
    match said {
        Said::Pass => text.extend_from_slice(b"Pass"),
        Said::ConditionalPass => text.extend_from_slice(b"ConditionalPass"),
        Said::ConditionalFail => text.extend_from_slice(b"ConditionalFail"),
        Said::Fail => text.extend_from_slice(b"Fail"),
        Said::Undecided { first } => {
            text.extend_from_slice(b"Undecided ")?;
            text.extend_from_slice(Buffer::new().format(number_of(first)).as_bytes())
        }
    }
}

/// Puts the statement of a rule on a quantity at the end.
pub(crate) fn put_decision(
    text: &mut Bytes,
    name: &Name,
    rule: &Name,
    said: &Said,
) -> Result<(), OutOfMemory>
    ensures { OnOk result (text.new ≡ text.old ++ text_of_answer (Answer.Decision name.now rule.now said.now)) }
{
    put_asked_two(text, b"decide", name, rule)?;
    text.extend_from_slice(b" ")?;
    put_statement(text, said)?;
    text.extend_from_slice(b"\n")
}
