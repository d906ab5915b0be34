ghost use Rattle.std.specs.Prelude.{◌≡◌, ◌++◌, decimal, IfOk, OnOk};
ghost use Rattle.decimal18.specs.Text.{text_of};
ghost use Rattle.type_a.specs.Tables.{width_of};
ghost use Rattle.sheet_rows.specs.Rows.{row_of, Given, Correlation};
ghost use Rattle.sheet_rows.specs.Regular.{IsRegular};
ghost use Rattle.row_text.specs.Printing.{shape_text, degrees_text, one_column, numbers_text, limit_text, rule_text, printed};

use crate::print_table::put_table;
use decimal18::Dec;
use formula_ast::{Name, put_formula};
use guard_band::{Form, Rule};
use itoa::Buffer;
use line_text::{Bytes, OutOfMemory};
use sheet_rows::Row;
use std::alloc::Global;
use type_a::Readings;
use type_b::{Dof, Shape};

/// Puts the words and the number after them at the end.
pub(crate) fn put_number(out: &mut Bytes, words: &[u8], number: &Dec) -> Result<(), OutOfMemory>
    ensures { OnOk result (out.new ≡ out.old ++ words.now ++ text_of number.now) }
{
    out.extend_from_slice(words)?;
    number.put(out)
}

/// Puts the words and the whole number after them at the end.
fn put_whole(out: &mut Bytes, words: &[u8], number: u64) -> Result<(), OutOfMemory>
    ensures { OnOk result (out.new ≡ out.old ++ words.now ++ decimal number) }
{
    out.extend_from_slice(words)?;
    out.extend_from_slice(Buffer::new().format(number).as_bytes())
}

/// Puts the text of the shape at the end.
fn put_shape(out: &mut Bytes, shape: &Shape) -> Result<(), OutOfMemory>
    ensures { OnOk result (out.new ≡ out.old ++ shape_text shape.now) }
{
    match shape {
        Shape::Exact => out.extend_from_slice(b"exact"),
        Shape::Std { u } => put_number(out, b"std ", u),
        Shape::Exp { expanded, k } => {
            put_number(out, b"exp ", expanded)?;
            put_number(out, b" ", k)
        }
        Shape::Norm { half, level } => {
            put_number(out, b"norm ", half)?;
            put_whole(out, b" ", *level as u64)
        }
        Shape::Rect { half } => put_number(out, b"rect ", half),
        Shape::Tri { half } => put_number(out, b"tri ", half),
        Shape::Trap { half, beta } => {
            put_number(out, b"trap ", half)?;
            put_number(out, b" ", beta)
        }
        Shape::Arcsine { half } => put_number(out, b"arcsine ", half),
    }
}

/// Puts the text of the degrees of freedom at the end, where they are not infinitely many.
fn put_degrees(out: &mut Bytes, dof: &Dof) -> Result<(), OutOfMemory>
    ensures { OnOk result (out.new ≡ out.old ++ degrees_text dof.now) }
{
    match dof {
        Dof::Inf => Ok(()),
        Dof::Whole(number) => put_whole(out, b" dof ", *number as u64),
        Dof::Rel(percent) => put_whole(out, b" rel ", *percent as u64),
    }
}

/// Puts the readings of a table of one column at the end, each after a blank.
fn put_readings(out: &mut Bytes, readings: &Readings) -> Result<(), OutOfMemory>
    requires { width_of readings.now ≡ 1 }
    ensures { OnOk result (out.new ≡ out.old ++ numbers_text (one_column readings.now)) }
{
    for row in 0..readings.count() {
        put_number(out, b" ", &readings.value_at(row, 0))?;
    }
    Ok(())
}

/// Puts the limit after these words at the end, where there is one.
fn put_limit(out: &mut Bytes, words: &[u8], limit: &Option<Dec>) -> Result<(), OutOfMemory>
    ensures { OnOk result (out.new ≡ out.old ++ limit_text words.now limit.now) }
{
    match limit {
        Some(limit) => put_number(out, words, limit),
        None => Ok(()),
    }
}

/// Puts the text of the rule of conformity at the end.
fn put_rule(out: &mut Bytes, rule: &Rule) -> Result<(), OutOfMemory>
    ensures { OnOk result (out.new ≡ out.old ++ rule_text rule.now) }
{
    put_limit(out, b" lower ", &rule.lower)?;
    put_limit(out, b" upper ", &rule.upper)?;
    put_number(out, b" guard ", &rule.guard)?;
    match rule.form {
        Form::Binary => Ok(()),
        Form::Four => out.extend_from_slice(b" four"),
    }
}

/// Puts the words and the name after them at the end.
fn put_name(out: &mut Bytes, words: &[u8], name: &Name) -> Result<(), OutOfMemory>
    ensures { OnOk result (out.new ≡ out.old ++ words.now ++ name.now) }
{
    out.extend_from_slice(words)?;
    out.extend_from_slice(name.as_bytes())
}

/// Puts the text of an input that is given at the end.
fn put_given(
    out: &mut Bytes,
    name: &Name,
    estimate: &Dec,
    shape: &Shape,
    dof: &Dof,
) -> Result<(), OutOfMemory>
    ensures { OnOk result (out.new ≡ out.old ++ printed (Given name.now estimate.now shape.now dof.now)) }
{
    put_name(out, b"given ", name)?;
    put_number(out, b" ", estimate)?;
    out.push(b' ')?;
    put_shape(out, shape)?;
    put_degrees(out, dof)
}

/// Puts the text of a correlation at the end.
fn put_correlation(
    out: &mut Bytes,
    name: &Name,
    first: &Name,
    second: &Name,
    coefficient: &Dec,
) -> Result<(), OutOfMemory>
    ensures { OnOk result (out.new ≡ out.old ++ printed (Correlation name.now first.now second.now coefficient.now)) }
{
    put_name(out, b"corr ", name)?;
    put_name(out, b" ", first)?;
    put_name(out, b" ", second)?;
    put_number(out, b" ", coefficient)
}

/// Puts the text of the row at the end: `given NAME ESTIMATE SHAPE`, with ` dof N` or ` rel PERCENT` where the degrees
/// of freedom are not infinitely many, `readings NAME NUMBER NUMBER ..`, `corr NAME FIRST SECOND COEFFICIENT`,
/// `let NAME = FORMULA`, `tol NAME lower LOWER upper UPPER guard FACTOR four` without the limit that it does not have and
/// without `four` for two outcomes, or a table: the line `table NAME`, a line of the names of its columns and one for
/// each record, with commas and neither blanks nor quotes, and then `end`.
///
/// # Errors
///
/// [`OutOfMemory`] where there is no memory for the text.
pub fn put_row(out: &mut Bytes, row: &Row) -> Result<(), OutOfMemory>
    requires { IsRegular (row_of row.now) }
    ensures { OnOk result (out.new ≡ out.old ++ printed (row_of row.now)) }
{
    match row {
        Row::Given {
            name,
            estimate,
            shape,
            dof,
        } => put_given(out, name, estimate, shape, dof),
        Row::Readings { name, readings } => {
            put_name(out, b"readings ", name)?;
            put_readings(out, readings)
        }
        Row::Joint {
            name,
            columns,
            readings,
        } => put_table(out, name, columns.as_slice(), readings),
        Row::Correlation {
            name,
            first,
            second,
            coefficient,
        } => put_correlation(out, name, first, second, coefficient),
        Row::Formula { name, formula } => {
            put_name(out, b"let ", name)?;
            out.extend_from_slice(b" = ")?;
            put_formula(out, formula)
        }
        Row::Tolerance { name, rule } => {
            put_name(out, b"tol ", name)?;
            put_rule(out, rule)
        }
    }
}

/// The text of the row, as [`put_row`] puts it.
///
/// # Errors
///
/// [`OutOfMemory`] where there is no memory for the text.
pub fn print_row(alloc: Global, row: &Row) -> Result<Bytes, OutOfMemory>
    requires { IsRegular (row_of row.now) }
    ensures { IfOk result (λ text. text ≡ printed (row_of row.now)) }
{
    let mut text = Bytes::new(alloc)?;
    put_row(&mut text, row)?;
    Ok(text)
}
