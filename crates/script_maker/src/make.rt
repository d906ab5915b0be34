ghost use Rattle.std.specs.Prelude.{◌≡◌, ◌+◌, ◌*◌, ◌^◌, ◌<◌, ◌++◌, decimal, IfOk, OnOk};
ghost use Rattle.script_maker.specs.Draws.{next, state_after};
ghost use Rattle.script_maker.specs.Scripts.{input_count, row_name, input_line, formula_line, row_line, row_lines, value_line, round_lines, rounds, round_count, script};

use crate::draws::Draws;
use itoa::Buffer;
use line_text::{Bytes, OutOfMemory};
use std::alloc::Global;

/// How many times an input is set and this is taken back.
const ROUND_COUNT: u64 = 16;

/// Puts the words and the number after them at the end.
fn put_number(text: &mut Bytes, words: &[u8], number: u64) -> Result<(), OutOfMemory>
    ensures { OnOk result (text.new ≡ text.old ++ words.now ++ decimal number) }
{
    text.extend_from_slice(words)?;
    text.extend_from_slice(Buffer::new().format(number).as_bytes())
}

/// The letter with which the name of a row begins.
fn letter_of(inputs: u64, row: u64) -> &'static [u8]
    ensures { result.now ++ decimal row ≡ row_name inputs row }
{
    if row <= inputs { b"X" } else { b"Y" }
}

/// Puts the name of a row at the end.
fn put_name(text: &mut Bytes, inputs: u64, row: u64) -> Result<(), OutOfMemory>
    ensures { OnOk result (text.new ≡ text.old ++ row_name inputs row) }
{
    put_number(text, letter_of(inputs, row), row)
}

/// Puts an input at the end.
fn put_input(text: &mut Bytes, inputs: u64, row: u64, draws: &mut Draws) -> Result<(), OutOfMemory>
    ensures text { OnOk result (text.new ≡ text.old ++ input_line inputs row draws.old.state) }
    ensures state { OnOk result (draws.new.state ≡ next (next draws.old.state)) }
{
    text.extend_from_slice(b"given ")?;
    put_name(text, inputs, row)?;
    put_number(text, b" ", 100 + draws.draw(900))?;
    put_number(text, b" std ", 1 + draws.draw(9))?;
    text.extend_from_slice(b"\n")
}

/// Puts a formula at the end.
fn put_formula(
    text: &mut Bytes,
    inputs: u64,
    row: u64,
    draws: &mut Draws,
) -> Result<(), OutOfMemory>
    requires { 1 < row }
    ensures text { OnOk result (text.new ≡ text.old ++ formula_line inputs row draws.old.state) }
    ensures state { OnOk result (draws.new.state ≡ next (next draws.old.state)) }
{
    let first = 1 + draws.draw(row - 1);
    let second = 1 + draws.draw(row - 1);
    text.extend_from_slice(b"let ")?;
    put_name(text, inputs, row)?;
    text.extend_from_slice(b" = (")?;
    put_name(text, inputs, first)?;
    text.extend_from_slice(b" + ")?;
    put_name(text, inputs, second)?;
    text.extend_from_slice(b") / 2\n")
}

/// Puts a row at the end.
fn put_row(text: &mut Bytes, inputs: u64, row: u64, draws: &mut Draws) -> Result<(), OutOfMemory>
    requires some { 0 < inputs }
    requires counted { 0 < row }
    ensures text { OnOk result (text.new ≡ text.old ++ row_line inputs row draws.old.state) }
    ensures state { OnOk result (draws.new.state ≡ next (next draws.old.state)) }
{
    if row <= inputs {
        put_input(text, inputs, row, draws)
    } else {
        put_formula(text, inputs, row, draws)
    }
}

/// Puts the rows at the end.
fn put_rows(text: &mut Bytes, inputs: u64, rows: u64, draws: &mut Draws) -> Result<(), OutOfMemory>
    requires some { 0 < inputs }
    requires few { rows < 2 ^ 32 }
    ensures text { OnOk result (text.new ≡ text.old ++ row_lines inputs draws.old.state rows) }
    ensures state { OnOk result (draws.new.state ≡ state_after (2 * rows) draws.old.state) }
{
    for before in 0..rows {
        put_row(text, inputs, before + 1, draws)?;
    }
    Ok(())
}

/// Puts the question for the value of the last row at the end.
fn put_value(text: &mut Bytes, inputs: u64, rows: u64) -> Result<(), OutOfMemory>
    ensures { OnOk result (text.new ≡ text.old ++ value_line inputs rows) }
{
    text.extend_from_slice(b"value ")?;
    put_name(text, inputs, rows)?;
    text.extend_from_slice(b"\n")
}

/// Puts a round at the end: an input is set, and this is taken back.
fn put_round(
    text: &mut Bytes,
    inputs: u64,
    rows: u64,
    round: u64,
    draws: &mut Draws,
) -> Result<(), OutOfMemory>
    requires some { 0 < inputs }
    requires few { round < 2 ^ 32 }
    ensures text { OnOk result (text.new ≡ text.old ++ round_lines inputs rows round draws.old.state) }
    ensures state { OnOk result (draws.new.state ≡ next draws.old.state) }
{
    text.extend_from_slice(b"set given ")?;
    put_name(text, inputs, 1 + draws.draw(inputs))?;
    put_number(text, b" ", 1000 + round)?;
    text.extend_from_slice(b" std 1\n")?;
    put_value(text, inputs, rows)?;
    text.extend_from_slice(b"undo\n")?;
    put_value(text, inputs, rows)
}

/// Puts the rounds at the end.
fn put_rounds(
    text: &mut Bytes,
    inputs: u64,
    rows: u64,
    draws: &mut Draws,
) -> Result<(), OutOfMemory>
    requires { 0 < inputs }
    ensures { OnOk result (text.new ≡ text.old ++ rounds inputs rows draws.old.state round_count) }
{
    for before in 0..ROUND_COUNT {
        put_round(text, inputs, rows, before + 1, draws)?;
    }
    Ok(())
}

/// The script of so many rows, whose draws begin at the state `start`: a quarter of the rows are inputs and the others
/// formulas over two earlier rows; then the value of the last row, sixteen edits of inputs, each between two more
/// questions for it and taken back, and its report.
///
/// # Errors
///
/// [`OutOfMemory`] where there is no memory for the text.
pub fn make_script(alloc: Global, rows: u32, start: u32) -> Result<Bytes, OutOfMemory>
    requires { start < 2 ^ 31 }
    ensures { IfOk result (λ text. text ≡ script rows start) }
{
    let rows = rows as u64;
    let inputs = (rows / 4).max(1);
    let mut draws = Draws::new(start);
    let mut text = Bytes::new(alloc)?;
    put_rows(&mut text, inputs, rows, &mut draws)?;
    put_value(&mut text, inputs, rows)?;
    put_rounds(&mut text, inputs, rows, &mut draws)?;
    text.extend_from_slice(b"report ")?;
    put_name(&mut text, inputs, rows)?;
    text.extend_from_slice(b"\n")?;
    Ok(text)
}
