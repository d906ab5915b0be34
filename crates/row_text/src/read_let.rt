//! A quantity as a function of others: `NAME = FORMULA`, where the blanks round `=` may be missing. The line
//! has no comment and no last blanks.

ghost use Rattle.std.specs.Prelude.{◌≡◌, ◌+◌, ◌<◌, ◌≤◌, ◌^◌, true, length, drop, take, Ok, Err, IfOk, IfErr, IfSome};
ghost use Rattle.std.specs.List.{prefix_len};
ghost use Rattle.line_text.specs.Memory.{GivesBy};
ghost use Rattle.formula_ast.specs.Refusals.{place_of};
ghost use Rattle.formula_ast.specs.Names.{is_plain_name};
ghost use Rattle.formula_ast.specs.Printing.{print};
ghost use Rattle.formula_ast.specs.Reading.{reading_of};
ghost use Rattle.formula_ast.specs.Views.{tree_of};
ghost use Rattle.sheet_rows.specs.Rows.{row_of};
ghost use Rattle.sheet_rows.specs.Regular.{IsRegular};
ghost use Rattle.row_text.specs.Reading.{is_in_name, leading_name, past_blanks, name_at, begins_equals, equals_at, formula_fault, formula_at, let_of};

use decimal18::NumFault;
use formula_ast::{Formula, FormulaFault, Name, read_formula};
use line_text::{OutOfMemory, after, blanks_len, is_blank};
use sheet_rows::{Row, RowFault};
use std::alloc::Global;
use std::rc::Rc;

/// Whether the byte may stand in a name that is read before `=`.
fn is_in_name(byte: u8) -> bool
    ensures { result ≡ is_in_name byte }
{
    !(is_blank(byte) || byte == b'=')
}

/// The number of bytes before the first one that is blank or `=`.
fn name_len(text: &[u8]) -> usize
    ensures is { result ≡ prefix_len is_in_name text.now }
    ensures within { result ≤ length text.now }
{
    text.iter().take_while(|byte| is_in_name(**byte)).count()
}

/// The bytes at the start that are neither blank nor `=`.
fn leading_name(text: &[u8]) -> &[u8]
    ensures is { result.now ≡ leading_name text.now }
    ensures within { length result.now ≤ length text.now }
{
    &text[..name_len(text)]
}

/// The place after the blanks that stand at the place `at`.
fn past_blanks(line: &[u8], at: usize) -> usize
    requires { at ≤ length line.now }
    ensures is { result ≡ past_blanks line.now at }
    ensures within { result ≤ length line.now }
{
    at + blanks_len(after(line, at))
}

/// A plain name.
fn read_name(line: &[u8], at: usize) -> Result<(Name, usize), RowFault>
    requires { at ≤ length line.now }
    ensures ok { IfOk result (λ r. name_at line.now at ≡ Ok (record { item = r.0; at = r.1 })) }
    ensures err { IfErr result (λ fault. name_at line.now at ≡ Err fault) }
    ensures within { IfOk result (λ r. r.1 ≤ length line.now) }
    ensures plain { IfOk result (λ r. is_plain_name r.0 ≡ true) }
{
    let word = leading_name(after(line, at));
    let Some(name) = Name::plain(word) else {
        return Err(RowFault::Syntax(at + 1));
    };
    Ok((name, at + word.len()))
}

/// Whether the text begins with `=`.
fn begins_equals(text: &[u8]) -> bool
    ensures is { result ≡ begins_equals text.now }
    ensures some { result ≡ true → 0 < length text.now }
{
    let [byte, ..] = text else {
        return false;
    };
    *byte == b'='
}

/// The place after a `=`.
fn read_equals(line: &[u8], at: usize) -> Result<usize, RowFault>
    requires { at ≤ length line.now }
    ensures is { result ≡ equals_at line.now at }
    ensures within { IfOk result (λ start. start ≤ length line.now) }
{
    if begins_equals(after(line, at)) {
        return Ok(at + 1);
    }
    Err(RowFault::Syntax(at + 1))
}

/// The fault of a formula that begins at the place `at` of the line.
fn located(fault: FormulaFault, at: usize) -> RowFault
    requires { IfSome (place_of fault) (λ k. at + k < 2 ^ 63) }
    ensures { result ≡ formula_fault at fault }
{
    match fault {
        FormulaFault::Syntax(k) => RowFault::Syntax(at + k + 1),
        FormulaFault::UnknownFunction(k) => RowFault::UnknownFunction(at + k + 1),
        FormulaFault::Number(NumFault::NotNumber, k) => RowFault::NotNumber(at + k + 1),
        FormulaFault::Number(NumFault::NumberRange, k) => RowFault::NumberRange(at + k + 1),
        FormulaFault::BadPower(k) => RowFault::BadPower(at + k + 1),
        FormulaFault::TooDeep(k) => RowFault::TooDeep(at + k + 1),
        FormulaFault::TooMany(k) => RowFault::TooManyNodes(at + k + 1),
        FormulaFault::OutOfMemory => RowFault::OutOfMemory,
    }
}

/// The formula that the rest of the line is.
fn read_rest(alloc: Global, line: &[u8], at: usize) -> Result<Formula, RowFault>
    requires { at ≤ length line.now }
    ensures exact { GivesBy tree_of RowFault.OutOfMemory result (formula_at line.now at) }
    ensures again { IfOk result (λ f. reading_of (print (tree_of f)) ≡ Ok (tree_of f)) }
{
    match read_formula(alloc, after(line, at)) {
        Ok(formula) => Ok(formula),
        Err(fault) => Err(located(fault, at)),
    }
}

/// The formula, to be shared.
fn shared(alloc: Global, formula: Formula) -> Result<Rc<Formula>, OutOfMemory>
    ensures { IfOk result (λ shared. shared.value ≡ formula) }
{
    Ok(Rc::new(alloc, formula)?)
}

/// The quantity that the text after `let` is.
pub fn read_let(alloc: Global, line: &[u8], at: usize) -> Result<Row, RowFault>
    requires { at ≤ length line.now }
    ensures exact { GivesBy row_of RowFault.OutOfMemory result (let_of line.now at) }
    ensures regular { IfOk result (λ row. IsRegular (row_of row)) }
{
    let (name, at) = read_name(line, past_blanks(line, at))?;
    let at = read_equals(line, past_blanks(line, at))?;
    let formula = read_rest(alloc, line, at)?;
    let formula = shared(alloc, formula)?;
    Ok(Row::Formula { name, formula })
}
