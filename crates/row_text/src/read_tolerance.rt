//! A rule of conformity: its name, its limits, the guard factor and the form of the statement.

ghost use Rattle.std.specs.Prelude.{◌≡◌, length, pos, Ok, Err, IfOk, IfErr};
ghost use Rattle.exact_fraction.specs.Number.{of_ℤ, is_at_most_ℚ};
ghost use Rattle.decimal18.specs.Bound.{value_of};
ghost use Rattle.line_text.specs.Words.{words_left};
ghost use Rattle.sheet_rows.specs.Rows.{row_of};
ghost use Rattle.sheet_rows.specs.Regular.{IsRegular, is_guard, are_ordered};
ghost use Rattle.row_text.specs.Tolerances.{limit_word, guard_word, form_word, tolerance_of};

use crate::parts::{read_end, read_number, read_plain};
use decimal18::Dec;
use fixed_interval::is_at_most;
use guard_band::{Form, Rule};
use line_text::Words;
use sheet_rows::{Row, RowFault};

const LOWER: &[u8] = b"lower";

const UPPER: &[u8] = b"upper";

const GUARD: &[u8] = b"guard";

const FOUR: &[u8] = b"four";

/// The most decimals of a guard factor.
const GUARD_PLACES: u8 = 3;

/// The greatest guard factor.
const GUARD_MOST: i32 = 3;

/// The limit after this word, where that is the next one.
fn read_limit(keyword: &[u8], words: &mut Words<'_>) -> Result<Option<Dec>, RowFault>
    ensures ok { IfOk result (λ limit. limit_word keyword.now (length words.old.line) (words_left words.old)
        ≡ Ok (record { item = limit; rest = words_left words.new })) }
    ensures err { IfErr result (λ fault. limit_word keyword.now (length words.old.line) (words_left words.old) ≡ Err fault) }
    ensures line { words.new.line ≡ words.old.line }
{
    let mut ahead = Words::from(words.line(), words.at());
    let Some(word) = ahead.next() else {
        return Ok(None);
    };
    if word.text != keyword {
        return Ok(None);
    }
    *words = ahead;
    Ok(Some(read_number(words)?))
}

/// `guard` with its factor, where there is a limit.
fn read_guard(limited: bool, words: &mut Words<'_>) -> Result<Dec, RowFault>
    ensures ok { IfOk result (λ guard. guard_word limited (length words.old.line) (words_left words.old)
        ≡ Ok (record { item = guard; rest = words_left words.new })) }
    ensures err { IfErr result (λ fault. guard_word limited (length words.old.line) (words_left words.old) ≡ Err fault) }
    ensures line { words.new.line ≡ words.old.line }
{
    let Some(word) = words.next() else {
        return Err(RowFault::Syntax(words.end() + 1));
    };
    if !limited || word.text != GUARD {
        return Err(RowFault::Syntax(word.place + 1));
    }
    read_number(words)
}

/// The form of the statement: two outcomes where no word is left.
fn read_form(words: &mut Words<'_>) -> Result<Form, RowFault>
    ensures ok { IfOk result (λ form. form_word (words_left words.old) ≡ Ok (record { item = form; rest = words_left words.new })) }
    ensures err { IfErr result (λ fault. form_word (words_left words.old) ≡ Err fault) }
{
    let Some(word) = words.next() else {
        return Ok(Form::Binary);
    };
    if word.text == FOUR {
        return Ok(Form::Four);
    }
    Err(RowFault::Syntax(word.place + 1))
}

fn is_from_zero(number: Dec) -> bool
    ensures { result ≡ is_at_most_ℚ (of_ℤ (pos 0)) (value_of number) }
{
    is_at_most(Dec::whole(0), number)
}

fn is_to_most(number: Dec) -> bool
    ensures { result ≡ is_at_most_ℚ (value_of number) (of_ℤ (pos 3)) }
{
    is_at_most(number, Dec::whole(GUARD_MOST))
}

/// Whether the number may be a guard factor: it is from 0 to 3, with at most three decimals.
fn is_guard(number: Dec) -> bool
    ensures { result ≡ is_guard number }
{
    number.places() <= GUARD_PLACES && is_from_zero(number) && is_to_most(number)
}

/// Whether the lower limit is not above the upper one, where there are both.
fn are_ordered(lower: Option<Dec>, upper: Option<Dec>) -> bool
    ensures { result ≡ are_ordered lower upper }
{
    let Some(lower) = lower else {
        return true;
    };
    let Some(upper) = upper else {
        return true;
    };
    is_at_most(lower, upper)
}

/// The rule of conformity that the words after `tol` are.
pub fn read_tolerance(mut words: Words<'_>) -> Result<Row, RowFault>
    ensures ok { IfOk result (λ row. tolerance_of (length words.entry.line) (words_left words.entry) ≡ Ok (row_of row)) }
    ensures err { IfErr result (λ fault. tolerance_of (length words.entry.line) (words_left words.entry) ≡ Err fault) }
    ensures regular { IfOk result (λ row. IsRegular (row_of row)) }
{
    let name = read_plain(&mut words)?;
    let lower = read_limit(LOWER, &mut words)?;
    let upper = read_limit(UPPER, &mut words)?;
    let guard = read_guard(lower.is_some() || upper.is_some(), &mut words)?;
    let form = read_form(&mut words)?;
    read_end(&mut words)?;
    if !is_guard(guard) {
        return Err(RowFault::GuardRange);
    }
    if !are_ordered(lower, upper) {
        return Err(RowFault::LimitOrder);
    }
    Ok(Row::Tolerance {
        name,
        rule: Rule {
            lower,
            upper,
            guard,
            form,
        },
    })
}
