//! A correlation of two inputs: its name, their names and the coefficient.

ghost use Rattle.std.specs.Prelude.{◌≡◌, length, Ok, Err, IfOk, IfErr};
ghost use Rattle.line_text.specs.Words.{words_left};
ghost use Rattle.sheet_rows.specs.Rows.{row_of};
ghost use Rattle.sheet_rows.specs.Regular.{IsRegular, is_coefficient};
ghost use Rattle.row_text.specs.Correlations.{corr_of};

use crate::parts::{read_end, read_name, read_number, read_plain};
use decimal18::Dec;
use line_text::Words;
use sheet_rows::{Row, RowFault};

/// Whether the number is from -1 to 1.
fn is_coefficient(number: Dec) -> bool
    ensures { result ≡ is_coefficient number }
{
    let places = number.places() as u32;
    let size = number.coefficient().unsigned_abs();
    // It has at most 18 digits.
    places >= 18 || size <= 10_u64.pow(places)
}

/// The correlation that the words after `corr` are.
pub fn read_corr(mut words: Words<'_>) -> Result<Row, RowFault>
    ensures ok { IfOk result (λ row. corr_of (length words.entry.line) (words_left words.entry) ≡ Ok (row_of row)) }
    ensures err { IfErr result (λ fault. corr_of (length words.entry.line) (words_left words.entry) ≡ Err fault) }
    ensures regular { IfOk result (λ row. IsRegular (row_of row)) }
{
    let name = read_plain(&mut words)?;
    let first = read_name(&mut words)?;
    let second = read_name(&mut words)?;
    let coefficient = read_number(&mut words)?;
    read_end(&mut words)?;
    if !is_coefficient(coefficient) {
        return Err(RowFault::RRange);
    }
    Ok(Row::Correlation {
        name,
        first,
        second,
        coefficient,
    })
}
