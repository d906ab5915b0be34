//! An input: its name, its estimate, its shape and its degrees of freedom, word by word.

ghost use Rattle.std.specs.Prelude.{◌≡◌, length, Ok, Err, IfOk, IfErr};
ghost use Rattle.line_text.specs.Words.{words_left};
ghost use Rattle.sheet_rows.specs.Rows.{row_of};
ghost use Rattle.sheet_rows.specs.Regular.{IsRegular};
ghost use Rattle.row_text.specs.Givens.{given_of};

use crate::parts::{read_end, read_number, read_plain};
use crate::read_degrees::read_degrees;
use crate::read_shape::read_shape;
use line_text::Words;
use sheet_rows::{Row, RowFault};
use type_b::check;

/// The input that the words after `given` are.
pub fn read_given(mut words: Words<'_>) -> Result<Row, RowFault>
    ensures ok { IfOk result (λ row. given_of (length words.entry.line) (words_left words.entry) ≡ Ok (row_of row)) }
    ensures err { IfErr result (λ fault. given_of (length words.entry.line) (words_left words.entry) ≡ Err fault) }
    ensures regular { IfOk result (λ row. IsRegular (row_of row)) }
{
    let name = read_plain(&mut words)?;
    let estimate = read_number(&mut words)?;
    let shape = read_shape(&mut words)?;
    let dof = read_degrees(&mut words)?;
    read_end(&mut words)?;
    check(&shape)?;
    let Some(dof) = dof else {
        return Err(RowFault::DofRange);
    };
    Ok(Row::Given {
        name,
        estimate,
        shape,
        dof,
    })
}
