//! Inputs by joint readings: the line that opens a table, and the block below it.

ghost use Rattle.std.specs.Prelude.{◌≡◌, ◌≤◌, true, length, Ok, Err, IfOk, IfErr};
ghost use Rattle.line_text.specs.Memory.{Gives, GivesBy};
ghost use Rattle.line_text.specs.Words.{words_left, words_from, written_part};
ghost use Rattle.formula_ast.specs.Names.{is_plain_name};
ghost use Rattle.type_a.specs.Tables.{table_of, readings_of};
ghost use Rattle.sheet_rows.specs.Rows.{row_of};
ghost use Rattle.sheet_rows.specs.Regular.{IsRegular};
ghost use Rattle.row_text.specs.Tables.{head_name, below_taken, table_at, table_read, is_head};

use crate::parts::{read_end, read_plain};
use crate::read_readings::shared;
use decimal18::Dec;
use formula_ast::Name;
use line_text::{Words, written_part};
use sheet_rows::{Row, RowFault};
use std::alloc::Global;
use table_records::read_records;
use type_a::{Readings, ReadingsFault};

/// The word with which a line opens a table.
pub const TABLE: &[u8] = b"table";

/// The name in a line that opens a table: the word `table`, a plain name, and no word more.
fn read_head(mut words: Words<'_>) -> Result<Name, RowFault>
    ensures ok { IfOk result (λ name. head_name (length words.entry.line) (words_left words.entry) ≡ Ok name) }
    ensures err { IfErr result (λ fault. head_name (length words.entry.line) (words_left words.entry) ≡ Err fault) }
    ensures plain { IfOk result (λ name. is_plain_name name ≡ true) }
{
    let Some(first) = words.next() else {
        return Err(RowFault::Syntax(words.end() + 1));
    };
    if first.text != TABLE {
        return Err(RowFault::Syntax(first.place + 1));
    }
    let name = read_plain(&mut words)?;
    read_end(&mut words)?;
    Ok(name)
}

/// The readings of the rows below a header, which is record 1 of the table.
fn read_below(alloc: Global, rows: &[Vec<Dec>]) -> Result<Readings, RowFault>
    ensures { Gives RowFault.OutOfMemory result (below_taken (readings_of (table_of rows.now))) }
{
    // A place in the list, and the one after it, fit a `usize`.
    let _count = rows.len();
    match Readings::new(alloc, rows) {
        Ok(readings) => Ok(readings),
        Err(ReadingsFault::TooFew) => Err(RowFault::TooFew),
        Err(ReadingsFault::TooMany) => Err(RowFault::TooMany),
        Err(ReadingsFault::Shape(place)) => Err(RowFault::Shape(place + 1)),
        Err(ReadingsFault::Wide(place)) => Err(RowFault::Wide(place + 1)),
        Err(ReadingsFault::OutOfMemory) => Err(RowFault::OutOfMemory),
    }
}

/// The row that these words and the block give.
fn read_joint(alloc: Global, words: Words<'_>, block: &[u8]) -> Result<Row, RowFault>
    ensures exact { GivesBy row_of RowFault.OutOfMemory result (table_at words.entry.line (words_left words.entry) block.now) }
    ensures memory { result ≡ Err RowFault.OutOfMemory → is_head (words_left words.entry) ≡ true }
{
    let name = read_head(words)?;
    let records = read_records(alloc, block)?;
    let readings = read_below(alloc, records.rows.as_slice())?;
    let readings = shared(alloc, readings)?;
    Ok(Row::Joint {
        name,
        columns: records.columns,
        readings,
    })
}

/// The inputs by joint readings that these words of a line give, which has no comment and no last blanks, with the
/// block below the line.
///
/// # Errors
///
/// The first word that breaks a rule, with its place in the line; then what breaks a rule first in the block; or
/// out of memory, where the words are right.
pub fn read_table_words(alloc: Global, words: Words<'_>, block: &[u8]) -> Result<Row, RowFault>
    ensures exact { GivesBy row_of RowFault.OutOfMemory result (table_at words.entry.line (words_left words.entry) block.now) }
    ensures memory { result ≡ Err RowFault.OutOfMemory → is_head (words_left words.entry) ≡ true }
    ensures regular { IfOk result (λ row. IsRegular (row_of row)) }
{
    read_joint(alloc, words, block)
}

/// The inputs by joint readings that the line gives from the byte `from` on, with the block below it. The line's
/// comment, which begins with the first `#`, and its last blanks are no part of it.
///
/// # Errors
///
/// As of [`read_table_words`].
pub fn read_table(alloc: Global, line: &[u8], from: usize, block: &[u8]) -> Result<Row, RowFault>
    ensures exact { GivesBy row_of RowFault.OutOfMemory result (table_read line.now from block.now) }
    ensures memory { result ≡ Err RowFault.OutOfMemory → is_head (words_from (written_part line.now) from) ≡ true }
    ensures regular { IfOk result (λ row. IsRegular (row_of row)) }
{
    let text = written_part(line);
    if from > text.len() {
        return Err(RowFault::Syntax(text.len() + 1));
    }
    read_table_words(alloc, Words::from(text, from), block)
}
