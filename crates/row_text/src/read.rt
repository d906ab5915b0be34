ghost use Rattle.std.specs.Prelude.{◌≡◌, ◌+◌, ◌≤◌, ◌∷◌, true, length, IfOk, Err};
ghost use Rattle.line_text.specs.Memory.{GivesBy};
ghost use Rattle.line_text.specs.Words.{word_of, words_left, words_from, written_part};
ghost use Rattle.sheet_rows.specs.Rows.{row_of};
ghost use Rattle.sheet_rows.specs.Regular.{IsRegular};
ghost use Rattle.row_text.specs.Reading.{take_memory, row_at, row_read};

use crate::read_corr::read_corr;
use crate::read_given::read_given;
use crate::read_let::read_let;
use crate::read_readings::read_readings;
use crate::read_tolerance::read_tolerance;
use line_text::{Word, Words, written_part};
use sheet_rows::{Row, RowFault};
use std::alloc::Global;

const GIVEN: &[u8] = b"given";

const READINGS: &[u8] = b"readings";

const CORR: &[u8] = b"corr";

const LET: &[u8] = b"let";

const TOL: &[u8] = b"tol";

/// The row that the word `first` begins, where `words` are those after it in the line, which has no comment and
/// no last blanks.
///
/// # Errors
///
/// The first word or token that breaks a rule, with its place in the line; out of memory for rows by readings
/// and formula rows alone.
pub fn read_begun_row(alloc: Global, first: &Word<'_>, words: Words<'_>) -> Result<Row, RowFault>
    requires { words.at ≡ first.now.place + length first.now.text.now }
    ensures exact { GivesBy row_of RowFault.OutOfMemory result (row_at words.entry.line (word_of first.now ∷ words_left words.entry)) }
    ensures memory { result ≡ Err RowFault.OutOfMemory → take_memory (word_of first.now ∷ words_left words.entry) ≡ true }
    ensures regular { IfOk result (λ row. IsRegular (row_of row)) }
{
    if first.text == GIVEN {
        return read_given(words);
    }
    if first.text == READINGS {
        return read_readings(alloc, words);
    }
    if first.text == CORR {
        return read_corr(words);
    }
    if first.text == LET {
        return read_let(alloc, words.line(), words.at());
    }
    if first.text == TOL {
        return read_tolerance(words);
    }
    Err(RowFault::Syntax(first.place + 1))
}

/// The row that these words of a line give, which has no comment and no last blanks.
///
/// # Errors
///
/// As of [`read_begun_row`].
pub fn read_row_words(alloc: Global, mut words: Words<'_>) -> Result<Row, RowFault>
    ensures exact { GivesBy row_of RowFault.OutOfMemory result (row_at words.entry.line (words_left words.entry)) }
    ensures memory { result ≡ Err RowFault.OutOfMemory → take_memory (words_left words.entry) ≡ true }
    ensures regular { IfOk result (λ row. IsRegular (row_of row)) }
{
    let Some(first) = words.next() else {
        return Err(RowFault::Syntax(words.end() + 1));
    };
    read_begun_row(alloc, &first, words)
}

/// The row that the line gives from the byte `from` on. The line's comment, which begins with the first `#`,
/// and its last blanks are no part of it.
///
/// # Errors
///
/// As of [`read_begun_row`].
pub fn read_row(alloc: Global, line: &[u8], from: usize) -> Result<Row, RowFault>
    ensures exact { GivesBy row_of RowFault.OutOfMemory result (row_read line.now from) }
    ensures memory { result ≡ Err RowFault.OutOfMemory → take_memory (words_from (written_part line.now) from) ≡ true }
    ensures regular { IfOk result (λ row. IsRegular (row_of row)) }
{
    let text = written_part(line);
    if from > text.len() {
        return Err(RowFault::Syntax(text.len() + 1));
    }
    read_row_words(alloc, Words::from(text, from))
}
