//! An item is read into the command that it is.

ghost use Rattle.std.specs.Prelude.{◌≡◌, ◌+◌, ◌<◌, ◌^◌, ◌∷◌, true, length, option_map, IfOk, IfSome, Err};
ghost use Rattle.line_text.specs.Memory.{GivesBy};
ghost use Rattle.line_text.specs.Words.{word_of, words_left, words_from, written_part};
ghost use Rattle.sheet_rows.specs.Rows.{row_of};
ghost use Rattle.sheet_rows.specs.Regular.{IsRegular};
ghost use Rattle.row_text.specs.Reading.{take_memory, row_at};
ghost use Rattle.answers.specs.Commands.{command_of, IsRegularCommand};
ghost use Rattle.script_lines.specs.Commands.{row_of_line, command_with, line_read, command_read, takes_memory_with, words_take_memory, takes_memory};

use crate::item::Item;
use crate::read_block::read_block;
use crate::verb::{Verb, verb_of};
use crate::words_after::{alone, read_name, read_query_at, read_query_with};
use answers::{Command, Edit, LineFault};
use line_text::{Word, Words, written_part};
use row_text::{read_begun_row, read_row_words};
use sheet_rows::{Row, RowFault};
use std::alloc::Global;

/// The row that these words of a line give.
fn set_row(alloc: Global, words: Words<'_>) -> Result<Row, LineFault>
    ensures exact { GivesBy row_of LineFault.OutOfMemory result (row_of_line (row_at words.entry.line (words_left words.entry))) }
    ensures memory { result ≡ Err LineFault.OutOfMemory → take_memory (words_left words.entry) ≡ true }
    ensures regular { IfOk result (λ row. IsRegular (row_of row)) }
{
    match read_row_words(alloc, words) {
        Ok(row) => Ok(row),
        Err(RowFault::OutOfMemory) => Err(LineFault::OutOfMemory),
        Err(fault) => Err(LineFault::Row(fault)),
    }
}

/// The row that the word `first` begins, where `words` are those after it.
fn added_row(alloc: Global, first: &Word<'_>, words: Words<'_>) -> Result<Row, LineFault>
    requires place { words.at ≡ first.now.place + length first.now.text.now }
    requires fits { words.at < 2 ^ 63 }
    ensures exact { GivesBy row_of LineFault.OutOfMemory result (row_of_line (row_at words.entry.line (word_of first.now ∷ words_left words.entry))) }
    ensures memory { result ≡ Err LineFault.OutOfMemory → take_memory (word_of first.now ∷ words_left words.entry) ≡ true }
    ensures regular { IfOk result (λ row. IsRegular (row_of row)) }
{
    match read_begun_row(alloc, first, words) {
        Ok(row) => Ok(row),
        Err(RowFault::OutOfMemory) => Err(LineFault::OutOfMemory),
        Err(fault) => Err(LineFault::Row(fault)),
    }
}

/// The command of a line whose first word is `first`, of this verb, and whose others are `words`. The line has no
/// comment and no last blanks.
fn read_with(
    alloc: Global,
    verb: Verb,
    first: &Word<'_>,
    words: Words<'_>,
) -> Result<Command, LineFault>
    requires place { words.at ≡ first.now.place + length first.now.text.now }
    requires fits { words.at < 2 ^ 63 }
    ensures exact { GivesBy command_of LineFault.OutOfMemory result
        (command_with verb words.entry.line (word_of first.now) (words_left words.entry)) }
    ensures memory { result ≡ Err LineFault.OutOfMemory → takes_memory_with verb (word_of first.now) (words_left words.entry) ≡ true }
    ensures regular { IfOk result (λ command. IsRegularCommand (command_of command)) }
{
    match verb {
        Verb::Set => Ok(Command::Change(Edit::Set(set_row(alloc, words)?))),
        Verb::Remove => Ok(Command::Change(Edit::Remove(read_name(words)?))),
        Verb::Undo => {
            alone((), words)?;
            Ok(Command::Undo)
        }
        Verb::Redo => {
            alone((), words)?;
            Ok(Command::Redo)
        }
        Verb::Mark => Ok(Command::Mark(read_name(words)?)),
        Verb::Restore => Ok(Command::Restore(read_name(words)?)),
        Verb::At => {
            let (name, query) = read_query_at(words)?;
            Ok(Command::AskAt(name, query))
        }
        Verb::Ask(asked) => Ok(Command::Ask(read_query_with(asked, words)?)),
        Verb::Row => Ok(Command::Change(Edit::Add(added_row(alloc, first, words)?))),
    }
}

/// The command that the line is, and `None` where it has no words.
fn read_line(alloc: Global, line: &[u8]) -> Result<Option<Command>, LineFault>
    ensures exact { GivesBy (option_map command_of) LineFault.OutOfMemory result (line_read line.now) }
    ensures memory { result ≡ Err LineFault.OutOfMemory → words_take_memory (words_from (written_part line.now) 0) ≡ true }
    ensures regular { IfOk result (λ read. IfSome read (λ command. IsRegularCommand (command_of command))) }
{
    let mut words = Words::from(written_part(line), 0);
    let Some(first) = words.next() else {
        return Ok(None);
    };
    let command = read_with(alloc, verb_of(first.text), &first, words)?;
    Ok(Some(command))
}

/// The command that the item is, and `None` exactly for a line of blanks and a comment.
///
/// # Errors
///
/// [`LineFault::LongLine`] for a line, and [`LineFault::LongTable`] for a block that is too long;
/// [`LineFault::UnclosedTable`] for a block that the end of the input ended; the first word or token that breaks a
/// rule, with its place in the line, or the rule alone where the row as a whole breaks it; for a block whose line is
/// right the first rule that its records break, with the record's place; out of memory for lines alone that are to
/// give a row of readings or a formula, and for blocks whose line is right.
pub fn read_command(alloc: Global, item: &Item) -> Result<Option<Command>, LineFault>
    ensures exact { GivesBy (option_map command_of) LineFault.OutOfMemory result (command_read item.now) }
    ensures memory { result ≡ Err LineFault.OutOfMemory → takes_memory item.now ≡ true }
    ensures regular { IfOk result (λ read. IfSome read (λ command. IsRegularCommand (command_of command))) }
{
    match item {
        Item::Line(line) => read_line(alloc, line.as_slice()),
        Item::Block { head, body } => {
            Ok(Some(read_block(alloc, head.as_slice(), body.as_slice())?))
        }
        Item::LongLine => Err(LineFault::LongLine),
        Item::LongTable => Err(LineFault::LongTable),
        Item::UnclosedTable => Err(LineFault::UnclosedTable),
    }
}
