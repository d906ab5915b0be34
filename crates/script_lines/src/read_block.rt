//! A table block is read into the command that it is.

ghost use Rattle.std.specs.Prelude.{◌≡◌, true, IfOk, Err};
ghost use Rattle.line_text.specs.Memory.{GivesBy};
ghost use Rattle.line_text.specs.Words.{words_left, words_from, written_part};
ghost use Rattle.sheet_rows.specs.Rows.{row_of};
ghost use Rattle.sheet_rows.specs.Regular.{IsRegular};
ghost use Rattle.row_text.specs.Tables.{table_at, is_head};
ghost use Rattle.answers.specs.Commands.{command_of, IsRegularCommand};
ghost use Rattle.script_lines.specs.Commands.{row_of_line, adding, setting, block_read, block_takes_memory};

use crate::verb::SET;
use answers::{Command, Edit, LineFault};
use line_text::{Words, written_part};
use row_text::read_table_words;
use sheet_rows::{Row, RowFault};
use std::alloc::Global;

/// The row that these words of a line and the lines of its block give.
fn table_row(alloc: Global, words: Words<'_>, body: &[u8]) -> Result<Row, LineFault>
    ensures exact { GivesBy row_of LineFault.OutOfMemory result (row_of_line (table_at words.entry.line (words_left words.entry) body.now)) }
    ensures memory { result ≡ Err LineFault.OutOfMemory → is_head (words_left words.entry) ≡ true }
    ensures regular { IfOk result (λ row. IsRegular (row_of row)) }
{
    match read_table_words(alloc, words, body) {
        Ok(row) => Ok(row),
        Err(RowFault::OutOfMemory) => Err(LineFault::OutOfMemory),
        Err(fault) => Err(LineFault::Row(fault)),
    }
}

/// The command that adds the row which the line, with the lines of its block, gives.
fn added_table(alloc: Global, text: &[u8], body: &[u8]) -> Result<Command, LineFault>
    ensures exact { GivesBy command_of LineFault.OutOfMemory result (adding (table_at text.now (words_from text.now 0) body.now)) }
    ensures memory { result ≡ Err LineFault.OutOfMemory → is_head (words_from text.now 0) ≡ true }
    ensures regular { IfOk result (λ command. IsRegularCommand (command_of command)) }
{
    let row = table_row(alloc, Words::from(text, 0), body)?;
    Ok(Command::Change(Edit::Add(row)))
}

/// The command that sets the row which the words after `set`, with the lines of their block, give.
fn set_table(alloc: Global, words: Words<'_>, body: &[u8]) -> Result<Command, LineFault>
    ensures exact { GivesBy command_of LineFault.OutOfMemory result (setting (table_at words.entry.line (words_left words.entry) body.now)) }
    ensures memory { result ≡ Err LineFault.OutOfMemory → is_head (words_left words.entry) ≡ true }
    ensures regular { IfOk result (λ command. IsRegularCommand (command_of command)) }
{
    let row = table_row(alloc, words, body)?;
    Ok(Command::Change(Edit::Set(row)))
}

/// The command of the block that the line `head` opens and of which `body` has the lines.
pub(crate) fn read_block(alloc: Global, head: &[u8], body: &[u8]) -> Result<Command, LineFault>
    ensures exact { GivesBy command_of LineFault.OutOfMemory result (block_read head.now body.now) }
    ensures memory { result ≡ Err LineFault.OutOfMemory → block_takes_memory (words_from (written_part head.now) 0) ≡ true }
    ensures regular { IfOk result (λ command. IsRegularCommand (command_of command)) }
{
    let text = written_part(head);
    let mut words = Words::from(text, 0);
    let Some(first) = words.next() else {
        return added_table(alloc, text, body);
    };
    if first.text == SET {
        return set_table(alloc, words, body);
    }
    added_table(alloc, text, body)
}
