//! Which lines open a table block, and which end one.

ghost use Rattle.std.specs.Prelude.{◌≡◌, ◌≤◌, ◌||◌, length, take, bytes_eq, codes};
ghost use Rattle.std.specs.List.{prefix_len, list_all};
ghost use Rattle.line_text.specs.Words.{words_left};
ghost use Rattle.script_lines.specs.Blocks.{begin_table, words_open, opens_block, is_padding, is_end, ends_block};

use crate::verb::SET;
use line_text::{Words, after, is_blank, skip_blanks, written_part};
use row_text::TABLE;

/// Whether the next word is `table`.
fn begin_table(mut words: Words<'_>) -> bool
    ensures { result ≡ begin_table (words_left words.entry) }
{
    match words.next() {
        Some(word) => word.text == TABLE,
        None => false,
    }
}

/// Whether these words of a line open a block: the first is `table`, or the first two are `set` and `table`.
fn words_open(mut words: Words<'_>) -> bool
    ensures { result ≡ words_open (words_left words.entry) }
{
    let Some(first) = words.next() else {
        return false;
    };
    first.text == TABLE || first.text == SET && begin_table(words)
}

/// Whether the text begins with the bytes of `table` or of `set`.
fn begins_to_open(text: &[u8]) -> bool
    ensures { result ≡ (bytes_eq (codes "table") (take 5 text.now) || bytes_eq (codes "set") (take 3 text.now)) }
{
    text.starts_with(TABLE) || text.starts_with(SET)
}

/// Whether the line opens a block.
pub(crate) fn opens_block(line: &[u8]) -> bool
    ensures { result ≡ opens_block line.now }
{
    // Most lines begin otherwise, and are looked through no further.
    if !begins_to_open(skip_blanks(line)) {
        return false;
    }
    words_open(Words::from(written_part(line), 0))
}

/// Whether the byte counts for nothing at the ends of a line of a block: a blank or a carriage return.
fn is_padding(byte: u8) -> bool
    ensures { result ≡ is_padding byte }
{
    is_blank(byte) || byte == b'\r'
}

/// The number of such bytes at the start of the line.
fn padding_len(line: &[u8]) -> usize
    ensures is { result ≡ prefix_len is_padding line.now }
    ensures within { result ≤ length line.now }
{
    line.iter().take_while(|byte| is_padding(**byte)).count()
}

/// Whether there are no other bytes.
fn is_all_padding(text: &[u8]) -> bool
    ensures { result ≡ list_all is_padding text.now }
{
    text.iter().all(|byte| is_padding(*byte))
}

const END: &[u8] = b"end";

/// Whether the text is `end`, with no more than padding after it.
fn is_end(text: &[u8]) -> bool
    ensures { result ≡ is_end text.now }
{
    text.starts_with(END) && is_all_padding(after(text, END.len()))
}

/// Whether the line ends a block.
pub(crate) fn ends_block(line: &[u8]) -> bool
    ensures { result ≡ ends_block line.now }
{
    is_end(after(line, padding_len(line)))
}
