//! The item at the start of a text.

ghost use Rattle.std.specs.Prelude.{◌≡◌, ◌+◌, ◌<◌, ◌≤◌, [], ◌∷◌, ◌++◌, List, ℕ, length, take, drop, get_or, IfSome, IfNone, IfOk};
ghost use Rattle.script_lines.specs.Items.{Outside, Inside, block_item, parts_of, items_of, whole_items_of};
ghost use Rattle.script_lines.specs.Yields.{Yields};

use crate::block::{ends_block, opens_block};
use crate::item::{Item, block_item, is_long, last_outside, without_return};
use line_text::{Bytes, OutOfMemory, after};
use memchr::memchr;
use std::alloc::Global;

/// The number of bytes before the first line feed, and `None` where there is none.
fn line_len(text: &[u8]) -> Option<usize>
    ensures more { IfSome result (λ len. (rest : List ℕ)
        → parts_of (text.now ++ rest) ≡ take len text.now ∷ parts_of (drop (len + 1) text.now ++ rest)) }
    ensures within { IfSome result (λ len. len < length text.now) }
    ensures feed { IfSome result (λ len. get_or text.now len 0 ≡ 10) }
    ensures none { IfNone result (parts_of text.now ≡ text.now ∷ []) }
{
    memchr(b'\n', text)
}

/// The lines of a block, at the start of a text.
#[derive(Clone, Copy)]
struct BlockLines {
    /// The number of bytes of the lines before the `end` line, or, where there is none, of those that a line feed
    /// ended.
    len: usize,
    /// The number of bytes up to the line feed of the `end` line, and `None` where no line feed ends one.
    end: Option<usize>,
}

/// The lines of the block, whichever line opened it.
fn block_lines(text: &[u8]) -> BlockLines
    ensures within { result.len ≤ length text.now }
    ensures inside { IfSome result.end (λ end. end ≤ length text.now) }
    ensures ended { IfSome result.end (λ end. (head : List ℕ)
        → Yields (Inside head []) text.now (block_item head (take result.len text.now) ∷ []) Outside (drop end text.now)) }
    ensures open { IfNone result.end ((head : List ℕ)
        → Yields (Inside head []) text.now [] (Inside head (take result.len text.now)) (drop result.len text.now)) }
    ensures last { IfNone result.end (parts_of (drop result.len text.now) ≡ drop result.len text.now ∷ []) }
{
    let mut at = 0;
    let mut rest = text;
    'lines: while let Some(len) = line_len(rest) {
        let ended = at + len + 1;
        if ends_block(&rest[..len]) {
            return BlockLines {
                len: at,
                end: Some(ended),
            };
        }
        at = ended;
        rest = after(rest, len + 1);
    }
    BlockLines { len: at, end: None }
}

/// An item, and the number of bytes that it takes.
#[derive(Drop)]
pub(crate) struct First {
    pub(crate) item: Item,
    pub(crate) len: usize,
}

/// The item at the start of the text, and `None` where none is whole without the end of the input.
///
/// # Errors
///
/// [`OutOfMemory`] where there is no memory for the item.
pub(crate) fn first_item(alloc: Global, text: &[u8]) -> Result<Option<First>, OutOfMemory>
    ensures some { IfOk result (λ first. IfSome first (λ first.
        Yields Outside text.now (first.item ∷ []) Outside (drop first.len text.now))) }
    ensures within { IfOk result (λ first. IfSome first (λ first. first.len ≤ length text.now)) }
    ensures none { IfOk result (λ first. IfNone first (whole_items_of text.now ≡ [])) }
{
    let Some(len) = line_len(text) else {
        return Ok(None);
    };
    if is_long(&text[..len]) {
        let item = Item::LongLine;
        return Ok(Some(First { item, len: len + 1 }));
    }
    let line = without_return(&text[..len]);
    if !opens_block(line) {
        let item = Item::Line(Bytes::from_slice(alloc, line)?);
        return Ok(Some(First { item, len: len + 1 }));
    }
    let rest = after(text, len + 1);
    let lines = block_lines(rest);
    let Some(end) = lines.end else {
        return Ok(None);
    };
    let item = block_item(alloc, line, &rest[..lines.len])?;
    Ok(Some(First {
        item,
        len: len + 1 + end,
    }))
}

/// The item that the end of the input makes whole, and `None` where there is none.
///
/// # Errors
///
/// [`OutOfMemory`] where there is no memory for the item.
pub(crate) fn last_item(alloc: Global, text: &[u8]) -> Result<Option<Item>, OutOfMemory>
    requires { whole_items_of text.now ≡ [] }
    ensures some { IfOk result (λ last. IfSome last (λ item. items_of text.now ≡ item ∷ [])) }
    ensures none { IfOk result (λ last. IfNone last (items_of text.now ≡ [])) }
{
    if text.is_empty() {
        return Ok(None);
    }
    let Some(len) = line_len(text) else {
        return Ok(Some(last_outside(alloc, text)?));
    };
    // A line that a line feed ended and that is no item has opened a block.
    let rest = after(text, len + 1);
    let lines = block_lines(rest);
    if ends_block(after(rest, lines.len)) {
        let head = without_return(&text[..len]);
        return Ok(Some(block_item(alloc, head, &rest[..lines.len])?));
    }
    Ok(Some(Item::UnclosedTable))
}
