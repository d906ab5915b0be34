ghost use Rattle.std.specs.Prelude.{◌≡◌, nat_lt, length, IfOk};
ghost use Rattle.script_lines.specs.Items.{line_limit, is_long, block_limit, without_return, block_item, last_outside};

use crate::block::opens_block;
use line_text::{Bytes, OutOfMemory};
use std::alloc::Global;

/// A line of a script, or a table block with the line that opens it.
#[derive(Drop, Debug)]
pub enum Item {
    /// The bytes of the line, without the line feed that ends it and a carriage return directly before that.
    Line(Bytes),
    /// A table block that an `end` line ends.
    Block {
        /// The line that opens it, as the bytes of a line.
        head: Bytes,
        /// The bytes of its lines with their line feeds, without the `end` line.
        body: Bytes,
    },
    /// A line of more bytes than a line may have.
    LongLine,
    /// A table block of more bytes than a block may have.
    LongTable,
    /// A table block that the end of the input ended.
    UnclosedTable,
}

/// The most bytes of a line before its line feed.
const LINE_LIMIT: usize = 65_536;

/// The most bytes of a block, with the line feeds of its lines and without the `end` line.
const BLOCK_LIMIT: usize = 1_048_576;

/// Whether the line has more bytes than a line may have.
pub(crate) fn is_long(line: &[u8]) -> bool
    ensures { result ≡ is_long line.now }
{
    line.len() > LINE_LIMIT
}

/// The line without a carriage return at its end.
pub(crate) fn without_return(line: &[u8]) -> &[u8]
    ensures { result.now ≡ without_return line.now }
{
    if line.is_empty() {
        return line;
    }
    let last = line.len() - 1;
    if line[last] == b'\r' {
        return &line[..last];
    }
    line
}

/// A block that an `end` line ended, by the line that opened it and the bytes of its lines.
///
/// # Errors
///
/// [`OutOfMemory`] where there is no memory for its bytes.
pub(crate) fn block_item(alloc: Global, head: &[u8], body: &[u8]) -> Result<Item, OutOfMemory>
    ensures { IfOk result (λ item. item ≡ block_item head.now body.now) }
{
    if body.len() > BLOCK_LIMIT {
        return Ok(Item::LongTable);
    }
    let head = Bytes::from_slice(alloc, head)?;
    let body = Bytes::from_slice(alloc, body)?;
    Ok(Item::Block { head, body })
}

/// The line outside of blocks that stood before the end of the input.
///
/// # Errors
///
/// [`OutOfMemory`] where there is no memory for its bytes.
pub(crate) fn last_outside(alloc: Global, line: &[u8]) -> Result<Item, OutOfMemory>
    ensures { IfOk result (λ item. item ≡ last_outside line.now) }
{
    if is_long(line) {
        return Ok(Item::LongLine);
    }
    if opens_block(line) {
        return Ok(Item::UnclosedTable);
    }
    Ok(Item::Line(Bytes::from_slice(alloc, line)?))
}
