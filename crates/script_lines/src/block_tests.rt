//! Blocks whole and in pieces, and at their limit.

use crate::{Item, Splitter};
use std::alloc::Global;
use std::test::Fail;

/// A text with blocks.
const TEXT: &[u8; 85] =
    b"undo\r\n \ttable\r\na,b # c\r\n\n \t\rend\r \r\nset\ttable T # end\n\"\nend\ntables\nset table\nend x\nend";

/// Its items: lines, and the first lines of blocks with what stands in them.
const ITEMS: [(&[u8], Option<&[u8]>); 5] = [
    (b"undo", None),
    (b" \ttable", Some(b"a,b # c\r\n\n")),
    (b"set\ttable T # end", Some(b"\"\n")),
    (b"tables", None),
    (b"set table", Some(b"end x\n")),
];

// Whether the item is this line or block.
fn is_item(item: &Item, wanted: &(&[u8], Option<&[u8]>)) -> bool {
    match (item, wanted.1) {
        (Item::Line(line), None) => line.as_slice() == wanted.0,
        (Item::Block { head, body }, Some(lines)) => {
            head.as_slice() == wanted.0 && body.as_slice() == lines
        }
        _ => false,
    }
}

// Takes what is whole, where `count` items were taken before, and says how many there are then; `None` where one is
// not as it is to be. The fifth is whole at the end of the input alone.
fn take_all(splitter: &mut Splitter, mut count: usize) -> Result<Option<usize>, Fail> {
    for _ in 0..5 {
        if let Some(item) = splitter.take()? {
            if count >= 4 || !is_item(&item, &ITEMS[count]) {
                return Ok(None);
            }
            count += 1;
        }
    }
    Ok(Some(count))
}

// Whether the end of the input makes the fifth whole, and none but that is left.
fn ends_with_last(mut splitter: Splitter) -> Result<bool, Fail> {
    if splitter.take()?.is_some() {
        return Ok(false);
    }
    match splitter.finish()? {
        Some(item) => Ok(is_item(&item, &ITEMS[4])),
        None => Ok(false),
    }
}

#[test]
fn items_of_a_text_that_comes_in_two_pieces(rt: HostRuntime) -> Result<(), Fail> {
    let text = TEXT.as_slice();
    for cut in 0..86 {
        let mut splitter = Splitter::new(rt.alloc())?;
        splitter.feed(&text[..cut])?;
        let Some(count) = take_all(&mut splitter, 0)? else {
            panic!(rt; "another item before {cut}");
        };
        splitter.feed(&text[cut..])?;
        assert_eq!(rt; take_all(&mut splitter, count)?, Some(4), "after {cut}");
        assert!(rt; ends_with_last(splitter)?, "after {cut}");
    }
    Ok(())
}

#[test]
fn items_of_a_text_that_comes_byte_by_byte(rt: HostRuntime) -> Result<(), Fail> {
    let mut splitter = Splitter::new(rt.alloc())?;
    let mut count = 0;
    for byte in TEXT {
        splitter.feed(&[*byte])?;
        let Some(now) = take_all(&mut splitter, count)? else {
            panic!(rt; "another item at {count}");
        };
        count = now;
    }
    assert_eq!(rt; count, 4);
    assert!(rt; ends_with_last(splitter)?);
    Ok(())
}

/// Texts of one item that the end of the input makes whole, and whether that is a block which `end` ends.
const LAST: [(&str, bool); 6] = [
    ("table", false),
    ("set table X", false),
    ("table\n", false),
    ("table\nend # end", false),
    ("table\nend", true),
    ("table\n1\n \tend\r", true),
];

#[test]
fn blocks_at_the_end_of_the_input(rt: HostRuntime) -> Result<(), Fail> {
    for (text, ended) in LAST {
        let mut splitter = Splitter::new(rt.alloc())?;
        splitter.feed(text.as_bytes())?;
        if splitter.take()?.is_some() {
            panic!(rt; "an item too many");
        }
        match splitter.finish()? {
            Some(Item::Block { .. }) => assert!(rt; ended, "at {text}"),
            Some(Item::UnclosedTable) => assert!(rt; !ended, "at {text}"),
            _ => panic!(rt; "another item at {text}"),
        }
    }
    Ok(())
}

// The item of a block of 1,048,576 bytes in one line, of which the first are `more`.
fn long_block(alloc: Global, more: &[u8]) -> Result<Option<Item>, Fail> {
    let mut splitter = Splitter::new(alloc)?;
    let mut piece = [b'a'; 65_536];
    splitter.feed(b"table\n")?;
    splitter.feed(more)?;
    for _ in 0..15 {
        splitter.feed(&piece)?;
    }
    piece[65_535] = b'\n';
    splitter.feed(&piece)?;
    splitter.feed(b"end\nundo\n")?;
    Ok(splitter.take()?)
}

#[test]
fn blocks_of_the_most_bytes_and_one_more(rt: HostRuntime) -> Result<(), Fail> {
    let Some(Item::Block { body, .. }) = long_block(rt.alloc(), b"")? else {
        panic!(rt; "no block");
    };
    assert_eq!(rt; body.as_slice().len(), 1_048_576);
    let Some(Item::LongTable) = long_block(rt.alloc(), b"\n")? else {
        panic!(rt; "no block that is too long");
    };
    Ok(())
}

// A line of the most bytes opens a block, and one of one more opens none.
#[test]
fn long_lines_that_begin_with_table(rt: HostRuntime) -> Result<(), Fail> {
    let mut splitter = Splitter::new(rt.alloc())?;
    splitter.feed(&[b' '; 65_531])?;
    splitter.feed(b"table\nend\n")?;
    splitter.feed(&[b' '; 65_532])?;
    splitter.feed(b"table\nend\n")?;
    let Some(Item::Block { head, .. }) = splitter.take()? else {
        panic!(rt; "no block");
    };
    assert_eq!(rt; head.as_slice().len(), 65_536);
    let Some(Item::LongLine) = splitter.take()? else {
        panic!(rt; "no line that is too long");
    };
    let Some(Item::Line(line)) = splitter.take()? else {
        panic!(rt; "no line");
    };
    assert!(rt; line.as_slice() == b"end".as_slice());
    Ok(())
}
