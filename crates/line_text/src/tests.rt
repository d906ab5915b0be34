use crate::{Bytes, Words, written_part};
use std::test::Fail;

/// Lines, and what is written in them.
const LINES: [(&str, &str); 7] = [
    ("", ""),
    ("#", ""),
    ("given X 5 exact", "given X 5 exact"),
    ("given X 5 exact \t # a # b", "given X 5 exact"),
    ("let Y = 1#", "let Y = 1"),
    (" \t ", ""),
    ("  a b\r ", "  a b\r"),
];

#[test]
fn lines_without_comments_and_last_blanks(rt: HostRuntime) {
    for (line, text) in LINES {
        assert!(rt;
            written_part(line.as_bytes()) == text.as_bytes(),
            "at {line}"
        );
    }
}

#[test]
fn words_with_their_places(rt: HostRuntime) -> Result<(), Fail> {
    let mut words = Words::from(b"a\t let  Y=5\t", 1);
    let word = words.next().ok_or("a word")?;
    assert_eq!(rt; word.place, 3);
    assert!(rt; word.text == b"let".as_slice());
    let word = words.next().ok_or("a second word")?;
    assert_eq!(rt; word.place, 8);
    assert!(rt; word.text == b"Y=5".as_slice());
    assert!(rt; words.next().is_none());
    Ok(())
}

#[test]
fn byte_lists(rt: HostRuntime) -> Result<(), Fail> {
    let mut bytes = Bytes::new(rt.alloc())?;
    bytes.push(b'a')?;
    bytes.push(b'b')?;
    assert_eq!(rt; bytes.as_slice(), b"ab".as_slice());
    let copy = Bytes::from_slice(rt.alloc(), bytes.as_slice())?;
    assert_eq!(rt; copy.as_slice(), b"ab".as_slice());
    Ok(())
}
