use crate::{Records, RecordsFault, read_records};
use line_text::Bytes;
use std::alloc::Global;
use std::test::Fail;

/// Blocks, and the tables that they are: the names and then the numbers of each row, each with a blank after
/// it, and a `;` after each row.
const TABLES: [(&[u8], &str); 8] = [
    (b"V,I\n1,2\n3,4.50\n", "V I ;1 2 ;3 4.5 ;"),
    (b"V , I\n 3 ,\t4 \t\n", "V I ;3 4 ;"),
    (b"\"V\",\"I\"\n\"1\",\" 2 \"", "V I ;1 2 ;"),
    (b"V\n\"1\"2\n\"3", "V ;12 ;3 ;"),
    (b"\xEF\xBB\xBFV\n1\n", "V ;1 ;"),
    (b"\n\nV\r1\r\n\r\n2\n", "V ;1 ;2 ;"),
    (b"A,B,C,D,E,F,G,H\n", "A B C D E F G H ;"),
    (
        b"V\n-1e-36\n",
        "V ;-0.000000000000000000000000000000000001 ;",
    ),
];

/// Blocks that are refused, and why.
const REFUSED: [(&[u8], RecordsFault); 13] = [
    (b"", RecordsFault::TooFew),
    (b"\xEF\xBB\xBF\r\n", RecordsFault::TooFew),
    (b"V,end\n1,2\n", RecordsFault::Shape(1)),
    (b"V,\n1,2\n", RecordsFault::Shape(1)),
    (b"V,I,V\n", RecordsFault::Shape(1)),
    (b"A,B,C,D,E,F,G,H,I\n", RecordsFault::Shape(1)),
    (b"aaaaaaaaaaaaaaaaaaaaaaaaa\n1\n", RecordsFault::Shape(1)),
    (b"V,I\n1,2\n3\n", RecordsFault::Shape(3)),
    (b"V,I\nx\n", RecordsFault::Shape(2)),
    (b"V\n1\n \t\n", RecordsFault::NotNumber(3)),
    (b"V\n\"1,2\"\n", RecordsFault::NotNumber(2)),
    (b"V\n\"1\n2\"\n", RecordsFault::NotNumber(2)),
    (b"V\n1e999\n", RecordsFault::NumberRange(2)),
];

// The table's names and numbers, as in `TABLES`.
fn shown(alloc: Global, records: &Records) -> Result<Bytes, Fail> {
    let mut text = Bytes::new(alloc)?;
    for name in records.columns.as_slice() {
        text.extend_from_slice(name.as_bytes())?;
        text.push(b' ')?;
    }
    text.push(b';')?;
    for row in records.rows.as_slice() {
        for number in row.as_slice() {
            text.extend_from_slice(number.print(alloc)?.as_slice())?;
            text.push(b' ')?;
        }
        text.push(b';')?;
    }
    Ok(text)
}

#[test]
fn tables_are_read(rt: HostRuntime) -> Result<(), Fail> {
    for (block, table) in TABLES {
        let Ok(records) = read_records(rt.alloc(), block) else {
            return Err("a table is refused")?;
        };
        let text = shown(rt.alloc(), &records)?;
        assert!(rt; text.as_slice() == table.as_bytes(), "at {table}");
    }
    Ok(())
}

#[test]
fn blocks_are_refused(rt: HostRuntime) -> Result<(), Fail> {
    for (block, fault) in REFUSED {
        match read_records(rt.alloc(), block) {
            Ok(_) => return Err("a block is taken")?,
            Err(RecordsFault::OutOfMemory) => return Err("out of memory")?,
            Err(other) => assert!(rt; other == fault),
        }
    }
    Ok(())
}
