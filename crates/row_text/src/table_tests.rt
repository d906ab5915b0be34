use crate::{print_row, read_table};
use line_text::{Bytes, OutOfMemory};
use sheet_rows::RowFault;
use std::alloc::Global;
use std::test::Fail;

/// Lines and blocks that give no row, and why.
const REFUSED: [(&str, &str, RowFault); 22] = [
    ("table", "V\n1\n2\n", RowFault::Syntax(6)),
    ("table # T", "V\n1\n2\n", RowFault::Syntax(6)),
    ("table 2T", "", RowFault::Syntax(7)),
    ("table T.V", "V\n1\n2\n", RowFault::Syntax(7)),
    ("table T V", "V\n1\n2\n", RowFault::Syntax(9)),
    ("tables T", "V\n1\n2\n", RowFault::Syntax(1)),
    ("table T", "", RowFault::TooFew),
    ("table T", "\n\r\n", RowFault::TooFew),
    ("table T", "V\n", RowFault::TooFew),
    ("table T", "V\n1000000000\n", RowFault::TooFew),
    ("table T", "V,end\n1,2\n3,4\n", RowFault::Shape(1)),
    ("table T", "V,I,V\n1\n", RowFault::Shape(1)),
    ("table T", "A,B,C,D,E,F,G,H,I\n", RowFault::Shape(1)),
    ("table T", "V,I\n1,2\n3\n", RowFault::Shape(3)),
    ("table T", "V\n1\n \n", RowFault::NotNumber(3)),
    ("table T", "V,I\n1,2 # two\n", RowFault::NotNumber(2)),
    ("table T", "V,I\n1,1e999\nx\n", RowFault::NumberRange(2)),
    ("table T", "V,I\n1,2\nx,3,4\n", RowFault::Shape(3)),
    ("table T", "V\n1000000000\nx\n", RowFault::NotNumber(3)),
    ("table T", "V,I\n1,-1000000000\n2,3\n", RowFault::Wide(2)),
    ("table T", "V,I\n1,2\n3,4\n2000,1e-12\n", RowFault::Wide(4)),
    ("table T", "V\n\n\n1\n\n1e9\n", RowFault::Wide(3)),
];

/// Lines and blocks that give a row, and the row as it is printed.
const READ: [(&str, &str, &str); 5] = [
    (
        "table PLAIN",
        "A,B\n1,2\n3,4.50\n",
        "table PLAIN\nA,B\n1,2\n3,4.5\nend",
    ),
    (" table\tT # two", "V\n1\n2", "table T\nV\n1\n2\nend"),
    (
        "table T",
        " V ,\"I\"\r\n\r\n -0,\"1e1\"\r\n+2,0.50e0\r\n",
        "table T\nV,I\n0,10\n2,0.5\nend",
    ),
    ("table end", "table\n1\n2\n", "table end\ntable\n1\n2\nend"),
    (
        "table T",
        "A,B,C,D,E,F,G,H\n1,2,3,4,5,6,7,8\n8,7,6,5,4,3,2,1\n",
        "table T\nA,B,C,D,E,F,G,H\n1,2,3,4,5,6,7,8\n8,7,6,5,4,3,2,1\nend",
    ),
];

fn fault_of(alloc: Global, line: &[u8], from: usize, block: &[u8]) -> Option<RowFault> {
    match read_table(alloc, line, from, block) {
        Ok(_) => None,
        Err(fault) => Some(fault),
    }
}

/// A block with this many records below its header.
fn block_of(alloc: Global, count: usize) -> Result<Bytes, OutOfMemory> {
    let mut block = Bytes::from_slice(alloc, b"V,I\n")?;
    for _ in 0..count {
        block.extend_from_slice(b"1.5,2\n")?;
    }
    Ok(block)
}

#[test]
fn tables_that_give_no_row(rt: HostRuntime) {
    for (line, block, fault) in REFUSED {
        assert_eq!(rt;
            fault_of(rt.alloc(), line.as_bytes(), 0, block.as_bytes()),
            Some(fault),
            "at {line}, {block}"
        );
    }
}

#[test]
fn tables_that_give_a_row(rt: HostRuntime) -> Result<(), Fail> {
    for (line, block, printed) in READ {
        let Ok(row) = read_table(rt.alloc(), line.as_bytes(), 0, block.as_bytes()) else {
            panic!(rt; "refused: {block}");
        };
        let text = print_row(rt.alloc(), &row)?;
        assert!(rt; text.as_slice() == printed.as_bytes(), "at {block}");
    }
    Ok(())
}

#[test]
fn at_most_a_thousand_records(rt: HostRuntime) -> Result<(), Fail> {
    let block = block_of(rt.alloc(), 1001)?;
    assert_eq!(rt;
        fault_of(rt.alloc(), b"table T", 0, block.as_slice()),
        Some(RowFault::TooMany)
    );
    let block = block_of(rt.alloc(), 1000)?;
    let Ok(row) = read_table(rt.alloc(), b"set table T", 3, block.as_slice()) else {
        panic!(rt; "refused");
    };
    let text = print_row(rt.alloc(), &row)?;
    assert_eq!(rt;
        text.as_slice().len(),
        6 + 1 + 1 + block.as_slice().len() + 3
    );
    Ok(())
}

#[test]
fn tables_after_other_words(rt: HostRuntime) {
    assert_eq!(rt;
        fault_of(rt.alloc(), b"set table T.V", 3, b"V\n1\n2\n"),
        Some(RowFault::Syntax(11))
    );
    assert_eq!(rt;
        fault_of(rt.alloc(), b"set # table T", 5, b"V\n1\n2\n"),
        Some(RowFault::Syntax(4))
    );
}
