use crate::{print_row, read_row};
use line_text::{Bytes, OutOfMemory};
use sheet_rows::RowFault;
use std::alloc::Global;
use std::test::Fail;

/// Lines that give no row, and why. Places are counted from 1.
const REFUSED: [(&str, RowFault); 103] = [
    ("", RowFault::Syntax(1)),
    (" \t ", RowFault::Syntax(1)),
    ("# given X 1 exact", RowFault::Syntax(1)),
    ("given", RowFault::Syntax(6)),
    ("given X", RowFault::Syntax(8)),
    ("given X 5", RowFault::Syntax(10)),
    ("given X 5 # exact", RowFault::Syntax(10)),
    ("given X#5 exact", RowFault::Syntax(8)),
    ("given X 5 ex#act", RowFault::Syntax(11)),
    ("given X 1e999 std 1", RowFault::NumberRange(9)),
    ("given X abc exact", RowFault::NotNumber(9)),
    ("given\tX\tabc\texact", RowFault::NotNumber(9)),
    ("given X 5\0 exact", RowFault::NotNumber(9)),
    ("given X 5 std", RowFault::Syntax(14)),
    ("given X 5 std \t", RowFault::Syntax(14)),
    ("given X 5 std abc", RowFault::NotNumber(15)),
    ("given X 5 std 1e-40", RowFault::NumberRange(15)),
    ("given X 5 std -1", RowFault::Negative),
    ("given X 5 std -1 foo", RowFault::Syntax(18)),
    ("given X 5 std 1 dof 5 7", RowFault::Syntax(23)),
    ("given X 5 std 1 rel", RowFault::Syntax(20)),
    ("given X 5 std 1 std 2", RowFault::Syntax(17)),
    ("given X 5 foo 1", RowFault::Syntax(11)),
    ("given X 5 Exact", RowFault::Syntax(11)),
    ("given X 5 exact\r", RowFault::Syntax(11)),
    ("given X 5 exact 3", RowFault::Syntax(17)),
    ("given X 5 exact inf", RowFault::Syntax(17)),
    ("given X 5 exp 1", RowFault::Syntax(16)),
    ("given X 5 exp 1 x", RowFault::NotNumber(17)),
    ("given X 5 exp -1 0", RowFault::Negative),
    ("given X 5 exp 1 -1", RowFault::Negative),
    ("given X 5 exp 1 -0.0", RowFault::ZeroK),
    ("given X 5 norm 2", RowFault::Syntax(17)),
    ("given X 5 norm 2 dof 5", RowFault::Syntax(22)),
    ("given X 5 norm -2 50", RowFault::Negative),
    ("given X 5 norm 2 50 dof 0", RowFault::Level),
    ("given X 5 norm 2 095", RowFault::Level),
    ("given X 5 norm 2 95.0", RowFault::Level),
    ("given X 5 rect -1", RowFault::Negative),
    ("given X 5 rect 1 2", RowFault::Syntax(18)),
    ("given X 5 tri -1", RowFault::Negative),
    ("given X 5 trap 1", RowFault::Syntax(17)),
    ("given X 5 trap -1 2", RowFault::Negative),
    ("given X 5 trap 1 -0.1", RowFault::Beta),
    ("given X 5 trap 1 1.1 dof x", RowFault::Beta),
    ("given X 5 arcsine -1", RowFault::Negative),
    ("given X 5 exact dof", RowFault::Syntax(20)),
    ("given X 5 exact dof 5 rel 5", RowFault::Syntax(23)),
    ("given X 5 exact dof 0", RowFault::DofRange),
    ("given X 5 exact dof 1000001", RowFault::DofRange),
    ("given X 5 exact dof 00000001", RowFault::DofRange),
    ("given X 5 exact dof +1", RowFault::DofRange),
    ("given X 5 exact dof Inf", RowFault::DofRange),
    ("given X 5 exact rel 0", RowFault::DofRange),
    ("given X 5 exact rel 71", RowFault::DofRange),
    ("given X 5 exact rel 005", RowFault::DofRange),
    ("given X 5 exact rel inf", RowFault::DofRange),
    ("given 2X 5 exact", RowFault::Syntax(7)),
    ("given T.V 5 exact", RowFault::Syntax(7)),
    ("given X\0 5 exact", RowFault::Syntax(7)),
    ("given =5", RowFault::Syntax(7)),
    ("let", RowFault::Syntax(4)),
    ("let Y", RowFault::Syntax(6)),
    ("let Y =", RowFault::Syntax(8)),
    ("let Y =   ", RowFault::Syntax(8)),
    ("let =5", RowFault::Syntax(5)),
    ("let Y 5", RowFault::Syntax(7)),
    ("let Y==1", RowFault::Syntax(7)),
    ("let Y+1 = 2", RowFault::Syntax(5)),
    ("let T.V = 1", RowFault::Syntax(5)),
    ("let abcdefghijklmnopqrstuvwxy = 1", RowFault::Syntax(5)),
    ("let Y = sin(1)", RowFault::UnknownFunction(9)),
    ("let Y = 1 +", RowFault::Syntax(12)),
    ("let Y = 1 + # 2", RowFault::Syntax(12)),
    ("let Y = 3x", RowFault::Syntax(10)),
    ("let Y = a b", RowFault::Syntax(11)),
    ("let Y = 1\r", RowFault::Syntax(10)),
    ("let Y = \0", RowFault::Syntax(9)),
    ("let Y = 1e999", RowFault::NumberRange(9)),
    ("let Y = 2^0", RowFault::BadPower(11)),
    ("let Y=2^x", RowFault::Syntax(9)),
    (
        "let Y = ((((((((((((((((((((((((((((((((((((((((((((((((((((((((((((((((((((",
        RowFault::TooDeep(73),
    ),
    ("letY = 1", RowFault::Syntax(1)),
    ("readings", RowFault::Syntax(9)),
    ("readings T.V 1 2", RowFault::Syntax(10)),
    ("readings R", RowFault::TooFew),
    ("readings R 1 # 2", RowFault::TooFew),
    ("readings R 1 x y", RowFault::NotNumber(14)),
    ("readings R 1 2 3 1e-40", RowFault::NumberRange(18)),
    ("readings R 1 -1000000000", RowFault::Wide(2)),
    ("readings R 1 2000 1e-12", RowFault::Wide(2)),
    ("corr", RowFault::Syntax(5)),
    ("corr T.P A B 1", RowFault::Syntax(6)),
    ("corr A B 0.5", RowFault::Syntax(10)),
    ("corr P A T.V.W 1", RowFault::Syntax(10)),
    ("corr P A B", RowFault::Syntax(11)),
    ("corr P A B 2x 3", RowFault::NotNumber(12)),
    ("corr P A B 2 3", RowFault::Syntax(14)),
    ("corr P A B 1.000000000000000001", RowFault::NumberRange(12)),
    ("corr P A B -1.00000000000000001", RowFault::RRange),
    ("table T", RowFault::Syntax(1)),
    ("value X", RowFault::Syntax(1)),
    ("  foo given X 5 exact", RowFault::Syntax(3)),
];

/// Lines that give a row, and the row as it is printed.
const READ: [(&str, &str); 29] = [
    ("given X 5 exact", "given X 5 exact"),
    ("given X 5 std 1", "given X 5 std 1"),
    (
        " given\tX  5.10 std 0.50 # a note # more",
        "given X 5.1 std 0.5",
    ),
    ("given X 5 std -0", "given X 5 std 0"),
    ("given _a1 -1e-3 exact", "given _a1 -0.001 exact"),
    ("given X 5 exp 0.050 +2", "given X 5 exp 0.05 2"),
    ("given X 5 norm 1 90", "given X 5 norm 1 90"),
    ("given X 5 norm 1 95", "given X 5 norm 1 95"),
    ("given X 5 norm 1 99", "given X 5 norm 1 99"),
    ("given X 5 rect 1e1", "given X 5 rect 10"),
    ("given X 5 tri 0", "given X 5 tri 0"),
    ("given X 5 trap 2 -0", "given X 5 trap 2 0"),
    ("given X 5 trap 2 1.0", "given X 5 trap 2 1"),
    ("given X 5 arcsine 1", "given X 5 arcsine 1"),
    ("given X 5 exact dof inf", "given X 5 exact"),
    ("given X 5 std 1 dof 01", "given X 5 std 1 dof 1"),
    ("given X 5 std 1 dof 1000000", "given X 5 std 1 dof 1000000"),
    ("given X 5 trap 1 0.5 rel 05", "given X 5 trap 1 0.5 rel 5"),
    ("given X 5 exact rel 70", "given X 5 exact rel 70"),
    ("readings X 1 2", "readings X 1 2"),
    ("readings\tR 1.50 -0 1e2 # three", "readings R 1.5 0 100"),
    (
        "readings R 999999999 0.000001",
        "readings R 999999999 0.000001",
    ),
    ("corr P T.V B -0.50", "corr P T.V B -0.5"),
    ("corr P A A 1.000", "corr P A A 1"),
    ("let Y=5", "let Y = 5"),
    ("let Y = 5 # five", "let Y = 5"),
    ("let\tY\t=\t(a+b)*-c^2\t", "let Y = (a + b) * -c^2"),
    ("let exact =1e2", "let exact = 100"),
    (
        "let abcdefghijklmnopqrstuvwx= T.V",
        "let abcdefghijklmnopqrstuvwx = T.V",
    ),
];

/// The refusal of the line from this byte on, if it gives no row.
pub(crate) fn fault_of(alloc: Global, line: &[u8], from: usize) -> Option<RowFault> {
    match read_row(alloc, line, from) {
        Ok(_) => None,
        Err(fault) => Some(fault),
    }
}

/// A line with this many readings.
fn readings_line(alloc: Global, count: usize) -> Result<Bytes, OutOfMemory> {
    let mut line = Bytes::from_slice(alloc, b"readings R")?;
    for _ in 0..count {
        line.extend_from_slice(b" 1.5")?;
    }
    Ok(line)
}

#[test]
fn lines_that_give_no_row(rt: HostRuntime) {
    for (line, fault) in REFUSED {
        assert_eq!(rt;
            fault_of(rt.alloc(), line.as_bytes(), 0),
            Some(fault),
            "at {line}"
        );
    }
}

#[test]
fn lines_that_give_a_row(rt: HostRuntime) -> Result<(), Fail> {
    for (line, printed) in READ {
        let Ok(row) = read_row(rt.alloc(), line.as_bytes(), 0) else {
            panic!(rt; "refused: {line}");
        };
        let text = print_row(rt.alloc(), &row)?;
        assert!(rt; text.as_slice() == printed.as_bytes(), "at {line}");
    }
    Ok(())
}

#[test]
fn at_most_a_thousand_readings(rt: HostRuntime) -> Result<(), Fail> {
    let line = readings_line(rt.alloc(), 1001)?;
    assert_eq!(rt;
        fault_of(rt.alloc(), line.as_slice(), 0),
        Some(RowFault::TooMany)
    );
    let line = readings_line(rt.alloc(), 1000)?;
    let Ok(row) = read_row(rt.alloc(), line.as_slice(), 0) else {
        panic!(rt; "refused");
    };
    let text = print_row(rt.alloc(), &row)?;
    assert!(rt; text.as_slice() == line.as_slice());
    Ok(())
}

#[test]
fn rows_after_other_words(rt: HostRuntime) {
    let line = b"set given X 5 std 1";
    assert_eq!(rt; fault_of(rt.alloc(), line, 3), None);
    let line = b"set given X 5 foo 1";
    assert_eq!(rt; fault_of(rt.alloc(), line, 3), Some(RowFault::Syntax(15)));
    let line = b"set # given X 5 exact";
    assert_eq!(rt; fault_of(rt.alloc(), line, 5), Some(RowFault::Syntax(4)));
}
