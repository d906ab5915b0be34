use crate::read_tests::fault_of;
use crate::{print_row, read_row};
use sheet_rows::RowFault;
use std::test::Fail;

/// Lines that give no rule of conformity, and why. Places are counted from 1.
const REFUSED: [(&str, RowFault); 13] = [
    ("tol", RowFault::Syntax(4)),
    ("tol X 1", RowFault::Syntax(7)),
    ("tol D lower", RowFault::Syntax(12)),
    ("tol D lower 1e999 guard 1", RowFault::NumberRange(13)),
    ("tol D lower 1 lower 2 guard 1", RowFault::Syntax(15)),
    ("tol D lower 1 upper", RowFault::Syntax(20)),
    ("tol D lower 1 upper 2", RowFault::Syntax(22)),
    ("tol D lower 1 upper 2 guard", RowFault::Syntax(28)),
    ("tol D lower 1 upper 2 guard x", RowFault::NotNumber(29)),
    ("tol D upper 1 guard 1 Four", RowFault::Syntax(23)),
    ("tol D upper 1 four guard 1", RowFault::Syntax(15)),
    (
        "tol D lower 1 upper 0.999999999999999999 guard 0",
        RowFault::LimitOrder,
    ),
    ("tol D lower 1 guard 3.0005", RowFault::GuardRange),
];

/// Lines that give a rule of conformity, and the rule as it is printed.
const READ: [(&str, &str); 4] = [
    ("tol lower lower 1 guard 1", "tol lower lower 1 guard 1"),
    (
        "tol D\tlower\t+1.0  guard 0.5000 # four",
        "tol D lower 1 guard 0.5",
    ),
    (
        "tol D lower -0 upper 1e2 guard 1e-3 four",
        "tol D lower 0 upper 100 guard 0.001 four",
    ),
    ("tol D upper 1 guard 30e-1", "tol D upper 1 guard 3"),
];

#[test]
fn lines_that_give_no_rule(rt: HostRuntime) {
    for (line, fault) in REFUSED {
        assert_eq!(rt;
            fault_of(rt.alloc(), line.as_bytes(), 0),
            Some(fault),
            "at {line}"
        );
    }
}

#[test]
fn lines_that_give_a_rule(rt: HostRuntime) -> Result<(), Fail> {
    for (line, printed) in READ {
        let Ok(row) = read_row(rt.alloc(), line.as_bytes(), 0) else {
            panic!(rt; "refused: {line}");
        };
        let text = print_row(rt.alloc(), &row)?;
        assert!(rt; text.as_slice() == printed.as_bytes(), "at {line}");
    }
    Ok(())
}
