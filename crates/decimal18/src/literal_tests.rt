use crate::{Dec, NumFault, parse};
use std::alloc::AllocError;
use std::test::Fail;

// Rows of a text, and the coefficient and the places of its value.
macro_rules! values {
    ($($text:literal => $coefficient:literal, $places:literal;)*) => {
        [$(($text, $coefficient, $places)),*]
    };
}

#[test]
fn literals_that_are_bounds(rt: HostRuntime) -> Result<(), Fail> {
    let rows = values! {
        "0" => 0, 0;
        "-0" => 0, 0;
        "+0" => 0, 0;
        "00000" => 0, 0;
        "1" => 1, 0;
        "+1" => 1, 0;
        "-1" => -1, 0;
        "42" => 42, 0;
        "-42" => -42, 0;
        "00012.3400" => 1234, 2;
        "-00012.3400" => -1234, 2;
        "1e2" => 100, 0;
        "1E+2" => 100, 0;
        "1e-2" => 1, 2;
        "1E-02" => 1, 2;
        "1e000" => 1, 0;
        "1e-000" => 1, 0;
        "10e-37" => 1, 36;
        "1e-36" => 1, 36;
        "-1e-36" => -1, 36;
        "123456789012345678" => 123456789012345678, 0;
        "0.123456789012345678" => 123456789012345678, 18;
        "1234567890.12345678" => 123456789012345678, 8;
        "999999999999999999" => 999999999999999999, 0;
        "-999999999999999999" => -999999999999999999, 0;
        "0.000000000000000000999999999999999999" => 999999999999999999, 36;
        "999999999999999999e-36" => 999999999999999999, 36;
        "9999999999999999990e-37" => 999999999999999999, 36;
        "999999999999999999.0" => 999999999999999999, 0;
        "1.00000000000000000000000000" => 1, 0;
        "10000000000000000.1" => 100000000000000001, 1;
        "1000000000000000000000e-21" => 1, 0;
        "1e17" => 100000000000000000, 0;
        "0.001e20" => 100000000000000000, 0;
        "0e999" => 0, 0;
        "0.0e-999" => 0, 0;
        "0.00000e+123" => 0, 0;
        "120e-1" => 12, 0;
        "5e-1" => 5, 1;
        "1234567890123456780e-1" => 123456789012345678, 0;
    };
    for (text, coefficient, places) in rows {
        let value = Dec::new(coefficient, places).ok_or("not a bound")?;
        assert_eq!(rt; parse(text.as_bytes()), Ok(value), "at {text}");
    }
    Ok(())
}

#[test]
fn literals_that_are_no_bounds(rt: HostRuntime) {
    for text in [
        "1e-37",
        "9e-37",
        "999999999999999999e-37",
        "1000000000000000000",
        "-1000000000000000000",
        "999999999999999999.5",
        "0.9999999999999999999",
        "1.000000000000000001",
        "100000000000000000.1",
        "1e18",
        "100e16",
        "0.001e21",
        "1e999",
        "1e-999",
        "1234567890123456789e0",
    ] {
        assert_eq!(rt;
            parse(text.as_bytes()),
            Err(NumFault::NumberRange),
            "at {text}"
        );
    }
}

#[test]
fn texts_that_are_no_literals(rt: HostRuntime) {
    for text in [
        "5.", ".5", "1e", "1e+", "1e-", "e5", "", ".", "+", "-", "--1", "+-1", "1-", "1.2.3",
        "1..2", "1e1234", "1e0000", "1e-0001", "1e5x", "1e+5.0", "0x10", "1_000", "1,5", " 1",
        "1 ", "1 2", "1.e5", "1.5e", "inf", "NaN", "-.5", "E", "1e+-5",
    ] {
        assert_eq!(rt;
            parse(text.as_bytes()),
            Err(NumFault::NotNumber),
            "at {text}"
        );
    }
    assert_eq!(rt; parse(b"\x001"), Err(NumFault::NotNumber));
    assert_eq!(rt; parse(b"1\x00"), Err(NumFault::NotNumber));
    assert_eq!(rt; parse(b"1\xff2"), Err(NumFault::NotNumber));
}

// A text: a start, `count` times the byte, and an end.
fn long(
    rt: &HostRuntime,
    start: &str,
    byte: u8,
    count: usize,
    end: &str,
) -> Result<Vec<u8>, AllocError> {
    let mut text = Vec::from_slice(rt.alloc(), start.as_bytes())?;
    for _ in 0..count {
        text.push(byte)?;
    }
    text.extend_from_slice(end.as_bytes())?;
    Ok(text)
}

const MANY: usize = 1_000_000;

#[test]
fn long_texts(rt: HostRuntime) -> Result<(), Fail> {
    let one = Dec::new(1, 0).ok_or("not a bound")?;
    for (start, byte, count, end, answer) in [
        ("", b'0', MANY, "1", Ok(one)),
        ("1.", b'0', MANY, "", Ok(one)),
        ("0.", b'0', 998, "1e999", Ok(one)),
        ("1", b'0', 999, "e-999", Ok(one)),
        ("", b'0', 1000, "1e000", Ok(one)),
        ("0.", b'0', MANY, "1e999", Err(NumFault::NumberRange)),
        ("1", b'0', MANY, "e-999", Err(NumFault::NumberRange)),
        ("", b'9', MANY, "", Err(NumFault::NumberRange)),
        ("0.", b'9', MANY, "", Err(NumFault::NumberRange)),
        ("", b'0', 1000, "1e999", Err(NumFault::NumberRange)),
        ("1e", b'0', 1000, "1", Err(NumFault::NotNumber)),
        ("", b'9', MANY, "x", Err(NumFault::NotNumber)),
        ("", b'-', MANY, "1", Err(NumFault::NotNumber)),
    ] {
        let text = long(&rt, start, byte, count, end)?;
        assert_eq!(rt; parse(text.as_slice()), answer, "at {start} and {end}");
    }
    Ok(())
}

#[test]
fn printed_bounds(rt: HostRuntime) -> Result<(), Fail> {
    for (coefficient, places, text) in [
        (105, 2, "1.05"),
        (-5, 1, "-0.5"),
        (7, 36, "0.000000000000000000000000000000000007"),
        (-999_999_999_999_999_999, 18, "-0.999999999999999999"),
        (
            -999_999_999_999_999_999,
            36,
            "-0.000000000000000000999999999999999999",
        ),
        (123_456_789_012_345_678, 17, "1.23456789012345678"),
    ] {
        let value = Dec::new(coefficient, places).ok_or("not a bound")?;
        let printed = value.print(rt.alloc())?;
        assert_eq!(rt; printed.as_slice(), text.as_bytes());
        assert_eq!(rt; parse(printed.as_slice()), Ok(value));
    }
    Ok(())
}
