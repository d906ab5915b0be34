use crate::{Dec, add_down, add_up};
use line_text::Bytes;
use std::test::Fail;

const MOST: i64 = 999_999_999_999_999_999;

fn dec(coefficient: i64, places: u8) -> Result<Dec, &'static str> {
    Dec::new(coefficient, places).ok_or("not a bound")
}

#[test]
fn bounds(rt: HostRuntime) -> Result<(), Fail> {
    assert_eq!(rt; dec(-12, 0)?.coefficient(), -12);
    assert_eq!(rt; dec(-12, 0)?.places(), 0);
    assert_eq!(rt; dec(MOST, 0)?.coefficient(), MOST);
    for n in [MOST + 1, -MOST - 1, i64::MIN] {
        assert_eq!(rt; Dec::new(n, 0), None, "at {n}");
    }
    for (n, places) in [(MOST, 37), (MOST + 2, 1), (1, 255), (10, 38)] {
        assert_eq!(rt; Dec::new(n, places), None, "at {n} and {places}");
    }
    for (n, places, short, fewer) in [
        (MOST + 1, 1, 100_000_000_000_000_000, 0),
        (-9_223_372_036_854_775_800, 2, -92_233_720_368_547_758, 0),
        (-9_223_372_036_854_775_800, 1, -922_337_203_685_477_580, 0),
        (-1_200, 38, -12, 36),
        (0, 255, 0, 0),
        (1_050, 3, 105, 2),
    ] {
        assert_eq!(rt;
            Dec::new(n, places),
            Dec::new(short, fewer),
            "at {n} and {places}"
        );
    }
    Ok(())
}

#[test]
fn sums(rt: HostRuntime) -> Result<(), Fail> {
    for (a, b, sum) in [(1, 2, 3), (-5, 3, -2), (MOST, -MOST, 0), (MOST, 0, MOST)] {
        assert_eq!(rt;
            add_down(dec(a, 0)?, dec(b, 0)?),
            Some(dec(sum, 0)?),
            "{a} + {b}"
        );
        assert_eq!(rt;
            add_up(dec(a, 0)?, dec(b, 0)?),
            Some(dec(sum, 0)?),
            "{a} + {b}"
        );
    }
    for (a, b) in [(MOST, 1), (-1, -MOST)] {
        assert_eq!(rt; add_down(dec(a, 0)?, dec(b, 0)?), None, "{a} + {b}");
        assert_eq!(rt; add_up(dec(a, 0)?, dec(b, 0)?), None, "{a} + {b}");
    }
    Ok(())
}

#[test]
fn texts(rt: HostRuntime) -> Result<(), Fail> {
    for (n, places, text) in [
        (0, 0, "0"),
        (-12, 0, "-12"),
        (MOST, 0, "999999999999999999"),
        (105, 2, "1.05"),
        (-5, 1, "-0.5"),
        (1, 36, "0.000000000000000000000000000000000001"),
        (-MOST, 18, "-0.999999999999999999"),
        (MOST, 17, "9.99999999999999999"),
        (7, 18, "0.000000000000000007"),
        (-MOST, 19, "-0.0999999999999999999"),
        (MOST, 36, "0.000000000000000000999999999999999999"),
    ] {
        let number = dec(n, places)?;
        let mut put = Bytes::from_slice(rt.alloc(), b"x ")?;
        number.put(&mut put)?;
        assert_eq!(rt; &put.as_slice()[2..], text.as_bytes(), "at {n}");
        assert_eq!(rt;
            number.print(rt.alloc())?.as_slice(),
            text.as_bytes(),
            "at {n}"
        );
    }
    Ok(())
}

#[test]
fn order(rt: HostRuntime) -> Result<(), Fail> {
    // Rising numbers.
    let rising = [
        dec(-MOST, 0)?,
        dec(-1, 0)?,
        dec(-MOST, 18)?,
        dec(-1, 36)?,
        dec(0, 0)?,
        dec(1, 36)?,
        dec(2, 19)?,
        dec(5, 1)?,
        dec(MOST, 18)?,
        dec(1, 0)?,
        dec(MOST, 0)?,
    ];
    for (i, a) in rising.iter().enumerate() {
        for (j, b) in rising.iter().enumerate() {
            assert_eq!(rt; a.cmp(b), i.cmp(&j), "{a:?} and {b:?}");
            assert_eq!(rt; a < b, i < j, "{a:?} and {b:?}");
        }
    }
    assert_eq!(rt; dec(-15, 1)?.negated(), dec(15, 1)?);
    Ok(())
}
