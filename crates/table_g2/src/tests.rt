ghost use Rattle.std.specs.Prelude.{◌≡◌, IfOk};
ghost use Rattle.table_g2.specs.Known.{AreDegrees};

use crate::{DofSaid, Level, Nu, factor, said};
use decimal18::Dec;
use fixed_interval::{Span, Steps, is_at_most};
use std::marker::Brand;
use std::process::Abort;
use std::sync::ledger::{Blank, Ledger};
use std::test::Fail;

// Degrees of freedom from `lo` to `hi`, by coefficient and places.
fn range(lo: (i64, u8), hi: (i64, u8)) -> Result<Nu, &'static str>
    ensures { IfOk result AreDegrees }
{
    let Some(lo) = Dec::new(lo.0, lo.1) else {
        return Err("not a bound");
    };
    let Some(hi) = Dec::new(hi.0, hi.1) else {
        return Err("not a bound");
    };
    if !is_at_most(Dec::whole(1), lo) {
        return Err("less than one degree");
    }
    if !is_at_most(lo, hi) {
        return Err("the ends are turned");
    }
    Ok(Nu::Range { lo, hi: Some(hi) })
}

// Degrees of freedom from one on.
fn from_one() -> Nu
    ensures { AreDegrees result }
{
    Nu::Range {
        lo: Dec::whole(1),
        hi: None,
    }
}

// The coefficients and the places of the ends of a span.
type Ends = ((i64, u8), (i64, u8));

fn ends_of(span: &Span) -> Ends {
    let (lo, hi) = (span.lo(), span.hi());
    (
        (lo.coefficient(), lo.places()),
        (hi.coefficient(), hi.places()),
    )
}

// 16.7 degrees have the factor 2.92 at 99 percent in JCGM 100:2008, H.1.6; the others were read off Table G.2.
fn factors<L: Ledger>(rt: &impl Abort, blank: Blank) -> Result<(), Fail>
    requires name { blank.name ≡ L.name }
    requires parts { blank.parts ≡ L.parts }
    requires one { L.parts ≡ 1 }
{
    let mut steps: Steps<L> = Steps::new(blank);
    let degrees = [
        ((167, 1), (167, 1), Level::L99, ((292, 2), (292, 2))),
        ((1, 0), (1, 0), Level::L95, ((1271, 2), (1271, 2))),
        ((19, 1), (2, 0), Level::L9545, ((453, 2), (1397, 2))),
        ((4, 0), (16, 0), Level::L95, ((212, 2), (278, 2))),
        ((999, 1), (100, 0), Level::L99, ((2626, 3), (268, 2))),
    ];
    for (lo, hi, level, ends) in degrees {
        let nu = range(lo, hi)?;
        assert_eq!(rt; ends_of(&factor(&nu, level, &mut steps)), ends);
    }
    let from_one = from_one();
    assert_eq!(rt;
        ends_of(&factor(&from_one, Level::L95, &mut steps)),
        ((196, 2), (1271, 2))
    );
    assert_eq!(rt;
        ends_of(&factor(&Nu::None, Level::L9545, &mut steps)),
        ((2, 0), (2, 0))
    );
    assert_eq!(rt;
        ends_of(&factor(&Nu::Infinite, Level::L99, &mut steps)),
        ((2576, 3), (2576, 3))
    );
    Ok(())
}

#[test]
fn factors_are_found(rt: HostRuntime) -> Result<(), Fail> {
    factors::<Brand>(&rt, Blank::new(1))
}

#[test]
fn degrees_are_said(rt: HostRuntime) -> Result<(), Fail> {
    assert_eq!(rt; said(&Nu::None), DofSaid::None);
    assert_eq!(rt; said(&Nu::Infinite), DofSaid::Infinite);
    assert_eq!(rt; said(&from_one()), DofSaid::Unsettled);
    assert_eq!(rt; said(&range((1388, 2), (139, 1))?), DofSaid::Whole(13));
    assert_eq!(rt; said(&range((1399, 2), (14, 0))?), DofSaid::Unsettled);
    assert_eq!(rt;
        said(&range((1_000_000_000, 0), (1_000_000_000, 0))?),
        DofSaid::Big
    );
    Ok(())
}
