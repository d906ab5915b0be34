ghost use Rattle.std.specs.Prelude.{◌≡◌};

use crate::{Readings, ReadingsFault};
use decimal18::Dec;
use fixed_interval::{Span, Steps};
use std::alloc::Global;
use std::marker::Brand;
use std::process::Abort;
use std::sync::ledger::{Blank, Ledger};
use std::test::Fail;

// Voltages in volts and currents in milliamperes, in units of 10^-3 (JCGM 100:2008, Table H.2).
const VOLTAGE_AND_CURRENT: [(i64, i64); 5] = [
    (5007, 19_663),
    (4994, 19_639),
    (5005, 19_640),
    (4990, 19_685),
    (4999, 19_678),
];

fn pair(alloc: Global, v: i64, i: i64) -> Result<Vec<Dec>, Fail> {
    let mut row = Vec::new(alloc);
    row.push(Dec::new(v, 3).ok_or("not a bound")?)?;
    row.push(Dec::new(i, 3).ok_or("not a bound")?)?;
    Ok(row)
}

fn ends_of(span: &Span) -> ((i64, u8), (i64, u8)) {
    let (lo, hi) = (span.lo(), span.hi());
    (
        (lo.coefficient(), lo.places()),
        (hi.coefficient(), hi.places()),
    )
}

// The point of so many units of 10^-places.
fn point(coefficient: i64, places: u8) -> ((i64, u8), (i64, u8)) {
    ((coefficient, places), (coefficient, places))
}

fn table_h2<L: Ledger>(rt: &impl Abort, alloc: Global, blank: Blank) -> Result<(), Fail>
    requires name { blank.name ≡ L.name }
    requires parts { blank.parts ≡ L.parts }
    requires one { L.parts ≡ 1 }
{
    let mut rows = Vec::new(alloc);
    for (v, i) in VOLTAGE_AND_CURRENT {
        rows.push(pair(alloc, v, i)?)?;
    }
    let Ok(readings) = Readings::new(alloc, rows.as_slice()) else {
        return Err("not taken")?;
    };
    if readings.count() != 5 || readings.width() != 2 {
        return Err("another table")?;
    }
    let mut steps: Steps<L> = Steps::new(blank);
    assert_eq!(rt;
        readings.value_at(3, 0),
        Dec::new(499, 2).ok_or("not a bound")?
    );
    assert_eq!(rt; ends_of(&readings.mean(0, &mut steps)), point(4999, 3));
    assert_eq!(rt; ends_of(&readings.mean(1, &mut steps)), point(19_661, 3));
    // the standard uncertainties are 0.0032 V and 0.0095 mA, the correlation coefficient -0.36
    assert_eq!(rt; ends_of(&readings.joint(0, 0, &mut steps)), point(103, 7));
    assert_eq!(rt; ends_of(&readings.joint(1, 1, &mut steps)), point(897, 7));
    assert_eq!(rt; ends_of(&readings.joint(0, 1, &mut steps)), point(-108, 7));
    assert_eq!(rt; ends_of(&readings.joint(1, 0, &mut steps)), point(-108, 7));
    Ok(())
}

#[test]
fn table_h2_is_evaluated(rt: HostRuntime) -> Result<(), Fail> {
    table_h2::<Brand>(&rt, rt.alloc(), Blank::new(1))
}

// So many records that read 999,999,999.999999 and -999,999,999.999999 in turn.
fn alternating(alloc: Global, count: usize) -> Result<Vec<Vec<Dec>>, Fail> {
    let high = Dec::new(999_999_999_999_999, 6).ok_or("not a bound")?;
    let mut rows = Vec::new(alloc);
    for i in 0..count {
        let mut row = Vec::new(alloc);
        row.push(if i % 2 == 0 { high } else { high.negated() })?;
        rows.push(row)?;
    }
    Ok(rows)
}

// The sums are the largest that there are, in two directions.
fn large_sums<L: Ledger>(rt: &impl Abort, alloc: Global, blank: Blank) -> Result<(), Fail>
    requires name { blank.name ≡ L.name }
    requires parts { blank.parts ≡ L.parts }
    requires one { L.parts ≡ 1 }
{
    let mut steps: Steps<L> = Steps::new(blank);
    let rows = alternating(alloc, 1000)?;
    let Ok(readings) = Readings::new(alloc, rows.as_slice()) else {
        return Err("not taken")?;
    };
    if readings.width() != 1 {
        return Err("another table")?;
    }
    assert_eq!(rt; ends_of(&readings.mean(0, &mut steps)), point(0, 0));
    // 999999999.999999² / 999, rounded outwards to 18 digits
    let ends = ((100_100_100_100_099_899, 2), (1_001_001_001_000_999, 0));
    assert_eq!(rt; ends_of(&readings.joint(0, 0, &mut steps)), ends);
    Ok(())
}

#[test]
fn large_sums_are_found(rt: HostRuntime) -> Result<(), Fail> {
    large_sums::<Brand>(&rt, rt.alloc(), Blank::new(1))
}

fn refused(alloc: Global, rows: &[Vec<Dec>], fault: ReadingsFault) -> bool {
    match Readings::new(alloc, rows) {
        Ok(_) => false,
        Err(other) => other == fault,
    }
}

#[test]
fn readings_are_refused(rt: HostRuntime) -> Result<(), Fail> {
    let alloc = rt.alloc();
    let mut rows = alternating(alloc, 1)?;
    assert!(&rt; refused(alloc, rows.as_slice(), ReadingsFault::TooFew));
    let mut wide = Vec::new(alloc);
    wide.push(Dec::whole(1_000_000_000))?;
    rows.push(wide)?;
    assert!(&rt; refused(alloc, rows.as_slice(), ReadingsFault::Wide(2)));
    rows.push(pair(alloc, 1, 2)?)?;
    assert!(&rt; refused(alloc, rows.as_slice(), ReadingsFault::Shape(3)));
    let rows = alternating(alloc, 1001)?;
    assert!(&rt; refused(alloc, rows.as_slice(), ReadingsFault::TooMany));
    Ok(())
}
