use crate::{
    Body, Column, Degrees, Exact, Expression, Failure, Group, Share, Table, covariance, derivative,
    effective, inverse_degrees, joint, law, mean, part_of, value,
};
use std::alloc::{AllocError, Global};
use std::process::Abort;
use std::test::Fail;

// The voltages and the currents of JCGM 100:2008, Table H.2, in thousandths of a volt and of a milliampere.
const VOLTAGES: [i64; 5] = [5007, 4994, 5005, 4990, 4999];

const CURRENTS: [i64; 5] = [19663, 19639, 19640, 19685, 19678];
// Differences in thousandths.
const DIFFERENCES: [i64; 5] = [12, 10, 11, 13, 9];

fn ratio(numerator: i64, denominator: u64) -> Result<Exact, &'static str> {
    Exact::ratio(numerator, denominator).ok_or("the divisor is not 0")
}

fn input(numerator: i64, denominator: u64) -> Result<Body, &'static str> {
    Ok(Body::Input(ratio(numerator, denominator)?))
}

fn sum(alloc: Global, a: Expression, b: Expression) -> Result<Expression, AllocError> {
    Ok(Expression::Add(Box::new(alloc, a)?, Box::new(alloc, b)?))
}

fn difference(alloc: Global, a: Expression, b: Expression) -> Result<Expression, AllocError> {
    Ok(Expression::Sub(Box::new(alloc, a)?, Box::new(alloc, b)?))
}

fn times(alloc: Global, a: Expression, number: i64) -> Result<Expression, AllocError> {
    let factor = Expression::Num(Exact::whole(number));
    Ok(Expression::Mul(Box::new(alloc, a)?, Box::new(alloc, factor)?))
}

fn quotient(alloc: Global, a: Expression, b: Expression) -> Result<Expression, AllocError> {
    Ok(Expression::Div(Box::new(alloc, a)?, Box::new(alloc, b)?))
}

// An input with its own variance, and infinite degrees.
fn own(key: usize, numerator: i64, denominator: u64) -> Result<Group, &'static str> {
    Ok(Group::Own {
        key,
        variance: ratio(numerator, denominator)?,
        inverse_degrees: Exact::whole(0),
    })
}

fn thousandths(alloc: Global, key: usize, readings: &[i64]) -> Result<Column, Fail> {
    let mut column = Vec::new(alloc);
    for reading in readings {
        column.push(ratio(*reading, 1000)?)?;
    }
    Ok(Column {
        key,
        readings: column,
    })
}

// Whether the answer is this number.
fn is(answer: Result<Exact, Failure>, numerator: i64, denominator: u64) -> bool {
    let Ok(number) = answer else {
        return false;
    };
    let Some(expected) = Exact::ratio(numerator, denominator) else {
        return false;
    };
    match number.minus(expected) {
        Some(difference) => difference.is_zero(),
        None => false,
    }
}

// X = 5 ± 1, A = 2 X, B = 3 X, C = B - A - X: three uses of one input, which cancel. Each counted as an
// input of its own would give the variance 9 + 4 + 1.
#[test]
fn uses_of_one_input_cancel(rt: HostRuntime) -> Result<(), Fail> {
    let alloc = rt.alloc();
    let mut model = Vec::new(alloc);
    model.push(input(5, 1)?)?;
    model.push(Body::Formula(times(alloc, Expression::Key(0), 2)?))?;
    model.push(Body::Formula(times(alloc, Expression::Key(0), 3)?))?;
    let rest = difference(alloc, Expression::Key(2), Expression::Key(1))?;
    model.push(Body::Formula(difference(alloc, rest, Expression::Key(0))?))?;
    let mut groups = Vec::new(alloc);
    groups.push(own(0, 1, 1)?)?;
    assert!(rt; is(value(&model, 3), 0, 1));
    assert!(rt; is(derivative(&model, 2, 0), 3, 1));
    assert!(rt; is(law(&model, &groups, 3, 3), 0, 1));
    assert!(rt; is(law(&model, &groups, 1, 2), 6, 1));
    Ok(())
}

// A = 1 ± 1 and B = 2 ± 1 with the correlation coefficient -1, S = A + B.
#[test]
fn full_correlation_cancels(rt: HostRuntime) -> Result<(), Fail> {
    let alloc = rt.alloc();
    let mut model = Vec::new(alloc);
    model.push(input(1, 1)?)?;
    model.push(input(2, 1)?)?;
    model.push(Body::Formula(sum(alloc, Expression::Key(0), Expression::Key(1))?))?;
    let pair = Group::Pair {
        first: 0,
        second: 1,
        first_variance: Exact::whole(1),
        second_variance: Exact::whole(1),
        covariance: Exact::whole(-1),
        inverse_degrees: Exact::whole(0),
    };
    let mut groups = Vec::new(alloc);
    groups.push(pair)?;
    assert!(rt; is(value(&model, 2), 3, 1));
    assert!(rt; is(law(&model, &groups, 2, 2), 0, 1));
    assert!(rt; is(law(&model, &groups, 0, 0), 1, 1));
    assert_eq!(rt;
        covariance(&groups, 0, 1).map(|c| is(Ok(c), -1, 1)),
        Some(true)
    );
    Ok(())
}

// Z = 1000 V / I of five records of V and I, as in JCGM 100:2008, H.2, where u(Z) is 0.236. The exact
// variance was found by rational arithmetic outside of this repository.
#[test]
fn impedance_of_joint_readings(rt: HostRuntime) -> Result<(), Fail> {
    let alloc = rt.alloc();
    let voltage = thousandths(alloc, 0, &VOLTAGES)?;
    let current = thousandths(alloc, 1, &CURRENTS)?;
    let voltage_mean = mean(5, &voltage).ok_or("held")?;
    let current_mean = mean(5, &current).ok_or("held")?;
    assert!(rt; is(Ok(voltage_mean), 4999, 1000));
    assert!(rt; is(Ok(current_mean), 19661, 1000));
    assert!(rt;
        is(
            joint(5, &voltage, &voltage).ok_or(Failure::TooWide),
            103,
            10_000_000
        )
    );
    assert!(rt;
        is(
            joint(5, &voltage, &current).ok_or(Failure::TooWide),
            -108,
            10_000_000
        )
    );
    assert!(rt;
        is(
            joint(5, &current, &current).ok_or(Failure::TooWide),
            897,
            10_000_000
        )
    );
    let mut model = Vec::new(alloc);
    model.push(Body::Input(voltage_mean))?;
    model.push(Body::Input(current_mean))?;
    let ohms = quotient(
        alloc,
        times(alloc, Expression::Key(0), 1000)?,
        Expression::Key(1),
    )?;
    model.push(Body::Formula(ohms))?;
    let mut columns = Vec::new(alloc);
    columns.push(voltage)?;
    columns.push(current)?;
    let mut groups = Vec::new(alloc);
    groups.push(Group::Joint(Table::new(5, columns).ok_or("five records")?))?;
    assert!(rt; is(value(&model, 2), 4_999_000, 19_661));
    assert!(rt;
        is(
            law(&model, &groups, 2, 2),
            8_346_082_098_400_000,
            149_424_706_949_316_241
        )
    );
    Ok(())
}

// M = S + D + R: a mass of 100 with U = 0.050 at k = 2, the mean of five differences, and a correction
// of 0 with a rectangular distribution of half-width 0.005 (JCGM 100:2008, 4.2.3, 4.3.3, 4.3.7).
#[test]
fn calibration(rt: HostRuntime) -> Result<(), Fail> {
    let alloc = rt.alloc();
    let readings = thousandths(alloc, 1, &DIFFERENCES)?;
    let mut model = Vec::new(alloc);
    model.push(input(100, 1)?)?;
    model.push(Body::Input(mean(5, &readings).ok_or("held")?))?;
    model.push(input(0, 1)?)?;
    let mass = sum(alloc, Expression::Key(0), Expression::Key(1))?;
    model.push(Body::Formula(sum(alloc, mass, Expression::Key(2))?))?;
    let mut columns = Vec::new(alloc);
    columns.push(readings)?;
    let mut groups = Vec::new(alloc);
    groups.push(own(0, 625, 1_000_000)?)?;
    groups.push(Group::Joint(Table::new(5, columns).ok_or("five records")?))?;
    groups.push(own(2, 25, 3_000_000)?)?;
    assert!(rt; is(value(&model, 3), 100_011, 1000));
    assert!(rt; is(law(&model, &groups, 3, 3), 3803, 6_000_000));
    assert!(rt; is(part_of(&model, &groups[1], 3), 5, 10_000_000));
    Ok(())
}

fn share(
    model: &[Body],
    group: &Group,
    y: usize,
    inverse_degrees: Exact,
) -> Result<Share, &'static str> {
    match part_of(model, group, y) {
        Ok(part) => Ok(Share {
            part,
            inverse_degrees,
        }),
        Err(_) => Err("held"),
    }
}

fn finite(degrees: Option<Degrees>) -> Result<Exact, Failure> {
    match degrees {
        Some(Degrees::Finite(number)) => Ok(number),
        _ => Err(Failure::Undefined),
    }
}

// A = 1 ± 1 and B = 1 ± 1, each with 5 degrees of freedom, S = A + B: 10 degrees together.
#[test]
fn degrees_of_a_sum(rt: HostRuntime) -> Result<(), Fail> {
    let alloc = rt.alloc();
    let fifth = ratio(1, 5)?;
    let mut model = Vec::new(alloc);
    model.push(input(1, 1)?)?;
    model.push(input(1, 1)?)?;
    model.push(Body::Formula(sum(alloc, Expression::Key(0), Expression::Key(1))?))?;
    let mut groups = Vec::new(alloc);
    for key in 0..2 {
        groups.push(Group::Own {
            key,
            variance: Exact::whole(1),
            inverse_degrees: fifth,
        })?;
    }
    let Ok(variance) = law(&model, &groups, 2, 2) else {
        return Err("held".into());
    };
    let mut shares = Vec::new(alloc);
    for group in &groups {
        shares.push(share(&model, group, 2, fifth)?)?;
    }
    assert!(rt; is(Ok(variance), 2, 1));
    assert!(rt; is(finite(effective(variance, &shares)), 10, 1));
    Ok(())
}

// 1/ν of eleven readings, of a pair, and of an input.
#[test]
fn inverse_degrees_of_groups(rt: HostRuntime) -> Result<(), Fail> {
    let alloc = rt.alloc();
    let table = Table::new(11, Vec::new(alloc)).ok_or("eleven records")?;
    let tenth = inverse_degrees(&Group::Joint(table)).ok_or("held")?;
    assert!(rt; is(Ok(tenth), 1, 10));
    let pair = Group::Pair {
        first: 0,
        second: 1,
        first_variance: Exact::whole(4),
        second_variance: Exact::whole(9),
        covariance: Exact::whole(3),
        inverse_degrees: ratio(1, 8)?,
    };
    let eighth = inverse_degrees(&pair).ok_or("held")?;
    assert!(rt; is(Ok(eighth), 1, 8));
    let none = inverse_degrees(&own(0, 1, 1)?).ok_or("held")?;
    assert!(rt; none.is_zero());
    Ok(())
}

// A quotient by 0 is not defined, and so is what uses it, itself or a row that is not there; powers of 2
// leave 128 bits.
#[test]
fn failures(rt: HostRuntime) -> Result<(), Fail> {
    let alloc = rt.alloc();
    let mut model = Vec::new(alloc);
    model.push(input(1, 1)?)?;
    model.push(Body::Formula(difference(alloc, Expression::Key(0), Expression::Key(0))?))?;
    model.push(Body::Formula(quotient(alloc, Expression::Key(0), Expression::Key(1))?))?;
    model.push(Body::Formula(times(alloc, Expression::Key(2), 0)?))?;
    let two = Box::new(alloc, Expression::Num(Exact::whole(2)))?;
    model.push(Body::Formula(Expression::Pow(two, 120)))?;
    model.push(Body::Formula(times(alloc, Expression::Key(4), 1024)?))?;
    model.push(Body::Formula(times(alloc, Expression::Key(7), 1)?))?;
    model.push(Body::Formula(times(alloc, Expression::Key(6), 1)?))?;
    model.push(Body::Formula(times(alloc, Expression::Key(99), 1)?))?;
    let groups = Vec::new(alloc);
    assert_eq!(rt; value(&model, 3).err(), Some(Failure::Undefined));
    assert_eq!(rt; derivative(&model, 3, 0).err(), Some(Failure::Undefined));
    assert_eq!(rt; law(&model, &groups, 3, 0).err(), Some(Failure::Undefined));
    assert!(rt; value(&model, 4).is_ok());
    assert_eq!(rt; value(&model, 5).err(), Some(Failure::TooWide));
    // rows 6 and 7 use one another, row 8 uses a row that is not there, and 9 is none
    for key in 6..10 {
        assert_eq!(rt; value(&model, key).err(), Some(Failure::Undefined));
    }
    Ok(())
}

// 3/4 and -5/6, and -7/2, by the usual rules.
#[test]
fn numbers(rt: HostRuntime) -> Result<(), Fail> {
    let a = ratio(3, 4)?;
    let b = ratio(-5, 6)?;
    assert!(rt; Exact::ratio(1, 0).is_none());
    assert!(rt; is(a.plus(b).ok_or(Failure::TooWide), -1, 12));
    assert!(rt; is(a.minus(b).ok_or(Failure::TooWide), 19, 12));
    assert!(rt; is(a.times(b).ok_or(Failure::TooWide), -5, 8));
    assert!(rt; is(a.over(b).ok_or(Failure::TooWide), -9, 10));
    assert!(rt; is(b.inverse().ok_or(Failure::TooWide), -6, 5));
    assert!(rt; is(b.power(-3).ok_or(Failure::TooWide), -216, 125));
    assert!(rt; is(Ok(a.negated()), -3, 4));
    assert!(rt; is(Ok(ratio(-7, 2)?.floor()), -4, 1));
    assert!(rt; is(Ok(ratio(7, 2)?.floor()), 3, 1));
    assert_eq!(rt; b.at_most(a), Some(true));
    assert_eq!(rt; a.at_most(b), Some(false));
    assert!(rt; a.is_not_negative() && !b.is_not_negative() && !a.is_zero());
    Ok(())
}
