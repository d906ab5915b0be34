use crate::{
    Decision, Degrees, Digits, Ends, Exact, Form, Level, Rule, Share, Span, Statement, at_place,
    correlation, decide, effective, factor, stated, two_digits, whole_degrees,
};
use std::process::Abort;
use std::test::Fail;

// A number, as a numerator and a denominator.
type Pair = (i64, u64);

fn fraction((numerator, denominator): Pair) -> Result<Exact, &'static str> {
    Exact::ratio(numerator, denominator).ok_or("a denominator of 0")
}

fn is_equal(number: Exact, wanted: Exact) -> Option<bool> {
    Some(number.minus(wanted)?.is_zero())
}

struct DegreesCase {
    variance: Pair,
    // the part and 1/ν of each
    shares: [(Pair, Pair); 3],
    whole_degrees: i64,
    thousandths: i64,
}

// Two inputs with 5 degrees each; inputs with 5 and 10; a certificate, a rectangle and five readings;
// and five joint readings (JCGM 100:2008, H.2).
const DEGREES: [DegreesCase; 4] = [
    DegreesCase {
        variance: (2, 1),
        shares: [((1, 1), (1, 5)), ((1, 1), (1, 5)), ((0, 1), (0, 1))],
        whole_degrees: 10,
        thousandths: 2230,
    },
    DegreesCase {
        variance: (5, 1),
        shares: [((1, 1), (1, 5)), ((4, 1), (1, 10)), ((0, 1), (0, 1))],
        whole_degrees: 13,
        thousandths: 2160,
    },
    DegreesCase {
        variance: (3803, 6_000_000),
        shares: [
            ((1, 1600), (0, 1)),
            ((1, 2_000_000), (1, 4)),
            ((1, 120_000), (0, 1)),
        ],
        whole_degrees: 6_427_915,
        thousandths: 1984,
    },
    DegreesCase {
        variance: (558, 10_000),
        shares: [((558, 10_000), (1, 4)), ((0, 1), (0, 1)), ((0, 1), (0, 1))],
        whole_degrees: 4,
        thousandths: 2780,
    },
];

fn share((part, inverse_degrees): (Pair, Pair)) -> Result<Share, &'static str> {
    Ok(Share {
        part: fraction(part)?,
        inverse_degrees: fraction(inverse_degrees)?,
    })
}

fn finite_case(rt: &impl Abort, case: &DegreesCase) -> Result<(), Fail> {
    let shares = [
        share(case.shares[0])?,
        share(case.shares[1])?,
        share(case.shares[2])?,
    ];
    let degrees = effective(fraction(case.variance)?, &shares).ok_or("128 bits")?;
    let Degrees::Finite(number) = degrees else {
        return Err("no finite degrees")?;
    };
    assert_eq!(rt;
        is_equal(whole_degrees(number), Exact::whole(case.whole_degrees)),
        Some(true)
    );
    let k = factor(Level::Percent95, degrees).ok_or("128 bits")?;
    assert_eq!(rt;
        is_equal(k, fraction((case.thousandths, 1000))?),
        Some(true)
    );
    Ok(())
}

#[test]
fn degrees_of_freedom(rt: HostRuntime) -> Result<(), Fail> {
    for case in &DEGREES {
        finite_case(&rt, case)?;
    }
    Ok(())
}

#[test]
fn no_finite_degrees(rt: HostRuntime) -> Result<(), Fail> {
    let none = effective(Exact::whole(0), &[]).ok_or("128 bits")?;
    assert!(rt; matches!(none, Degrees::None));
    let k = factor(Level::Percent9545, none).ok_or("128 bits")?;
    assert_eq!(rt; is_equal(k, Exact::whole(2)), Some(true));
    let certain = [share(((1, 1), (0, 1)))?];
    let infinite = effective(Exact::whole(1), &certain).ok_or("128 bits")?;
    assert!(rt; matches!(infinite, Degrees::Infinite));
    let k = factor(Level::Percent99, infinite).ok_or("128 bits")?;
    assert_eq!(rt; is_equal(k, fraction((2576, 1000))?), Some(true));
    Ok(())
}

// A variance, and the digits and the exponent of its root.
const DIGITS: [(Pair, u8, i32); 8] = [
    ((1, 1), 10, -1),
    ((558, 10_000), 24, -2),
    ((3803, 6_000_000), 25, -3),
    // 0.995 is rounded to 1.0, and what is below it to 0.99
    ((990_025, 1_000_000), 10, -1),
    ((990_024, 1_000_000), 99, -2),
    // a tie: 1.15
    ((13_225, 10_000), 12, -1),
    ((25, 1_000_000_000_000_000_000), 50, -10),
    ((1_000_000_000_000_000_000, 1), 10, 8),
];

#[test]
fn digits_of_uncertainties(rt: HostRuntime) -> Result<(), Fail> {
    for (variance, wanted_digits, wanted_exponent) in DIGITS {
        let found = two_digits(fraction(variance)?).ok_or("128 bits")?;
        let Digits::Two { digits, exponent } = found else {
            return Err("no digits")?;
        };
        assert_eq!(rt; (digits, exponent), (wanted_digits, wanted_exponent));
    }
    assert!(rt; matches!(two_digits(Exact::whole(0)), Some(Digits::Zero)));
    assert!(rt; two_digits(Exact::whole(-1)).is_none());
    Ok(())
}

// An estimate, an exponent, and the estimate in units of the place.
const ESTIMATES: [(Pair, i32, i64); 6] = [
    ((1, 2), 0, 1),
    ((-1, 2), 0, 0),
    ((25, 1), 1, 3),
    ((-25, 1), 1, -2),
    ((100_011, 1000), -3, 100_011),
    ((4_999_000, 19_661), -2, 25_426),
];

#[test]
fn estimates_at_places(rt: HostRuntime) -> Result<(), Fail> {
    for (estimate, exponent, wanted) in ESTIMATES {
        let units = at_place(fraction(estimate)?, exponent).ok_or("128 bits")?;
        assert_eq!(rt;
            is_equal(units, Exact::whole(wanted)),
            Some(true),
            "at {exponent}"
        );
    }
    Ok(())
}

// The variance of 1000 V / I at 4.999 and 19.661 (JCGM 100:2008, H.2).
fn impedance_variance() -> Option<Exact> {
    let by_voltage = Exact::ratio(1_000_000, 19_661)?;
    let by_current = Exact::ratio(-4_999_000_000, 19_661 * 19_661)?;
    let voltage = Exact::ratio(103, 10_000_000)?;
    let current = Exact::ratio(897, 10_000_000)?;
    let both = Exact::ratio(-108, 10_000_000)?;
    let own = by_voltage.times(by_voltage)?.times(voltage)?;
    let other = by_current.times(by_current)?.times(current)?;
    let mixed = by_voltage.times(by_current)?.times(both)?;
    own.plus(other)?.plus(mixed.plus(mixed)?)
}

#[test]
fn impedance(rt: HostRuntime) -> Result<(), Fail> {
    let variance = impedance_variance().ok_or("128 bits")?;
    let Some(Digits::Two { digits, exponent }) = two_digits(variance) else {
        return Err("no digits")?;
    };
    assert_eq!(rt; (digits, exponent), (24, -2));
    let k = fraction((278, 100))?;
    let square = k.times(k).ok_or("128 bits")?;
    let expanded = square.times(variance).ok_or("128 bits")?;
    let Some(Digits::Two { digits, exponent }) = two_digits(expanded) else {
        return Err("no digits")?;
    };
    assert_eq!(rt; (digits, exponent), (66, -2));
    let coefficient = correlation(
        fraction((-108, 1))?,
        fraction((103, 1))?,
        fraction((897, 1))?,
    );
    assert_eq!(rt; coefficient, Some(-36));
    Ok(())
}

// A guard factor and a form, with the statement on the impedance and the upper limit 255. With the guard
// 1.125 the printed expanded uncertainty 0.66 would give another answer.
const STATEMENTS: [(Pair, Form, Statement); 4] = [
    ((1, 1), Form::Binary, Statement::Pass),
    ((1125, 1000), Form::Binary, Statement::Pass),
    ((3, 2), Form::Binary, Statement::Fail),
    ((3, 2), Form::FourOutcomes, Statement::ConditionalPass),
];

#[test]
fn impedance_decided(rt: HostRuntime) -> Result<(), Fail> {
    let variance = impedance_variance().ok_or("128 bits")?;
    let estimate = fraction((4_999_000, 19_661))?;
    let k = fraction((278, 100))?;
    for (guard, form, wanted) in STATEMENTS {
        let rule = Rule {
            lower: None,
            upper: Some(Exact::whole(255)),
            guard: fraction(guard)?,
            form,
        };
        assert_eq!(rt; stated(&rule, estimate, k, variance), Some(wanted));
    }
    Ok(())
}

// The statements on y = 0 with k = 2 and V = 1, so U = 2, and the guard factor 1.
const LIMITS: [(i64, i64, Form, Statement); 6] = [
    (-2, 2, Form::FourOutcomes, Statement::Pass),
    (-2, 1, Form::FourOutcomes, Statement::ConditionalPass),
    (-1, 2, Form::FourOutcomes, Statement::ConditionalPass),
    (2, 4, Form::FourOutcomes, Statement::ConditionalFail),
    (3, 4, Form::FourOutcomes, Statement::Fail),
    (-2, 1, Form::Binary, Statement::Fail),
];

#[test]
fn statements_at_two_limits(rt: HostRuntime) -> Result<(), Fail> {
    for (lower, upper, form, wanted) in LIMITS {
        let rule = Rule {
            lower: Some(Exact::whole(lower)),
            upper: Some(Exact::whole(upper)),
            guard: Exact::whole(1),
            form,
        };
        let found = stated(&rule, Exact::whole(0), Exact::whole(2), Exact::whole(1));
        assert_eq!(rt; found, Some(wanted), "at {lower}, {upper}");
    }
    Ok(())
}

// A variance of 0 has no correlation coefficient.
#[test]
fn no_correlation_of_a_variance_0(rt: HostRuntime) -> Result<(), Fail> {
    let zero = Exact::whole(0);
    let one = Exact::whole(1);
    assert_eq!(rt; correlation(zero, zero, one), None);
    assert_eq!(rt; correlation(zero, one, zero), None);
    assert_eq!(rt; correlation(one.negated(), one, Exact::whole(4)), Some(-50));
    Ok(())
}

// In hundredths: the ends of W, of the distance and of its square, with the decision of the form with
// four outcomes.
const DECISIONS: [([i64; 6], Decision); 6] = [
    ([40, 45, 70, 80, 49, 64], Decision::Stated(Statement::Pass)),
    ([40, 50, 70, 80, 49, 64], Decision::Undecided(1)),
    (
        [70, 75, 70, 80, 49, 64],
        Decision::Stated(Statement::ConditionalPass),
    ),
    ([2, 3, -10, 10, 0, 1], Decision::Undecided(2)),
    ([2, 3, -20, -10, 1, 4], Decision::Undecided(3)),
    ([2, 3, -20, -20, 4, 4], Decision::Stated(Statement::Fail)),
];

fn interval(low: i64, high: i64) -> Result<Ends, &'static str> {
    Ok(Ends {
        low: fraction((low, 100))?,
        high: fraction((high, 100))?,
    })
}

#[test]
fn decisions_over_intervals(rt: HostRuntime) -> Result<(), Fail> {
    for (ends, wanted) in DECISIONS {
        let square = interval(ends[0], ends[1])?;
        let spans = [Span {
            distance: interval(ends[2], ends[3])?,
            square: interval(ends[4], ends[5])?,
        }];
        assert_eq!(rt; decide(Form::FourOutcomes, square, &spans), Some(wanted));
    }
    Ok(())
}
