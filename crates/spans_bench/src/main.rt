//! Calls an operation on spans over a set of operands, for its instructions to be counted:
//! `spans_bench OPERATION OPERANDS CALLS`. It prints a checksum.
#![tactic(auto)]

ghost use Rattle.std.specs.Prelude.{◌≡◌};

use decimal18::Dec;
use exact_fraction::Ratio;
use fixed_interval::{Span, Steps, add, div, mul, point, ratio, sqr, zero};
use std::env::Args;
use std::marker::Brand;
use std::sync::ledger::{Blank, Ledger};
use std::{env, io};

/// An operation on spans.
#[derive(Clone, Copy)]
enum Operation {
    Sum,
    Product,
    Quotient,
    Square,
    /// The loop alone.
    None,
}

/// Eight operands, of which each meets each.
#[derive(Clone, Copy)]
enum Operands {
    Points,
    LongPoints,
    Spans,
    PointsAndSpans,
    AcrossZero,
}

impl Operation {
    fn of_word(word: &str) -> Option<Operation> {
        match word.as_bytes() {
            b"sum" => Some(Operation::Sum),
            b"product" => Some(Operation::Product),
            b"quotient" => Some(Operation::Quotient),
            b"square" => Some(Operation::Square),
            b"none" => Some(Operation::None),
            _ => None,
        }
    }

    // What the operation gives of the two, where it gives a span.
    fn call<L: Ledger>(self, a: &Span, b: &Span, steps: &mut Steps<L>) -> Option<Span> {
        match self {
            Operation::Sum => add(a, b, steps).ok(),
            Operation::Product => mul(a, b, steps).ok(),
            Operation::Quotient => div(a, b, steps).ok(),
            Operation::Square => sqr(a, steps).ok(),
            Operation::None => Some(*a),
        }
    }
}

impl Operands {
    fn of_word(word: &str) -> Option<Operands> {
        match word.as_bytes() {
            b"points" => Some(Operands::Points),
            b"long-points" => Some(Operands::LongPoints),
            b"spans" => Some(Operands::Spans),
            b"points-and-spans" => Some(Operands::PointsAndSpans),
            b"across-zero" => Some(Operands::AcrossZero),
            _ => None,
        }
    }

    fn make<L: Ledger>(self, steps: &mut Steps<L>) -> Option<[Span; 8]> {
        match self {
            Operands::Points => points(steps),
            Operands::LongPoints => long_points(steps),
            Operands::Spans => spans(steps),
            Operands::PointsAndSpans => points_and_spans(steps),
            Operands::AcrossZero => across_zero(steps),
        }
    }
}

// Short points.
fn points<L: Ledger>(steps: &mut Steps<L>) -> Option<[Span; 8]> {
    let a = point(Dec::new(12, 1)?, steps);
    let b = point(Dec::new(-345, 2)?, steps);
    let c = point(Dec::new(1050, 0)?, steps);
    let d = point(Dec::new(-25, 2)?, steps);
    let e = point(Dec::new(299_792_458, 0)?, steps);
    let f = point(Dec::new(1_000_005, 6)?, steps);
    let g = point(Dec::new(8, 3)?, steps);
    let h = point(Dec::new(-2, 0)?, steps);
    Some([a, b, c, d, e, f, g, h])
}

// Points of 18 digits.
fn long_points<L: Ledger>(steps: &mut Steps<L>) -> Option<[Span; 8]> {
    let a = point(Dec::new(123_456_789_012_345_678, 9)?, steps);
    let b = point(Dec::new(-987_654_321_098_765_431, 17)?, steps);
    let c = point(Dec::new(314_159_265_358_979_323, 17)?, steps);
    let d = point(Dec::new(271_828_182_845_904_523, 17)?, steps);
    let e = point(Dec::new(-141_421_356_237_309_504, 16)?, steps);
    let f = point(Dec::new(577_215_664_901_532_861, 18)?, steps);
    let g = point(Dec::new(161_803_398_874_989_485, 12)?, steps);
    let h = point(Dec::new(-123_456_789_123_456_789, 10)?, steps);
    Some([a, b, c, d, e, f, g, h])
}

fn fraction<L: Ledger>(num: i128, den: u64, steps: &mut Steps<L>) -> Option<Span> {
    ratio(Ratio::new(num, den)?, 0, steps).ok()
}

// Proper spans of 18 digits.
fn spans<L: Ledger>(steps: &mut Steps<L>) -> Option<[Span; 8]> {
    let a = fraction(1, 3, steps)?;
    let b = fraction(-22, 7, steps)?;
    let c = fraction(100_000, 17, steps)?;
    let d = fraction(12, 11, steps)?;
    let e = fraction(-1, 19, steps)?;
    let f = fraction(4, 9_000_001, steps)?;
    let g = fraction(355, 113, steps)?;
    let h = fraction(-7, 13, steps)?;
    Some([a, b, c, d, e, f, g, h])
}

fn points_and_spans<L: Ledger>(steps: &mut Steps<L>) -> Option<[Span; 8]> {
    let p = points(steps)?;
    let s = spans(steps)?;
    let p = &p[..];
    let s = &s[..];
    Some([p[0], s[0], p[1], s[1], p[2], s[2], p[3], s[4]])
}

// Spans, of which one lies across 0, and 0 itself.
fn across_zero<L: Ledger>(steps: &mut Steps<L>) -> Option<[Span; 8]> {
    let s = spans(steps)?;
    let s = &s[..];
    let across = add(&s[0], &s[1], steps).ok()?;
    Some([s[0], s[1], across, s[2], zero(), s[3], s[5], s[6]])
}

// The sum of the coefficients of the ends, without their signs, and of the places, in 64 bits.
fn checked(sum: u64, span: Span) -> u64 {
    sum.wrapping_add(span.lo().coefficient().unsigned_abs())
        .wrapping_add(span.hi().coefficient().unsigned_abs())
        .wrapping_add(span.lo().places() as u64)
}

fn checksum<L: Ledger>(
    operation: Operation,
    calls: u64,
    operands: &[Span; 8],
    steps: &mut Steps<L>,
) -> u64 {
    let mut sum = 0_u64;
    for call in 0..calls {
        let a = operands[(call % 8) as usize];
        let b = operands[(call / 8 % 8) as usize];
        if let Some(span) = operation.call(&a, &b, steps) {
            sum = checked(sum, span);
        }
    }
    sum
}

fn measured<L: Ledger>(
    operation: Operation,
    operands: Operands,
    calls: u64,
    blank: Blank,
) -> Option<u64>
    requires name { blank.name ≡ L.name }
    requires parts { blank.parts ≡ L.parts }
    requires one { L.parts ≡ 1 }
{
    let mut steps: Steps<L> = Steps::new(blank);
    let spans = operands.make(&mut steps)?;
    Some(checksum(operation, calls, &spans, &mut steps))
}

fn asked(words: &mut Args) -> Option<(Operation, Operands, u64)> {
    let operation = Operation::of_word(&words.next()?)?;
    let operands = Operands::of_word(&words.next()?)?;
    let calls = words.next()?.parse::<u64>().ok()?;
    Some((operation, operands, calls))
}

fn main(rt: HostRuntime) -> io::Result<()> {
    let mut words = env::args(&rt)?;
    let _program = words.next();
    let Some((operation, operands, calls)) = asked(&mut words) else {
        return rt.eprintln("usage: spans_bench OPERATION OPERANDS CALLS");
    };
    match measured::<Brand>(operation, operands, calls, Blank::new(1)) {
        Some(sum) => println!(rt; "{sum}"),
        None => rt.eprintln("no operands"),
    }
}
