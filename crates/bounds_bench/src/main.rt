//! Times the operations on decimal numbers over mixed operands, by hand: `bounds_bench 10000000`.
//!
//! For each operation it prints a checksum on standard output, and the time of one call on standard
//! error. Without a number it calls each operation ten million times.
#![tactic(auto)]

use decimal18::{Dec, add_down, add_up, div_down, div_up, mul_down, mul_up, sub_down, sub_up};
use std::time::Instant;
use std::{env, io};

/// How often each operation is called where no word says it.
const CALLS: u64 = 10_000_000;

// Numbers of 18 digits at several places, short ones, and the ends of the range. Each operation meets
// each pair of them in turn.
fn operands() -> Option<[Dec; 16]> {
    Some([
        Dec::new(123_456_789_012_345_678, 9)?,
        Dec::new(-987_654_321_098_765_431, 9)?,
        Dec::new(314_159_265_358_979_323, 17)?,
        Dec::new(271_828_182_845_904_523, 17)?,
        Dec::new(-141_421_356_237_309_504, 16)?,
        Dec::new(577_215_664_901_532_861, 18)?,
        Dec::new(161_803_398_874_989_485, 12)?,
        Dec::new(-123_456_789_123_456_789, 10)?,
        Dec::new(12, 1)?,
        Dec::new(-345, 2)?,
        Dec::new(1050, 0)?,
        Dec::new(999_999_999_999_999_999, 0)?,
        Dec::new(1, 36)?,
        Dec::new(-25, 2)?,
        Dec::new(662_607_015, 36)?,
        Dec::new(299_792_458, 0)?,
    ])
}

fn quotient_down(a: Dec, b: Dec) -> Option<Dec> {
    if b.coefficient() == 0 {
        return None;
    }
    div_down(a, b)
}

fn quotient_up(a: Dec, b: Dec) -> Option<Dec> {
    if b.coefficient() == 0 {
        return None;
    }
    div_up(a, b)
}

// The sum of the coefficients of the results, without their signs, in 64 bits.
fn checksum<F: Fn(Dec, Dec) -> Option<Dec>>(calls: u64, operands: &[Dec; 16], operation: F) -> u64
    requires { F.IsAlwaysCallable operation }
{
    let mut sum = 0_u64;
    for call in 0..calls {
        let a = operands[(call % 16) as usize];
        let b = operands[(call / 16 % 16) as usize];
        if let Some(number) = operation(a, b) {
            sum = sum.wrapping_add(number.coefficient().unsigned_abs());
        }
    }
    sum
}

macro_rules! timed {
    ($rt:expr, $calls:expr, $operands:expr, $($operation:ident),+) => {
        $({
            let start = Instant::now(&$rt)?;
            let sum = checksum($calls, &$operands, |a, b| $operation(a, b));
            let picoseconds = start.elapsed(&$rt)?.as_nanos() * 1000 / ($calls as u128 + 1);
            println!($rt; "{} {}", stringify!($operation), sum)?;
            eprintln!($rt; "{}: {} ps a call", stringify!($operation), picoseconds)?;
        })+
    };
}

fn main(rt: HostRuntime) -> io::Result<()> {
    let mut words = env::args(&rt)?;
    let _program = words.next();
    let calls = match words.next() {
        Some(word) => word.parse::<u64>().unwrap_or(CALLS),
        None => CALLS,
    };
    let Some(operands) = operands() else {
        return Ok(());
    };
    timed!(rt, calls, operands, add_down, add_up, sub_down, sub_up);
    timed!(
        rt,
        calls,
        operands,
        mul_down,
        mul_up,
        quotient_down,
        quotient_up
    );
    Ok(())
}
