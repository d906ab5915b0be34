ghost use Rattle.std.specs.Prelude.{◌≡◌, ◌≢◌, ◌+◌, ◌≤◌, IfOk, pos, negsuc, ◌≤ℤ◌};
ghost use Rattle.std.specs.Option.{ok_or};
ghost use Rattle.exact_fraction.specs.Number.{ℚ, ◌*ℚ◌, ◌/ℚ◌};
ghost use Rattle.exact_fraction.specs.Powers.{whole_power as exact_power};
ghost use Rattle.fixed_interval.specs.Interval.{Encloses};
ghost use Rattle.fixed_interval.specs.Rules.{product_span, square_span, quotient};
ghost use Rattle.fixed_interval.specs.Powers.{power, power_span, power_steps, steps_of_power};

use crate::corners::{holds_zero, hull, products, quotients, squares};
use crate::counter::Steps;
use crate::faults::{ArithFault, Overflow};
use crate::interval::{Span, point, zero};
use decimal18::Dec;
use std::sync::ledger::Ledger;

/// The span of the products of a number in `a` and a number in `b`, its ends rounded outwards. It
/// ticks once.
///
/// # Errors
///
/// [`Overflow`] exactly where the product of an end of `a` and an end of `b` is out of the range of
/// bounds.
pub fn mul<L: Ledger>(a: &Span, b: &Span, steps: &mut Steps<L>) -> Result<Span, Overflow>
    ensures span { result ≡ ok_or (product_span a.now b.now) (record {}) }
    ensures encloses { (q r : ℚ) → Encloses a.now q → Encloses b.now r → IfOk result (λ s. Encloses s (q *ℚ r)) }
    ensures ticks { steps.new ≡ steps.old + 1 }
{
    steps.tick();
    products(a, b).ok_or(Overflow)
}

/// The span of the squares of the numbers in `a`, its ends rounded outwards. It ticks once.
///
/// # Errors
///
/// [`Overflow`] exactly where the square of an end is out of the range of bounds.
pub fn sqr<L: Ledger>(a: &Span, steps: &mut Steps<L>) -> Result<Span, Overflow>
    ensures span { result ≡ ok_or (square_span a.now) (record {}) }
    ensures encloses { (q : ℚ) → Encloses a.now q → IfOk result (λ s. Encloses s (q *ℚ q)) }
    ensures ticks { steps.new ≡ steps.old + 1 }
{
    steps.tick();
    if holds_zero(a) {
        return hull(squares(a), Some(zero())).ok_or(Overflow);
    }
    products(a, a).ok_or(Overflow)
}

/// The span of the quotients of a number in `a` by a number in `b`, its ends rounded outwards. It
/// ticks once.
///
/// # Errors
///
/// [`ArithFault::ZeroDivisor`] exactly where 0 lies in `b`. Otherwise [`ArithFault::Overflow`] exactly
/// where the quotient of an end of `a` by an end of `b` is out of the range of bounds.
pub fn div<L: Ledger>(a: &Span, b: &Span, steps: &mut Steps<L>) -> Result<Span, ArithFault>
    ensures span { result ≡ quotient a.now b.now }
    ensures encloses { (q r : ℚ) → Encloses a.now q → Encloses b.now r → IfOk result (λ s. Encloses s (q /ℚ r)) }
    ensures ticks { steps.new ≡ steps.old + 1 }
{
    steps.tick();
    if holds_zero(b) {
        return Err(ArithFault::ZeroDivisor);
    }
    quotients(a, b).ok_or(ArithFault::Overflow)
}

// The span of the k-th powers, for k at least 1: a square for each halving of k, and a product for
// each odd one above 1.
fn whole_power<L: Ledger>(a: &Span, k: u8, steps: &mut Steps<L>) -> Result<Span, Overflow>
    requires { 1 ≤ k }
    ensures span { result ≡ ok_or (power_span a.now k) (record {}) }
    ensures ticks { IfOk result (λ _. steps.new ≡ steps.old + power_steps k) }
    ensures most_ticks { steps.new ≤ steps.old + power_steps k }
{
    if k == 1 {
        return Ok(*a);
    }
    let Ok(half) = whole_power(a, k / 2, steps) else {
        return Err(Overflow);
    };
    let Ok(even) = sqr(&half, steps) else {
        return Err(Overflow);
    };
    if k % 2 == 0 {
        return Ok(even);
    }
    mul(&even, a, steps)
}

/// The span of the `k`-th powers of the numbers in `a`, by squares and products of spans; for a
/// negative `k` the span of 1 divided by them.
///
/// # Errors
///
/// The fault of the first operation that has one: [`ArithFault::Overflow`] of a square or a product,
/// and either fault of the division.
pub fn pow<L: Ledger>(a: &Span, k: i8, steps: &mut Steps<L>) -> Result<Span, ArithFault>
    requires least { negsuc 8 ≤ℤ k }
    requires most { k ≤ℤ pos 9 }
    requires nonzero { k ≢ pos 0 }
    ensures span { result ≡ power a.now k }
    ensures encloses { (q : ℚ) → Encloses a.now q → IfOk result (λ s. Encloses s (exact_power q k)) }
    ensures ticks { IfOk result (λ _. steps.new ≡ steps.old + steps_of_power k) }
    ensures most_ticks { steps.new ≤ steps.old + steps_of_power k }
{
    let Ok(power) = whole_power(a, k.unsigned_abs(), steps) else {
        return Err(ArithFault::Overflow);
    };
    if k > 0 {
        return Ok(power);
    }
    let one = point(Dec::whole(1), steps);
    div(&one, &power, steps)
}
