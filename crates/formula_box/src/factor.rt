//! The factor by which the derivative of a base is multiplied in that of its power.

ghost use Rattle.std.specs.Prelude.{◌≡◌, ◌+◌, ◌≤◌, ◌<◌, Some, unsigned_abs};
ghost use Rattle.fixed_interval.specs.Powers.{power_steps};
ghost use Rattle.formula_box.specs.Slopes.{rising_factor, falling_factor};

use decimal18::Dec;
use fixed_interval::{Span, Steps, div, mul, point, pow};
use std::sync::ledger::Ledger;

/// `k v^(k - 1)`, for a power by `k`.
pub(crate) fn rising_factor<L: Ledger>(v: Span, k: u8, steps: &mut Steps<L>) -> Option<Span>
    requires least { 2 ≤ k }
    requires most { k ≤ 9 }
    ensures span { result ≡ rising_factor k (Some v) }
    ensures ticks { steps.new + power_steps k ≤ steps.old + 10 }
{
    let number = point(Dec::whole(k as i32), steps);
    let power = pow(&v, (k - 1) as i8, steps).ok()?;
    mul(&number, &power, steps).ok()
}

/// `k x / v`, for a power by the negative number `k` with the value `x`.
pub(crate) fn falling_factor<L: Ledger>(
    v: Span,
    k: i8,
    x: Span,
    steps: &mut Steps<L>,
) -> Option<Span>
    requires { unsigned_abs k < 10 }
    ensures span { result ≡ falling_factor k (Some v) (Some x) }
    ensures ticks { steps.new ≤ steps.old + 3 }
{
    let number = point(Dec::whole(k as i32), steps);
    let product = mul(&number, &x, steps).ok()?;
    div(&product, &v, steps).ok()
}
