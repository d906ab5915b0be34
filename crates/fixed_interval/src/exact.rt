// The spans of single exact results: where the result is a bound itself, it is found once for both ends.
ghost use Rattle.std.specs.Prelude.{◌≡◌, ◌≤◌, true, false, IfSome};
ghost use Rattle.exact_fraction.specs.Number.{◌+ℚ◌, ◌*ℚ◌, ◌/ℚ◌, is_zero_ℚ};
ghost use Rattle.decimal18.specs.Bound.{value_of, IsDecimal};
ghost use Rattle.fixed_interval.specs.Interval.{outward};

use crate::interval::Span;
use decimal18::{Dec, add_down, add_up, div_down, div_up, mul_down, mul_up};

// The sum, where both have the same places and it is a bound.
fn exact_sum(a: Dec, b: Dec) -> Option<Dec>
    ensures value { IfSome result (λ d. value_of d ≡ value_of a +ℚ value_of b) }
    ensures decimal { IfSome result IsDecimal }
{
    if a.places() != b.places() {
        return None;
    }
    Dec::new(a.coefficient() + b.coefficient(), a.places())
}

// Whether a sum that was rounded down kept the places of both: then nothing of it was cut off.
fn has_all_places(a: Dec, b: Dec, sum: Dec) -> bool
    ensures { result ≡ true → (a.places ≤ sum.places) × (b.places ≤ sum.places) }
{
    a.places() <= sum.places() && b.places() <= sum.places()
}

// The product, where 64 bits hold its digits and it is a bound.
fn exact_product(a: Dec, b: Dec) -> Option<Dec>
    ensures value { IfSome result (λ d. value_of d ≡ value_of a *ℚ value_of b) }
    ensures decimal { IfSome result IsDecimal }
{
    let coefficient = a.coefficient().checked_mul(b.coefficient())?;
    Dec::new(coefficient, a.places() + b.places())
}

// Whether `quotient` times `b` is seen to be `a`.
fn is_exact(a: Dec, b: Dec, quotient: Dec) -> bool
    ensures { result ≡ true → value_of a ≡ value_of quotient *ℚ value_of b }
{
    match exact_product(quotient, b) {
        Some(product) => product == a,
        None => false,
    }
}

/// The span of `a + b`.
pub fn sum(a: Dec, b: Dec) -> Option<Span>
    ensures { result ≡ outward (value_of a +ℚ value_of b) (value_of a +ℚ value_of b) }
{
    if let Some(sum) = exact_sum(a, b) {
        return Some(Span::at(sum));
    }
    let sum = add_down(a, b)?;
    if has_all_places(a, b, sum) {
        return Some(Span::at(sum));
    }
    Span::from_ends(Some(sum), add_up(a, b))
}

/// The span of `a * b`.
pub fn product(a: Dec, b: Dec) -> Option<Span>
    ensures { result ≡ outward (value_of a *ℚ value_of b) (value_of a *ℚ value_of b) }
{
    if let Some(product) = exact_product(a, b) {
        return Some(Span::at(product));
    }
    Span::from_ends(mul_down(a, b), mul_up(a, b))
}

/// The span of `a / b`.
pub fn quotient(a: Dec, b: Dec) -> Option<Span>
    requires { is_zero_ℚ (value_of b) ≡ false }
    ensures { result ≡ outward (value_of a /ℚ value_of b) (value_of a /ℚ value_of b) }
{
    let quotient = div_down(a, b)?;
    if is_exact(a, b, quotient) {
        return Some(Span::at(quotient));
    }
    Span::from_ends(Some(quotient), div_up(a, b))
}
