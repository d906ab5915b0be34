// The spans of sums, products and quotients, and the span that covers two: one exact result for two points,
// and elsewhere one result for each end, where the sign of an operand tells of which ends it is the result.
ghost use Rattle.std.specs.Prelude.{◌≡◌, false, if◌then◌else◌, pos};
ghost use Rattle.exact_fraction.specs.Number.{of_ℤ, ◌*ℚ◌, ◌/ℚ◌, ◌≤ℚ◌, is_at_most_ℚ, min_ℚ, max_ℚ};
ghost use Rattle.decimal18.specs.Bound.{value_of};
ghost use Rattle.fixed_interval.specs.Interval.{IsOrdered, outward, sum_span};
ghost use Rattle.fixed_interval.specs.Extremes.{hull};
ghost use Rattle.fixed_interval.specs.Rules.{holds_zero, product_span, quotient_span};

use crate::bounds::{greater, is_not_negative, is_not_positive, lesser};
use crate::exact::{product, quotient, sum};
use crate::interval::Span;
use decimal18::{Dec, add_down, add_up, div_down, div_up, mul_down, mul_up};

// The least span that covers both, where both are there.
pub(crate) fn hull(a: Option<Span>, b: Option<Span>) -> Option<Span>
    ensures { result ≡ hull a b }
{
    match (a, b) {
        (Some(a), Some(b)) => Some(Span::between(lesser(a.lo(), b.lo()), greater(a.hi(), b.hi()))),
        _ => None,
    }
}

pub(crate) fn holds_zero(s: &Span) -> bool
    ensures value { result ≡ holds_zero s.now }
    ensures ordered { IsOrdered s.now }
{
    is_not_positive(s.lo()) && is_not_negative(s.hi())
}

pub(crate) fn sums(a: &Span, b: &Span) -> Option<Span>
    ensures { result ≡ sum_span a.now b.now }
{
    if a.is_point() && b.is_point() {
        return sum(a.lo(), b.lo());
    }
    Span::from_ends(add_down(a.lo(), b.lo()), add_up(a.hi(), b.hi()))
}

// The end of `s` whose product with `x` is the least, and whose quotient is the greatest.
fn low_end(x: Dec, s: &Span) -> Dec
    ensures value { result ≡ (if is_at_most_ℚ (of_ℤ (pos 0)) (value_of x) then s.now.lo else s.now.hi) }
    ensures ordered { IsOrdered s.now }
{
    if is_not_negative(x) { s.lo() } else { s.hi() }
}

// The end of `s` whose product with `x` is the greatest, and whose quotient is the least.
fn high_end(x: Dec, s: &Span) -> Dec
    ensures value { result ≡ (if is_at_most_ℚ (of_ℤ (pos 0)) (value_of x) then s.now.hi else s.now.lo) }
    ensures ordered { IsOrdered s.now }
{
    if is_not_negative(x) { s.hi() } else { s.lo() }
}

// The span from the least product of `first` with a number in `s` to the greatest one of `last`.
fn products_from(first: Dec, last: Dec, s: &Span) -> Option<Span>
    requires { value_of first *ℚ value_of s.now.lo ≤ℚ value_of last *ℚ value_of s.now.lo }
    ensures span { result ≡ outward (min_ℚ (value_of first *ℚ value_of s.now.lo) (value_of first *ℚ value_of s.now.hi))
        (max_ℚ (value_of last *ℚ value_of s.now.lo) (value_of last *ℚ value_of s.now.hi)) }
    ensures ordered { IsOrdered s.now }
{
    let least = mul_down(first, low_end(first, s));
    let greatest = mul_up(last, high_end(last, s));
    Span::from_ends(least, greatest)
}

// The products where no number in `b` is below 0.
fn products_rising(a: &Span, b: &Span) -> Option<Span>
    requires { of_ℤ (pos 0) ≤ℚ value_of b.now.lo }
    ensures { result ≡ product_span a.now b.now }
{
    products_from(a.lo(), a.hi(), b)
}

// The products where no number in `b` is above 0.
fn products_falling(a: &Span, b: &Span) -> Option<Span>
    requires { value_of b.now.hi ≤ℚ of_ℤ (pos 0) }
    ensures { result ≡ product_span a.now b.now }
{
    // The ends of `b` are in order, as each of them tells.
    let _ordered = b.hi();
    products_from(a.hi(), a.lo(), b)
}

// The products of all four corners.
fn products_across(a: &Span, b: &Span) -> Option<Span>
    ensures { result ≡ product_span a.now b.now }
{
    hull(
        products_from(a.lo(), a.lo(), b),
        products_from(a.hi(), a.hi(), b),
    )
}

pub(crate) fn products(a: &Span, b: &Span) -> Option<Span>
    ensures { result ≡ product_span a.now b.now }
{
    if a.is_point() && b.is_point() {
        return product(a.lo(), b.lo());
    }
    if is_not_negative(b.lo()) {
        return products_rising(a, b);
    }
    if is_not_positive(b.hi()) {
        return products_falling(a, b);
    }
    if is_not_negative(a.lo()) {
        return products_rising(b, a);
    }
    if is_not_positive(a.hi()) {
        return products_falling(b, a);
    }
    products_across(a, b)
}

// The squares of the two ends.
pub(crate) fn squares(a: &Span) -> Option<Span>
    ensures { result ≡ hull (outward (value_of a.now.lo *ℚ value_of a.now.lo) (value_of a.now.lo *ℚ value_of a.now.lo))
        (outward (value_of a.now.hi *ℚ value_of a.now.hi) (value_of a.now.hi *ℚ value_of a.now.hi)) }
{
    hull(product(a.lo(), a.lo()), product(a.hi(), a.hi()))
}

// The span from the least quotient of `first` by a number in `s` to the greatest one of `last`.
fn quotients_from(first: Dec, last: Dec, s: &Span) -> Option<Span>
    requires nonzero { holds_zero s.now ≡ false }
    requires ordered { value_of first /ℚ value_of s.now.lo ≤ℚ value_of last /ℚ value_of s.now.lo }
    ensures span { result ≡ outward (min_ℚ (value_of first /ℚ value_of s.now.lo) (value_of first /ℚ value_of s.now.hi))
        (max_ℚ (value_of last /ℚ value_of s.now.lo) (value_of last /ℚ value_of s.now.hi)) }
    ensures ordered { IsOrdered s.now }
{
    let least = div_down(first, high_end(first, s));
    let greatest = div_up(last, low_end(last, s));
    Span::from_ends(least, greatest)
}

// The quotients where no number in `b` is below 0.
fn quotients_rising(a: &Span, b: &Span) -> Option<Span>
    requires nonzero { holds_zero b.now ≡ false }
    requires sign { of_ℤ (pos 0) ≤ℚ value_of b.now.lo }
    ensures { result ≡ quotient_span a.now b.now }
{
    // The ends of `b` are in order, as each of them tells.
    let _ordered = b.lo();
    quotients_from(a.lo(), a.hi(), b)
}

// The quotients where no number in `b` is above 0.
fn quotients_falling(a: &Span, b: &Span) -> Option<Span>
    requires nonzero { holds_zero b.now ≡ false }
    requires sign { value_of b.now.hi ≤ℚ of_ℤ (pos 0) }
    ensures { result ≡ quotient_span a.now b.now }
{
    // The ends of `b` are in order, as each of them tells.
    let _ordered = b.hi();
    quotients_from(a.hi(), a.lo(), b)
}

pub(crate) fn quotients(a: &Span, b: &Span) -> Option<Span>
    requires nonzero { holds_zero b.now ≡ false }
    ensures { result ≡ quotient_span a.now b.now }
{
    if a.is_point() && b.is_point() {
        return quotient(a.lo(), b.lo());
    }
    if is_not_negative(b.lo()) {
        return quotients_rising(a, b);
    }
    quotients_falling(a, b)
}
