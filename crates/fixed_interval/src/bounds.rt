// What operations on spans do with single ends.
ghost use Rattle.std.specs.Prelude.{◌≡◌, pos};
ghost use Rattle.exact_fraction.specs.Number.{is_at_most_ℚ, of_ℤ};
ghost use Rattle.decimal18.specs.Bound.{value_of};
ghost use Rattle.fixed_interval.specs.Extremes.{greater, lesser};

use decimal18::Dec;

/// Whether `a` is at most `b`, as exact numbers.
pub fn is_at_most(a: Dec, b: Dec) -> bool
    ensures { result ≡ is_at_most_ℚ (value_of a) (value_of b) }
{
    // Both are in canonical form, as their places tell: equal values are equal numbers.
    let _canonical = (a.places(), b.places());
    a <= b
}

/// The lesser of two bounds.
pub fn lesser(a: Dec, b: Dec) -> Dec
    ensures { result ≡ lesser a b }
{
    if is_at_most(a, b) { a } else { b }
}

/// The greater of two bounds.
pub fn greater(a: Dec, b: Dec) -> Dec
    ensures { result ≡ greater a b }
{
    if is_at_most(a, b) { b } else { a }
}

/// Whether 0 is at most `a`.
pub(crate) fn is_not_negative(a: Dec) -> bool
    ensures { result ≡ is_at_most_ℚ (of_ℤ (pos 0)) (value_of a) }
{
    a.coefficient() >= 0
}

/// Whether `a` is at most 0.
pub(crate) fn is_not_positive(a: Dec) -> bool
    ensures { result ≡ is_at_most_ℚ (value_of a) (of_ℤ (pos 0)) }
{
    a.coefficient() <= 0
}
