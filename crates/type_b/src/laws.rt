ghost use Rattle.std.specs.Prelude.{◌≡◌, not, pos, true, Some, None, ℕ};
ghost use Rattle.exact_fraction.specs.Number.{is_at_most_ℚ, is_zero_ℚ, of_ℤ, ◌/ℚ◌, ◌*ℚ◌};
ghost use Rattle.decimal18.specs.Bound.{Bound, scaled, value_of};
ghost use Rattle.fixed_interval.specs.Interval.{point_span};
ghost use Rattle.type_b.specs.Shapes.{inverse_degrees, is_above_one, is_negative, is_zero};
ghost use Rattle.type_b.specs.Variances.{deviation_of, states_deviation, variance_of, variance_span};
ghost use Rattle.type_b.specs.declared.shape.Dof.TheVariants.{Inf, Whole, Rel};
ghost use Rattle.type_b.specs.declared.shape.Shape.{Shape};
ghost use Rattle.type_b.specs.declared.shape.Shape.TheVariants.{Exact, Std, Exp, Norm, Rect, Tri, Trap, Arcsine};

/// What the tests of digits tell: the numbers below 0, the number 0, and the numbers above 1.
pub fn digits_tell_values()
    ensures negative { (b : Bound) → is_negative b ≡ not (is_at_most_ℚ (of_ℤ (pos 0)) (value_of b)) }
    ensures zero { (b : Bound) → is_zero b ≡ is_zero_ℚ (value_of b) }
    ensures above_one { (b : Bound) → is_above_one b ≡ not (is_at_most_ℚ (value_of b) (of_ℤ (pos 1))) }
{}

/// Where a shape states a standard deviation, the variance is its square.
pub fn variance_is_the_square_of_the_deviation()
    ensures { (s : Shape) → states_deviation s ≡ true → variance_of s ≡ deviation_of s *ℚ deviation_of s }
{}

/// Which shapes state a standard deviation, and worked ones.
pub fn worked_deviations()
    ensures number { (u : Bound) → states_deviation (Std u) ≡ true }
    ensures quotient { (expanded k : Bound) → states_deviation (Exp expanded k) ≡ true }
    ensures level { (half : Bound) (level : ℕ) → states_deviation (Norm half level) ≡ true }
    ensures standard { deviation_of (Std (scaled (pos 3) 0)) ≡ of_ℤ (pos 3) }
    ensures expanded { deviation_of (Exp (scaled (pos 5) 2) (scaled (pos 2) 0)) ≡ value_of (scaled (pos 25) 3) }
    ensures normal { deviation_of (Norm (scaled (pos 49) 1) 95) ≡ value_of (scaled (pos 25) 1) }
{}

/// The variances of worked shapes. A trapezoid without a top is a triangle, and one with a top as wide as
/// its base a rectangle.
pub fn worked_variances()
    ensures exact { variance_of Exact ≡ of_ℤ (pos 0) }
    ensures standard { variance_of (Std (scaled (pos 3) 0)) ≡ of_ℤ (pos 9) }
    ensures expanded { variance_of (Exp (scaled (pos 5) 2) (scaled (pos 2) 0)) ≡ value_of (scaled (pos 625) 6) }
    ensures normal_at_90 { variance_of (Norm (scaled (pos 164) 2) 90) ≡ of_ℤ (pos 1) }
    ensures normal_at_95 { variance_of (Norm (scaled (pos 196) 2) 95) ≡ of_ℤ (pos 1) }
    ensures normal_at_99 { variance_of (Norm (scaled (pos 258) 2) 99) ≡ of_ℤ (pos 1) }
    ensures rectangular { variance_of (Rect (scaled (pos 3) 0)) ≡ of_ℤ (pos 3) }
    ensures triangular { variance_of (Tri (scaled (pos 6) 0)) ≡ of_ℤ (pos 6) }
    ensures without_top { variance_of (Trap (scaled (pos 6) 0) (scaled (pos 0) 0)) ≡ of_ℤ (pos 6) }
    ensures half_as_wide { variance_of (Trap (scaled (pos 6) 0) (scaled (pos 5) 1)) ≡ value_of (scaled (pos 75) 1) }
    ensures as_wide { variance_of (Trap (scaled (pos 6) 0) (scaled (pos 1) 0)) ≡ of_ℤ (pos 12) }
    ensures arcsine { variance_of (Arcsine (scaled (pos 2) 0)) ≡ of_ℤ (pos 2) }
{}

/// The spans that are found for the variances of such shapes, and which shapes' variances leave the
/// range of bounds.
pub fn worked_spans()
    ensures exact { variance_span Exact ≡ Some (point_span (scaled (pos 0) 0)) }
    ensures standard { variance_span (Std (scaled (pos 3) 0)) ≡ Some (point_span (scaled (pos 9) 0)) }
    ensures expanded { variance_span (Exp (scaled (pos 5) 2) (scaled (pos 2) 0)) ≡ Some (point_span (scaled (pos 625) 6)) }
    ensures normal { variance_span (Norm (scaled (pos 49) 1) 95) ≡ Some (point_span (scaled (pos 625) 2)) }
    ensures rectangular { variance_span (Rect (scaled (pos 3) 0)) ≡ Some (point_span (scaled (pos 3) 0)) }
    ensures triangular { variance_span (Tri (scaled (pos 6) 0)) ≡ Some (point_span (scaled (pos 6) 0)) }
    ensures trapezoidal { variance_span (Trap (scaled (pos 6) 0) (scaled (pos 5) 1)) ≡ Some (point_span (scaled (pos 75) 1)) }
    ensures arcsine { variance_span (Arcsine (scaled (pos 2) 0)) ≡ Some (point_span (scaled (pos 2) 0)) }
    ensures rounded { variance_span (Exp (scaled (pos 1) 0) (scaled (pos 3) 0))
        ≡ Some (record { lo = scaled (pos 11111111111111111) 17; hi = scaled (pos 111111111111111112) 18 }) }
    ensures beyond { variance_span (Rect (scaled (pos 1000000000) 0)) ≡ None }
{}

/// Degrees of freedom ν of worked cases, by 1/ν: by the most percent that is taken there is just more than
/// one degree. For p percent 1/ν is 2 (p / 100)² (JCGM 100:2008, G.4.2, formula G.3).
pub fn worked_degrees()
    ensures infinite { inverse_degrees Inf ≡ of_ℤ (pos 0) }
    ensures whole { of_ℤ (pos 1) /ℚ inverse_degrees (Whole 12) ≡ of_ℤ (pos 12) }
    ensures quarter { of_ℤ (pos 1) /ℚ inverse_degrees (Rel 25) ≡ of_ℤ (pos 8) }
    ensures most { inverse_degrees (Rel 70) ≡ value_of (scaled (pos 98) 2) }
    ensures relative { (p : ℕ) → inverse_degrees (Rel p) ≡ of_ℤ (pos 2) *ℚ ((of_ℤ (pos p) /ℚ of_ℤ (pos 100)) *ℚ (of_ℤ (pos p) /ℚ of_ℤ (pos 100))) }
{}
