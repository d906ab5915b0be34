ghost use Rattle.std.specs.Prelude.{◌≡◌, Option, None, Some, pos};
ghost use Rattle.exact_fraction.specs.Number.{ℚ, of_ℤ, floor_ℚ};
ghost use Rattle.decimal18.specs.Bound.{Bound, scaled, value_of};
ghost use Rattle.fixed_interval.specs.Interval.{point_span};
ghost use Rattle.exact_law.specs.Degrees.{NoDegrees, InfiniteDegrees, FiniteDegrees, row_of};
ghost use Rattle.table_g2.specs.Known.{Allows, AreDegrees};
ghost use Rattle.table_g2.specs.Factors.{factor_span};
ghost use Rattle.table_g2.specs.declared.known.Level.TheVariants.{L95, L9545, L99};
ghost use Rattle.table_g2.specs.declared.known.Nu.TheVariants.{None as NoNu, Infinite, Range};

/// The row of degrees of freedom is that of their whole part (JCGM 100:2008, G.4.1 has a ν that is no whole number
/// cut off to the next lower one).
pub fn whole_part_has_the_row()
    ensures { (x : ℚ) → row_of (FiniteDegrees x) ≡ row_of (FiniteDegrees (of_ℤ (floor_ℚ x))) }
{}

/// The spans of the factors for single degrees, which are points: 4 and 16, 13.88, which has the row of 13, 21 that of
/// 20, 99.9 that of 50, and 10^9 that of 100.
pub fn worked_points()
    ensures four { factor_span (Range (scaled (pos 4) 0) (Some (scaled (pos 4) 0))) L95 ≡ point_span (scaled (pos 278) 2) }
    ensures four_9545 { factor_span (Range (scaled (pos 4) 0) (Some (scaled (pos 4) 0))) L9545 ≡ point_span (scaled (pos 287) 2) }
    ensures four_99 { factor_span (Range (scaled (pos 4) 0) (Some (scaled (pos 4) 0))) L99 ≡ point_span (scaled (pos 46) 1) }
    ensures sixteen { factor_span (Range (scaled (pos 16) 0) (Some (scaled (pos 16) 0))) L95 ≡ point_span (scaled (pos 212) 2) }
    ensures between { factor_span (Range (scaled (pos 1388) 2) (Some (scaled (pos 1388) 2))) L95 ≡ point_span (scaled (pos 216) 2) }
    ensures above_20 { factor_span (Range (scaled (pos 21) 0) (Some (scaled (pos 21) 0))) L95 ≡ point_span (scaled (pos 209) 2) }
    ensures below_100 { factor_span (Range (scaled (pos 999) 1) (Some (scaled (pos 999) 1))) L95 ≡ point_span (scaled (pos 201) 2) }
    ensures at_100 { factor_span (Range (scaled (pos 100) 0) (Some (scaled (pos 100) 0))) L95 ≡ point_span (scaled (pos 1984) 3) }
    ensures great { factor_span (Range (scaled (pos 1000000000) 0) (Some (scaled (pos 1000000000) 0))) L95 ≡ point_span (scaled (pos 1984) 3) }
{}

/// The spans of the factors for degrees from 4 to 16, from 4 on, for infinite ones and for none.
pub fn worked_spans()
    ensures range { factor_span (Range (scaled (pos 4) 0) (Some (scaled (pos 16) 0))) L95 ≡ record { lo = scaled (pos 212) 2; hi = scaled (pos 278) 2 } }
    ensures without_end { factor_span (Range (scaled (pos 4) 0) None) L95 ≡ record { lo = scaled (pos 196) 2; hi = scaled (pos 278) 2 } }
    ensures infinite_95 { factor_span Infinite L95 ≡ point_span (scaled (pos 196) 2) }
    ensures infinite_9545 { factor_span Infinite L9545 ≡ point_span (scaled (pos 2) 0) }
    ensures infinite_99 { factor_span Infinite L99 ≡ point_span (scaled (pos 2576) 3) }
    ensures none { factor_span NoNu L95 ≡ point_span (scaled (pos 196) 2) }
{}

/// Which degrees are known in the way that is asked for: from 1 on, with an upper end that is not below the lower one.
pub fn worked_conditions()
    ensures one { AreDegrees (Range (scaled (pos 1) 0) (Some (scaled (pos 1) 0))) }
    ensures without_end { AreDegrees (Range (scaled (pos 1) 0) None) }
    ensures none { AreDegrees NoNu }
    ensures infinite { AreDegrees Infinite }
    ensures below_one { ¬ AreDegrees (Range (scaled (pos 9) 1) None) }
    ensures turned { ¬ AreDegrees (Range (scaled (pos 2) 0) (Some (scaled (pos 19) 1))) }
{}

/// Which exact degrees are allowed, where it is known that there are none, that there is no finite number of them,
/// that there are at least 4, from 4 to 16, or from 4 to 10^9: from there on they are not told apart.
pub fn worked_degrees()
    ensures none { Allows NoNu NoDegrees }
    ensures none_but_infinite { ¬ Allows NoNu InfiniteDegrees }
    ensures infinite { Allows Infinite InfiniteDegrees }
    ensures infinite_but_none { Allows Infinite NoDegrees }
    ensures infinite_but_finite { (x : ℚ) → ¬ Allows Infinite (FiniteDegrees x) }
    ensures from_4 { Allows (Range (scaled (pos 4) 0) None) (FiniteDegrees (of_ℤ (pos 4))) }
    ensures from_4_without_end { Allows (Range (scaled (pos 4) 0) None) InfiniteDegrees }
    ensures from_4_but_none { Allows (Range (scaled (pos 4) 0) None) NoDegrees }
    ensures below_4 { ¬ Allows (Range (scaled (pos 4) 0) None) (FiniteDegrees (value_of (scaled (pos 39) 1))) }
    ensures lower_end { Allows (Range (scaled (pos 4) 0) (Some (scaled (pos 16) 0))) (FiniteDegrees (of_ℤ (pos 4))) }
    ensures upper_end { Allows (Range (scaled (pos 4) 0) (Some (scaled (pos 16) 0))) (FiniteDegrees (of_ℤ (pos 16))) }
    ensures below { ¬ Allows (Range (scaled (pos 4) 0) (Some (scaled (pos 16) 0))) (FiniteDegrees (value_of (scaled (pos 39) 1))) }
    ensures above { ¬ Allows (Range (scaled (pos 4) 0) (Some (scaled (pos 16) 0))) (FiniteDegrees (value_of (scaled (pos 161) 1))) }
    ensures finite { ¬ Allows (Range (scaled (pos 4) 0) (Some (scaled (pos 16) 0))) InfiniteDegrees }
    ensures not_told_apart { Allows (Range (scaled (pos 4) 0) (Some (scaled (pos 1000000000) 0))) (FiniteDegrees (of_ℤ (pos 1000000001))) }
    ensures told_apart { ¬ Allows (Range (scaled (pos 4) 0) (Some (scaled (pos 999999999) 0))) (FiniteDegrees (of_ℤ (pos 1000000000))) }
{}
