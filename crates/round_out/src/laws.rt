ghost use Rattle.std.specs.Prelude.{◌≡◌, None, Some, Result, Ok, Err, codes, ℤ, pos, negsuc, unsigned_abs, ◌<◌, ◌^◌};
ghost use Rattle.exact_fraction.specs.Number.{of_ℤ, ◌*ℚ◌};
ghost use Rattle.decimal18.specs.Literal.{IsLiteral};
ghost use Rattle.decimal18.specs.Bound.{scaled};
ghost use Rattle.fixed_interval.specs.Interval.{Interval, point_span};
ghost use Rattle.exact_law.specs.Rounding.{Zero as ExactZero, Two, ten_to};
ghost use Rattle.round_out.specs.Settled.{AreSettledDigits, settled_estimate, stated_digits};
ghost use Rattle.round_out.specs.Printed.{text_at};
ghost use Rattle.round_out.specs.Correlations.{IsSaid, IsTrueOf};
ghost use Rattle.round_out.specs.declared.coefficient.CorrSaid.{CorrSaid};
ghost use Rattle.round_out.specs.declared.coefficient.CorrSaid.TheVariants.{None as NoCoefficient, Unsettled, Hundredths};
ghost use Rattle.round_out.specs.declared.digits.Rounded.{Rounded};
ghost use Rattle.fixed_interval.specs.declared.faults.Overflow.{Overflow};

/// A span of variances settles its digits in one way, and spans of a covariance and of two variances have one answer.
pub fn one_answer()
    ensures digits { (v : Interval) (r s : Rounded) → AreSettledDigits v (stated_digits r) → AreSettledDigits v (stated_digits s) → r ≡ s }
    ensures correlation { (c v w : Interval) (r s : Result CorrSaid Overflow) → IsSaid c v w r → IsSaid c v w s → r ≡ s }
{}

/// The digits of spans of variances: 0; from 12.5² to 12.6², whose roots are rounded to 13; 9.95², whose root is rounded
/// to 10, and 9.949², whose root is rounded to 9.9; from 12.4² to 12.5², and from 0 to 1, which settle none.
pub fn worked_digits()
    ensures zero { AreSettledDigits (point_span (scaled (pos 0) 0)) (Some ExactZero) }
    ensures thirteen { AreSettledDigits (record { lo = scaled (pos 15625) 2; hi = scaled (pos 15876) 2 }) (Some (Two 13 (pos 0))) }
    ensures ten { AreSettledDigits (point_span (scaled (pos 990025) 4)) (Some (Two 10 (pos 0))) }
    ensures below_ten { AreSettledDigits (point_span (scaled (pos 98982601) 6)) (Some (Two 99 (negsuc 0))) }
    ensures apart { AreSettledDigits (record { lo = scaled (pos 15376) 2; hi = scaled (pos 15625) 2 }) None }
    ensures from_zero { AreSettledDigits (record { lo = scaled (pos 0) 0; hi = scaled (pos 1) 0 }) None }
{}

/// Spans of estimates at a place: 12.345 in hundredths, a tie that goes up; -2.5 in ones, one that goes up to -2; from
/// 14.5 to 15.4 in ones, 15, and from 14.4 to 14.5, which settles none; 15 in tens.
pub fn worked_estimates()
    ensures hundredths { settled_estimate (point_span (scaled (pos 12345) 3)) (negsuc 1) ≡ Some (pos 1235) }
    ensures negative { settled_estimate (point_span (scaled (negsuc 24) 1)) (pos 0) ≡ Some (negsuc 1) }
    ensures ones { settled_estimate (record { lo = scaled (pos 145) 1; hi = scaled (pos 154) 1 }) (pos 0) ≡ Some (pos 15) }
    ensures apart { settled_estimate (record { lo = scaled (pos 144) 1; hi = scaled (pos 145) 1 }) (pos 0) ≡ None }
    ensures tens { settled_estimate (point_span (scaled (pos 15) 0)) (pos 1) ≡ Some (pos 2) }
{}

/// The text of `c` units of 10^`e` is a literal, whose value is `c` times 10^`e`.
pub fn texts_are_literals()
    ensures { (c e : ℤ) → unsigned_abs c < 10 ^ 39 → IsLiteral (text_at c e) (of_ℤ c *ℚ ten_to e) }
{}

/// Texts of whole numbers at a place: in hundredths, in ones and in hundreds, also of numbers below 0 and of 0.
pub fn worked_texts()
    ensures hundredths { text_at (pos 1235) (negsuc 1) ≡ codes "12.35" }
    ensures small { text_at (negsuc 4) (negsuc 2) ≡ codes "-0.005" }
    ensures no_hundredths { text_at (pos 0) (negsuc 1) ≡ codes "0.00" }
    ensures ones { text_at (negsuc 14) (pos 0) ≡ codes "-15" }
    ensures hundreds { text_at (pos 13) (pos 2) ≡ codes "1300" }
    ensures no_hundreds { text_at (pos 0) (pos 2) ≡ codes "0" }
{}

/// What spans of a covariance and of two variances say. The covariance -1 of variances 1 and 4: -0.50. From 1 to 1.01 of
/// 1 and 1: 1.00, as no coefficient is above 1. From -1 to 1 of 1000 and 1000: 0.00, whatever the sign. From 1 to 2 of 1
/// and 4: nothing is settled, and the same of a variance from 0 to 1. Of a variance 0: none. 10 of 10^-18 and 1: overflow.
pub fn worked_correlations()
    ensures negative { IsSaid (point_span (scaled (negsuc 0) 0)) (point_span (scaled (pos 1) 0)) (point_span (scaled (pos 4) 0)) (Ok (Hundredths (negsuc 49))) }
    ensures one { IsSaid (record { lo = scaled (pos 1) 0; hi = scaled (pos 101) 2 }) (point_span (scaled (pos 1) 0)) (point_span (scaled (pos 1) 0)) (Ok (Hundredths (pos 100))) }
    ensures none_apart { IsSaid (record { lo = scaled (negsuc 0) 0; hi = scaled (pos 1) 0 }) (point_span (scaled (pos 1000) 0)) (point_span (scaled (pos 1000) 0)) (Ok (Hundredths (pos 0))) }
    ensures apart { IsSaid (record { lo = scaled (pos 1) 0; hi = scaled (pos 2) 0 }) (point_span (scaled (pos 1) 0)) (point_span (scaled (pos 4) 0)) (Ok Unsettled) }
    ensures from_zero { IsSaid (point_span (scaled (pos 1) 0)) (record { lo = scaled (pos 0) 0; hi = scaled (pos 1) 0 }) (point_span (scaled (pos 4) 0)) (Ok Unsettled) }
    ensures no_variance { IsSaid (point_span (scaled (pos 0) 0)) (point_span (scaled (pos 4) 0)) (point_span (scaled (pos 0) 0)) (Ok NoCoefficient) }
    ensures overflow { IsSaid (point_span (scaled (pos 10) 0)) (point_span (scaled (pos 1) 18)) (point_span (scaled (pos 1) 0)) (Err (record {})) }
{}

/// What an answer on a coefficient means of the exact covariance -1 of the variances 1 and 4: -0.50, and neither 0.50 nor
/// that there is none, which means that a variance is 0.
pub fn worked_meanings()
    ensures negative { IsTrueOf (Hundredths (negsuc 49)) (of_ℤ (negsuc 0)) (of_ℤ (pos 1)) (of_ℤ (pos 4)) }
    ensures other_sign { ¬ IsTrueOf (Hundredths (pos 50)) (of_ℤ (negsuc 0)) (of_ℤ (pos 1)) (of_ℤ (pos 4)) }
    ensures above_zero { ¬ IsTrueOf NoCoefficient (of_ℤ (negsuc 0)) (of_ℤ (pos 1)) (of_ℤ (pos 4)) }
    ensures none { IsTrueOf NoCoefficient (of_ℤ (pos 0)) (of_ℤ (pos 1)) (of_ℤ (pos 0)) }
{}
