//! What spans settle and what is reported of them, at worked numbers, which the definitions compute.

ghost use Rattle.std.specs.Prelude.{◌≡◌, Ok, Err, pos, negsuc};
ghost use Rattle.exact_fraction.specs.Number.{of_ℤ};
ghost use Rattle.decimal18.specs.Bound.{scaled, value_of};
ghost use Rattle.fixed_interval.specs.Interval.{point_span};
ghost use Rattle.round_out.specs.Searches.{correlation_of, digits_of_span, with_sign};
ghost use Rattle.round_out.specs.Reports.{IsReportOf, IsReportPlaced, expanded_of, reported_of};
ghost use Rattle.round_out.specs.declared.coefficient.CorrSaid.TheVariants.{None as NoCoefficient, Unsettled as UnsettledCoefficient, Hundredths};
ghost use Rattle.round_out.specs.declared.digits.Rounded.TheVariants.{Zero, Digits, Unsettled as UnsettledDigits};
ghost use Rattle.round_out.specs.declared.outcome.Reported.TheVariants.{Exact, Rounded, Unsettled};

/// The digits of spans of variances: 0; from 12.5² to 12.6²; uncertainties that are rounded to 100 units, 99.5, 9.95 and
/// 0.995, and 99.4, which is not; the least and the greatest root, 10^-18 and 10^9; from 12.4² to 12.5², from 0 to 1, and
/// from 1 to 100, which settle none.
pub fn worked_digits_of_spans()
    ensures zero { digits_of_span (point_span (scaled (pos 0) 0)) ≡ Zero }
    ensures thirteen { digits_of_span (record { lo = scaled (pos 15625) 2; hi = scaled (pos 15876) 2 }) ≡ Digits 13 (pos 0) }
    ensures hundred { digits_of_span (point_span (scaled (pos 990025) 2)) ≡ Digits 10 (pos 1) }
    ensures ten { digits_of_span (point_span (scaled (pos 990025) 4)) ≡ Digits 10 (pos 0) }
    ensures one { digits_of_span (point_span (scaled (pos 990025) 6)) ≡ Digits 10 (negsuc 0) }
    ensures below_hundred { digits_of_span (point_span (scaled (pos 988036) 2)) ≡ Digits 99 (pos 0) }
    ensures least { digits_of_span (point_span (scaled (pos 1) 36)) ≡ Digits 10 (negsuc 18) }
    ensures greatest { digits_of_span (point_span (scaled (pos 999999999999999999) 0)) ≡ Digits 10 (pos 8) }
    ensures apart { digits_of_span (record { lo = scaled (pos 15376) 2; hi = scaled (pos 15625) 2 }) ≡ UnsettledDigits }
    ensures from_zero { digits_of_span (record { lo = scaled (pos 0) 0; hi = scaled (pos 1) 0 }) ≡ UnsettledDigits }
    ensures other_place { digits_of_span (record { lo = scaled (pos 1) 0; hi = scaled (pos 100) 0 }) ≡ UnsettledDigits }
{}

/// What a covariance and two variances say. Of 1 and 1: 1, -1, 0.5, 0.005, a tie that goes away from 0, and 0.0049. From 1
/// to 1.01 of 1 and 1: 1.00; from -1 to 1 of 1000 and 1000: 0.00. From 1 to 2 of 1 and 4, and of a variance from 0 to 1:
/// nothing is settled. Of a variance 0: none. 10 of 10^-18 and 1: overflow.
pub fn worked_coefficients()
    ensures plus_one { correlation_of (point_span (scaled (pos 1) 0)) (point_span (scaled (pos 1) 0)) (point_span (scaled (pos 1) 0)) ≡ Ok (Hundredths (pos 100)) }
    ensures minus_one { correlation_of (point_span (scaled (negsuc 0) 0)) (point_span (scaled (pos 1) 0)) (point_span (scaled (pos 1) 0)) ≡ Ok (Hundredths (negsuc 99)) }
    ensures half { correlation_of (point_span (scaled (pos 5) 1)) (point_span (scaled (pos 1) 0)) (point_span (scaled (pos 1) 0)) ≡ Ok (Hundredths (pos 50)) }
    ensures tie { correlation_of (point_span (scaled (negsuc 4) 3)) (point_span (scaled (pos 1) 0)) (point_span (scaled (pos 1) 0)) ≡ Ok (Hundredths (negsuc 0)) }
    ensures small { correlation_of (point_span (scaled (negsuc 48) 4)) (point_span (scaled (pos 1) 0)) (point_span (scaled (pos 1) 0)) ≡ Ok (Hundredths (pos 0)) }
    ensures at_most_one { correlation_of (record { lo = scaled (pos 1) 0; hi = scaled (pos 101) 2 }) (point_span (scaled (pos 1) 0)) (point_span (scaled (pos 1) 0)) ≡ Ok (Hundredths (pos 100)) }
    ensures no_sign { correlation_of (record { lo = scaled (negsuc 0) 0; hi = scaled (pos 1) 0 }) (point_span (scaled (pos 1000) 0)) (point_span (scaled (pos 1000) 0)) ≡ Ok (Hundredths (pos 0)) }
    ensures apart { correlation_of (record { lo = scaled (pos 1) 0; hi = scaled (pos 2) 0 }) (point_span (scaled (pos 1) 0)) (point_span (scaled (pos 4) 0)) ≡ Ok UnsettledCoefficient }
    ensures first_from_zero { correlation_of (point_span (scaled (pos 1) 0)) (record { lo = scaled (pos 0) 0; hi = scaled (pos 1) 0 }) (point_span (scaled (pos 4) 0)) ≡ Ok UnsettledCoefficient }
    ensures second_from_zero { correlation_of (point_span (scaled (pos 1) 0)) (point_span (scaled (pos 4) 0)) (record { lo = scaled (pos 0) 0; hi = scaled (pos 1) 0 }) ≡ Ok UnsettledCoefficient }
    ensures first_zero { correlation_of (point_span (scaled (pos 0) 0)) (point_span (scaled (pos 0) 0)) (point_span (scaled (pos 4) 0)) ≡ Ok NoCoefficient }
    ensures second_zero { correlation_of (point_span (scaled (pos 0) 0)) (point_span (scaled (pos 4) 0)) (point_span (scaled (pos 0) 0)) ≡ Ok NoCoefficient }
    ensures overflow { correlation_of (point_span (scaled (pos 10) 0)) (point_span (scaled (pos 1) 18)) (point_span (scaled (pos 1) 0)) ≡ Err (record {}) }
{}

/// 50 hundredths with the sign of a covariance: from 0 to 1, from -1 to 0, and from -1 to 1, which settles no sign.
pub fn worked_signs()
    ensures plus { with_sign (record { lo = scaled (pos 0) 0; hi = scaled (pos 1) 0 }) 50 ≡ Hundredths (pos 50) }
    ensures minus { with_sign (record { lo = scaled (negsuc 0) 0; hi = scaled (pos 0) 0 }) 50 ≡ Hundredths (negsuc 49) }
    ensures unsettled { with_sign (record { lo = scaled (negsuc 0) 0; hi = scaled (pos 1) 0 }) 50 ≡ UnsettledCoefficient }
    ensures no_hundredths { with_sign (record { lo = scaled (negsuc 0) 0; hi = scaled (pos 1) 0 }) 0 ≡ Hundredths (pos 0) }
{}

/// Estimates with their standard uncertainties: the 10.05762 ohm with 27 milliohm of JCGM 100:2008, 7.2.6, which is
/// 10.058; 5 with 0.995, which is 5.0 with 1.0; 1234 with 99.5, which is 1230 with 100; the mean of ten readings 1 and one
/// 2, 1.091 with 0.091; with no uncertainty 3 itself, and nothing from 3 to 4; nothing where the ends of the variance
/// differ in the second digit, or the ends of the estimate at their place.
pub fn worked_reports()
    ensures ohms { reported_of (point_span (scaled (pos 1005762) 5)) (point_span (scaled (pos 729) 6)) ≡ Rounded (pos 10058) 27 (negsuc 2) }
    ensures five { reported_of (point_span (scaled (pos 5) 0)) (point_span (scaled (pos 990025) 6)) ≡ Rounded (pos 50) 10 (negsuc 0) }
    ensures tens { reported_of (point_span (scaled (pos 1234) 0)) (point_span (scaled (pos 990025) 2)) ≡ Rounded (pos 123) 10 (pos 1) }
    ensures eleven_readings { reported_of (record { lo = scaled (pos 109090909090909090) 17; hi = scaled (pos 109090909090909091) 17 }) (record { lo = scaled (pos 826446280991735537) 20; hi = scaled (pos 826446280991735538) 20 }) ≡ Rounded (pos 1091) 91 (negsuc 2) }
    ensures exact { reported_of (point_span (scaled (pos 3) 0)) (point_span (scaled (pos 0) 0)) ≡ Exact (scaled (pos 3) 0) }
    ensures no_point { reported_of (record { lo = scaled (pos 3) 0; hi = scaled (pos 4) 0 }) (point_span (scaled (pos 0) 0)) ≡ Unsettled }
    ensures no_digits { reported_of (point_span (scaled (pos 3) 0)) (record { lo = scaled (pos 15376) 2; hi = scaled (pos 15625) 2 }) ≡ Unsettled }
    ensures no_estimate { reported_of (record { lo = scaled (pos 144) 1; hi = scaled (pos 145) 1 }) (point_span (scaled (pos 169) 0)) ≡ Unsettled }
{}

/// Estimates of less than a unit of the place of the uncertainty 13, and ties, which go upward also below 0: 0.4, 0.5,
/// -0.5, -0.6 and -2.5.
pub fn worked_small_estimates()
    ensures less { reported_of (point_span (scaled (pos 4) 1)) (point_span (scaled (pos 169) 0)) ≡ Rounded (pos 0) 13 (pos 0) }
    ensures tie { reported_of (point_span (scaled (pos 5) 1)) (point_span (scaled (pos 169) 0)) ≡ Rounded (pos 1) 13 (pos 0) }
    ensures negative_tie { reported_of (point_span (scaled (negsuc 4) 1)) (point_span (scaled (pos 169) 0)) ≡ Rounded (pos 0) 13 (pos 0) }
    ensures negative { reported_of (point_span (scaled (negsuc 5) 1)) (point_span (scaled (pos 169) 0)) ≡ Rounded (negsuc 0) 13 (pos 0) }
    ensures next_tie { reported_of (point_span (scaled (negsuc 24) 1)) (point_span (scaled (pos 169) 0)) ≡ Rounded (negsuc 1) 13 (pos 0) }
{}

/// Estimates with their expanded uncertainties: 10.05762 with twice 0.027; the mean of ten readings 1 and one 2 with the
/// factor 2.23; 3 with none; nothing with a factor from 2.12 to 2.78; overflow of the square of 10^10, and of 10^10 times
/// the variance 10^9.
pub fn worked_expansions()
    ensures ohms { expanded_of (point_span (scaled (pos 1005762) 5)) (point_span (scaled (pos 729) 6)) (point_span (scaled (pos 2) 0)) ≡ Ok (Rounded (pos 10058) 54 (negsuc 2)) }
    ensures eleven_readings { expanded_of (record { lo = scaled (pos 109090909090909090) 17; hi = scaled (pos 109090909090909091) 17 }) (record { lo = scaled (pos 826446280991735537) 20; hi = scaled (pos 826446280991735538) 20 }) (point_span (scaled (pos 223) 2)) ≡ Ok (Rounded (pos 109) 20 (negsuc 1)) }
    ensures exact { expanded_of (point_span (scaled (pos 3) 0)) (point_span (scaled (pos 0) 0)) (point_span (scaled (pos 196) 2)) ≡ Ok (Exact (scaled (pos 3) 0)) }
    ensures no_factor { expanded_of (point_span (scaled (pos 3) 0)) (point_span (scaled (pos 169) 0)) (record { lo = scaled (pos 212) 2; hi = scaled (pos 278) 2 }) ≡ Ok Unsettled }
    ensures square { expanded_of (point_span (scaled (pos 3) 0)) (point_span (scaled (pos 169) 0)) (point_span (scaled (pos 10000000000) 0)) ≡ Err (record {}) }
    ensures product { expanded_of (point_span (scaled (pos 3) 0)) (point_span (scaled (pos 1000000000) 0)) (point_span (scaled (pos 100000) 0)) ≡ Err (record {}) }
{}

/// What a report means of the exact estimate 10.05762 and the exact variance 0.027², or 0, and what it does not; and which
/// places it may have.
pub fn worked_report_meanings()
    ensures rounded { IsReportOf (value_of (scaled (pos 1005762) 5)) (value_of (scaled (pos 729) 6)) (Rounded (pos 10058) 27 (negsuc 2)) }
    ensures other_estimate { ¬ IsReportOf (value_of (scaled (pos 1005762) 5)) (value_of (scaled (pos 729) 6)) (Rounded (pos 10057) 27 (negsuc 2)) }
    ensures other_digits { ¬ IsReportOf (value_of (scaled (pos 1005762) 5)) (value_of (scaled (pos 729) 6)) (Rounded (pos 10058) 28 (negsuc 2)) }
    ensures exact { IsReportOf (value_of (scaled (pos 1005762) 5)) (of_ℤ (pos 0)) (Exact (scaled (pos 1005762) 5)) }
    ensures other_exact { ¬ IsReportOf (value_of (scaled (pos 1005762) 5)) (of_ℤ (pos 0)) (Exact (scaled (pos 1005763) 5)) }
    ensures uncertain { ¬ IsReportOf (value_of (scaled (pos 1005762) 5)) (value_of (scaled (pos 729) 6)) (Exact (scaled (pos 1005762) 5)) }
    ensures nothing { IsReportOf (value_of (scaled (pos 1005762) 5)) (value_of (scaled (pos 729) 6)) Unsettled }
    ensures least { IsReportPlaced (Rounded (pos 1) 10 (negsuc 18)) }
    ensures greatest { IsReportPlaced (Rounded (pos 1) 10 (pos 8)) }
    ensures too_small { ¬ IsReportPlaced (Rounded (pos 1) 10 (negsuc 19)) }
    ensures too_great { ¬ IsReportPlaced (Rounded (pos 1) 10 (pos 9)) }
    ensures no_place { IsReportPlaced Unsettled }
    ensures exact_place { IsReportPlaced (Exact (scaled (pos 3) 0)) }
{}
