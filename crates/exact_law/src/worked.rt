//! The definitions at small models and numbers, which they compute.

ghost use Rattle.std.specs.Prelude.{◌≡◌, ℕ, suc, true, false, Some, None, List, [], ◌∷◌, map, nat_eq, pos, negsuc};
ghost use Rattle.exact_fraction.specs.Number.{ℚ, of_ℤ, inv_ℚ};
ghost use Rattle.exact_law.specs.Model.{body_of, estimate, exact_value, exact_slope, has_value, value_of, derivative_of, body_uses, IsOrderOf, IsCyclic};
ghost use Rattle.exact_law.specs.Law.{Own, Pair, mean, declared_pair, covariance, covariance_in, inputs_of, law, law_where_defined, part_where_defined, IsSoundFor, AllGroups, PartTheInputs, OnceAmong};
ghost use Rattle.exact_law.specs.Degrees.{NoDegrees, InfiniteDegrees, FiniteDegrees, Percent95, Percent9545, Percent99, inverse_degrees, degrees_of, thousandths, first_row, later_rows, infinite_row, row_of, factor};
ghost use Rattle.exact_law.specs.Rounding.{at_place, IsTwoDigits, IsHundredths, IsCorrelation, AreDigitsOf, Zero};
ghost use Rattle.exact_law.specs.WrittenRule.{Pass, ConditionalPass, ConditionalFail, Fail, Binary, FourOutcomes, stated, Yes, No, Unsettled, both, either, decision_by, Stated, Undecided, AllWithin, compared, decision};
ghost use Rattle.exact_law.specs.Renaming.{EachRowKey, EachMember, Passes, renamed_rows, renamed_groups};
ghost use Rattle.exact_law.specs.WorkedRows.{ends, span, first_column, second_column, cycle, in_cycle, renamed_pair, renamed_pair_groups, whole, ratio, cancel, cancel_groups, two_degrees, two_degrees_groups, one_degrees_groups, fully_correlated, fully_correlated_groups, unequal_pair, unequal_pair_groups, readings_but, eleven_readings, eleven_readings_groups, operations, formula_rows, undefined_rows, tabulated, between_limits, between_limits_binary, no_limits};

/// Three uses of one input that cancel leave no variance, two equal inputs with 5 degrees of freedom each
/// have 10 together, and of two inputs with the correlation coefficient -1 the sum has no variance and no
/// degrees of freedom.
pub fn worked_rows()
    ensures cancel_value { exact_value nat_eq cancel 3 ≡ of_ℤ (pos 0) }
    ensures cancel_slope { exact_slope nat_eq cancel 2 0 ≡ of_ℤ (pos 3) }
    ensures cancel_variance { law nat_eq cancel cancel_groups 3 3 ≡ of_ℤ (pos 0) }
    ensures two_degrees { degrees_of nat_eq two_degrees two_degrees_groups 2 ≡ FiniteDegrees (of_ℤ (pos 10)) }
    ensures fully_correlated { law nat_eq fully_correlated fully_correlated_groups 2 2 ≡ of_ℤ (pos 0) }
    ensures no_degrees { degrees_of nat_eq fully_correlated fully_correlated_groups 2 ≡ NoDegrees }
{}

/// Each operation at X = 2 and Y = 3: the negative of X, the sum, the difference, the product and the
/// quotient of X and Y, X to the powers 3, -2 and 0, and the number 7, with their derivatives by X and by
/// Y; what X and Y are used by; and the estimates, which are 0 for a formula and for what is no quantity.
pub fn worked_operations()
    ensures values { map (exact_value nat_eq operations) formula_rows
        ≡ of_ℤ (negsuc 1) ∷ whole 5 ∷ of_ℤ (negsuc 0) ∷ whole 6 ∷ ratio (pos 2) 3 ∷ whole 8 ∷ ratio (pos 1) 4 ∷ whole 1 ∷ whole 7 ∷ [] }
    ensures by_first { map (λ y. exact_slope nat_eq operations y 0) formula_rows
        ≡ of_ℤ (negsuc 0) ∷ whole 1 ∷ whole 1 ∷ whole 3 ∷ ratio (pos 1) 3 ∷ whole 12 ∷ ratio (negsuc 0) 4 ∷ whole 0 ∷ whole 0 ∷ [] }
    ensures by_second { map (λ y. exact_slope nat_eq operations y 1) formula_rows
        ≡ whole 0 ∷ whole 1 ∷ of_ℤ (negsuc 0) ∷ whole 2 ∷ ratio (negsuc 1) 9 ∷ whole 0 ∷ whole 0 ∷ whole 0 ∷ whole 0 ∷ [] }
    ensures order { IsOrderOf nat_eq operations operations }
    ensures uses_first { map (λ y. body_uses (nat_eq 0) (body_of nat_eq operations y)) (0 ∷ 99 ∷ formula_rows)
        ≡ false ∷ false ∷ true ∷ true ∷ true ∷ true ∷ true ∷ true ∷ true ∷ true ∷ false ∷ [] }
    ensures uses_second { map (λ y. body_uses (nat_eq 1) (body_of nat_eq operations y)) formula_rows
        ≡ false ∷ true ∷ true ∷ true ∷ true ∷ false ∷ false ∷ false ∷ false ∷ [] }
    ensures with_value { map (has_value nat_eq operations) (0 ∷ formula_rows)
        ≡ true ∷ true ∷ true ∷ true ∷ true ∷ true ∷ true ∷ true ∷ true ∷ true ∷ [] }
    ensures value_there { value_of nat_eq operations 3 ≡ Some (of_ℤ (pos 5)) }
    ensures derivative_there { derivative_of nat_eq operations 5 1 ≡ Some (of_ℤ (pos 2)) }
    ensures estimates { map (estimate nat_eq operations) (0 ∷ 2 ∷ 99 ∷ []) ≡ whole 2 ∷ whole 0 ∷ whole 0 ∷ [] }
{}

/// A quotient by 0 and a power of 0 with a negative exponent have no value, and whatever uses one of them
/// in any operation has none. What has no value has no sensitivity, no covariance and no part of a group.
pub fn worked_undefined_rows()
    ensures without_value { map (has_value nat_eq undefined_rows) (1 ∷ 2 ∷ 3 ∷ 4 ∷ 5 ∷ 6 ∷ 7 ∷ 8 ∷ 9 ∷ 10 ∷ 11 ∷ 12 ∷ 13 ∷ [])
        ≡ false ∷ false ∷ false ∷ false ∷ false ∷ false ∷ false ∷ false ∷ false ∷ false ∷ false ∷ false ∷ true ∷ [] }
    ensures no_value { value_of nat_eq undefined_rows 1 ≡ None }
    ensures no_derivative { derivative_of nat_eq undefined_rows 1 0 ≡ None }
    ensures no_variance { (law_where_defined nat_eq undefined_rows (Own 0 (whole 1) (whole 0) ∷ []) 0 1
        ∷ law_where_defined nat_eq undefined_rows (Own 0 (whole 1) (whole 0) ∷ []) 1 0 ∷ [])
        ≡ None ∷ None ∷ [] }
    ensures no_part { part_where_defined nat_eq undefined_rows (Own 0 (whole 1) (whole 0)) 1 ≡ None }
{}

/// 11 joint readings: the mean, the covariances of the means, the variance of the sum and its 10 degrees
/// of freedom.
pub fn worked_table()
    ensures mean { mean 11 (readings_but 2) ≡ ratio (pos 12) 11 }
    ensures covariances { (covariance nat_eq eleven_readings_groups 0 0 ∷ covariance nat_eq eleven_readings_groups 0 1
        ∷ covariance nat_eq eleven_readings_groups 1 0 ∷ covariance nat_eq eleven_readings_groups 1 1 ∷ [])
        ≡ ratio (pos 1) 121 ∷ ratio (pos 2) 121 ∷ ratio (pos 2) 121 ∷ ratio (pos 4) 121 ∷ [] }
    ensures variance { law nat_eq eleven_readings eleven_readings_groups 2 2 ≡ ratio (pos 9) 121 }
    ensures degrees { degrees_of nat_eq eleven_readings eleven_readings_groups 2 ≡ FiniteDegrees (of_ℤ (pos 10)) }
    ensures sound { AllGroups (IsSoundFor nat_eq (inputs_of eleven_readings)) eleven_readings_groups }
{}

/// A pair with unequal variances: its covariances, the variance of a sum, the covariance of the sum with one
/// of the two and their correlation coefficient, and the degrees of freedom.
pub fn worked_pair()
    ensures covariances { (covariance nat_eq unequal_pair_groups 0 0 ∷ covariance nat_eq unequal_pair_groups 0 1
        ∷ covariance nat_eq unequal_pair_groups 1 0 ∷ covariance nat_eq unequal_pair_groups 1 1 ∷ [])
        ≡ whole 4 ∷ whole 3 ∷ whole 3 ∷ whole 9 ∷ [] }
    ensures declared { (covariance_in nat_eq (declared_pair 0 1 (ratio (pos 1) 2) (whole 2) (whole 3)) 0 0
        ∷ covariance_in nat_eq (declared_pair 0 1 (ratio (pos 1) 2) (whole 2) (whole 3)) 0 1
        ∷ covariance_in nat_eq (declared_pair 0 1 (ratio (pos 1) 2) (whole 2) (whole 3)) 1 1
        ∷ inverse_degrees {K = ℕ} (declared_pair 0 1 (ratio (pos 1) 2) (whole 2) (whole 3)) ∷ [])
        ≡ whole 4 ∷ whole 3 ∷ whole 9 ∷ whole 0 ∷ [] }
    ensures law { (law nat_eq unequal_pair unequal_pair_groups 2 2 ∷ law nat_eq unequal_pair unequal_pair_groups 2 0 ∷ [])
        ≡ whole 52 ∷ whole 10 ∷ [] }
    ensures covariance_there { law_where_defined nat_eq unequal_pair unequal_pair_groups 2 0 ≡ Some (whole 10) }
    ensures part_there { part_where_defined nat_eq unequal_pair (Pair 0 1 (whole 4) (whole 9) (whole 3) (inv_ℚ (whole 8))) 2 ≡ Some (whole 52) }
    ensures parted { PartTheInputs nat_eq (inputs_of unequal_pair) unequal_pair_groups }
    ensures correlation { IsCorrelation (whole 10) (whole 52) (whole 4) (pos 69) }
    ensures degrees { degrees_of nat_eq unequal_pair unequal_pair_groups 2 ≡ FiniteDegrees (of_ℤ (pos 8)) }
    ensures sound { AllGroups (IsSoundFor nat_eq (inputs_of unequal_pair)) unequal_pair_groups }
{}

/// Degrees of freedom of unequal parts, of one part that counts beside one that does not, and of none that
/// counts.
pub fn worked_degrees()
    ensures unequal { degrees_of nat_eq two_degrees two_degrees_groups 3 ≡ FiniteDegrees (ratio (pos 125) 17) }
    ensures one_counts { degrees_of nat_eq two_degrees one_degrees_groups 2 ≡ FiniteDegrees (of_ℤ (pos 20)) }
    ensures second_counts { degrees_of nat_eq two_degrees two_degrees_groups 4 ≡ FiniteDegrees (of_ℤ (pos 5)) }
    ensures none_counts { degrees_of nat_eq two_degrees one_degrees_groups 4 ≡ InfiniteDegrees }
    ensures sound { AllGroups (IsSoundFor nat_eq (inputs_of two_degrees)) one_degrees_groups }
{}

/// The columns of Table G.2 (JCGM 100:2008), in thousandths, its last row, which a variance without degrees
/// takes too, rows for degrees that are between those of the table and below them, and factors as numbers.
pub fn factors_are_those_of_the_table()
    ensures percent95 { map (λ n. thousandths Percent95 (row_of (FiniteDegrees (whole n)))) tabulated
        ≡ 12710 ∷ 4300 ∷ 3180 ∷ 2780 ∷ 2570 ∷ 2450 ∷ 2360 ∷ 2310 ∷ 2260 ∷ 2230 ∷ 2200 ∷ 2180 ∷ 2160 ∷ 2140 ∷ 2130 ∷ 2120 ∷ 2110 ∷ 2100
        ∷ 2090 ∷ 2090 ∷ 2060 ∷ 2040 ∷ 2030 ∷ 2020 ∷ 2010 ∷ 2010 ∷ 1984 ∷ [] }
    ensures percent9545 { map (λ n. thousandths Percent9545 (row_of (FiniteDegrees (whole n)))) tabulated
        ≡ 13970 ∷ 4530 ∷ 3310 ∷ 2870 ∷ 2650 ∷ 2520 ∷ 2430 ∷ 2370 ∷ 2320 ∷ 2280 ∷ 2250 ∷ 2230 ∷ 2210 ∷ 2200 ∷ 2180 ∷ 2170 ∷ 2160 ∷ 2150
        ∷ 2140 ∷ 2130 ∷ 2110 ∷ 2090 ∷ 2070 ∷ 2060 ∷ 2060 ∷ 2050 ∷ 2025 ∷ [] }
    ensures percent99 { map (λ n. thousandths Percent99 (row_of (FiniteDegrees (whole n)))) tabulated
        ≡ 63660 ∷ 9920 ∷ 5840 ∷ 4600 ∷ 4030 ∷ 3710 ∷ 3500 ∷ 3360 ∷ 3250 ∷ 3170 ∷ 3110 ∷ 3050 ∷ 3010 ∷ 2980 ∷ 2950 ∷ 2920 ∷ 2900 ∷ 2880
        ∷ 2860 ∷ 2850 ∷ 2790 ∷ 2750 ∷ 2720 ∷ 2700 ∷ 2690 ∷ 2680 ∷ 2626 ∷ [] }
    ensures infinite { (thousandths Percent95 (row_of InfiniteDegrees) ∷ thousandths Percent9545 (row_of InfiniteDegrees)
        ∷ thousandths Percent99 (row_of InfiniteDegrees) ∷ thousandths Percent99 (row_of NoDegrees) ∷ [])
        ≡ 1960 ∷ 2000 ∷ 2576 ∷ 2576 ∷ [] }
    ensures between { map (λ x. thousandths Percent95 (row_of (FiniteDegrees x))) (ratio (pos 1) 2 ∷ ratio (pos 19) 10 ∷ ratio (pos 249) 10 ∷ ratio (pos 999) 10 ∷ [])
        ≡ 12710 ∷ 12710 ∷ 2090 ∷ 2010 ∷ [] }
    ensures degrees { map (λ f. f.degrees) (infinite_row ∷ first_row ∷ later_rows) ≡ 0 ∷ tabulated }
    ensures factor { (factor Percent95 (FiniteDegrees (whole 5)) ∷ factor Percent9545 (FiniteDegrees (whole 5))
        ∷ factor Percent99 InfiniteDegrees ∷ [])
        ≡ ratio (pos 257) 100 ∷ ratio (pos 265) 100 ∷ ratio (pos 2576) 1000 ∷ [] }
{}

/// Rounded numbers, at ties among others, which go upward.
pub fn worked_roundings()
    ensures hundredths_of_12_345 { at_place (ratio (pos 12345) 1000) (negsuc 1) ≡ pos 1235 }
    ensures ones { map (λ q. at_place q (pos 0)) (ratio (negsuc 0) 2 ∷ ratio (negsuc 2) 2 ∷ ratio (pos 149) 100 ∷ []) ≡ pos 0 ∷ negsuc 0 ∷ pos 1 ∷ [] }
    ensures tens { map (λ q. at_place q (pos 1)) (ratio (pos 149) 10 ∷ whole 15 ∷ []) ≡ pos 1 ∷ pos 2 ∷ [] }
    ensures root_of_12_5 { IsTwoDigits (ratio (pos 15625) 100) 13 (pos 0) }
    ensures root_of_9_95 { IsTwoDigits (ratio (pos 990025) 10000) 10 (pos 0) }
    ensures root_below_9_95 { IsTwoDigits (ratio (pos 990024) 10000) 99 (negsuc 0) }
    ensures no_root { AreDigitsOf (whole 0) Zero }
    ensures half { IsHundredths (ratio (pos 1) 4) 50 }
    ensures root_of_0_505 { IsHundredths (ratio (pos 255025) 1000000) 51 }
    ensures negative_half { IsCorrelation (of_ℤ (negsuc 0)) (whole 1) (whole 4) (negsuc 49) }
{}

/// Statements by a rule with the limits 0 and 20 and a guard band of 3 (r = 1/2, k = 3, V = 4): at both
/// limits each outcome, at its first and its last tenth. Without limits the statement is Pass. Over
/// intervals, with the square 9 of the guard band, each outcome and each condition that is not settled.
pub fn worked_statements()
    ensures lower { map (λ y. stated between_limits y (whole 3) (whole 4))
        (whole 3 ∷ ratio (pos 29) 10 ∷ whole 0 ∷ ratio (negsuc 0) 10 ∷ of_ℤ (negsuc 2) ∷ ratio (negsuc 30) 10 ∷ [])
        ≡ Pass ∷ ConditionalPass ∷ ConditionalPass ∷ ConditionalFail ∷ ConditionalFail ∷ Fail ∷ [] }
    ensures upper { map (λ y. stated between_limits y (whole 3) (whole 4))
        (whole 17 ∷ ratio (pos 171) 10 ∷ whole 20 ∷ ratio (pos 201) 10 ∷ whole 23 ∷ ratio (pos 231) 10 ∷ [])
        ≡ Pass ∷ ConditionalPass ∷ ConditionalPass ∷ ConditionalFail ∷ ConditionalFail ∷ Fail ∷ [] }
    ensures binary { map (λ y. stated between_limits_binary y (whole 3) (whole 4)) (whole 3 ∷ ratio (pos 29) 10 ∷ [])
        ≡ Pass ∷ Fail ∷ [] }
    ensures without_limits { map (λ y. stated no_limits y (whole 3) (whole 4)) (whole 5 ∷ of_ℤ (negsuc 4) ∷ []) ≡ Pass ∷ Pass ∷ [] }
    ensures both { (both No No ∷ both No Yes ∷ both No Unsettled ∷ both Yes No ∷ both Yes Yes ∷ both Yes Unsettled
        ∷ both Unsettled No ∷ both Unsettled Yes ∷ both Unsettled Unsettled ∷ [])
        ≡ No ∷ No ∷ No ∷ No ∷ Yes ∷ Unsettled ∷ No ∷ Unsettled ∷ Unsettled ∷ [] }
    ensures either { (either No No ∷ either No Yes ∷ either No Unsettled ∷ either Yes No ∷ either Yes Yes ∷ either Yes Unsettled
        ∷ either Unsettled No ∷ either Unsettled Yes ∷ either Unsettled Unsettled ∷ [])
        ≡ No ∷ Yes ∷ Unsettled ∷ Yes ∷ Yes ∷ Yes ∷ Unsettled ∷ Yes ∷ Unsettled ∷ [] }
    ensures conditions { (decision_by Binary Unsettled Yes Yes ∷ decision_by FourOutcomes Unsettled Yes Yes ∷ decision_by FourOutcomes No Unsettled Yes
        ∷ decision_by FourOutcomes No No Unsettled ∷ decision_by FourOutcomes No No No ∷ [])
        ≡ Undecided 1 ∷ Undecided 1 ∷ Undecided 2 ∷ Undecided 3 ∷ Stated Fail ∷ [] }
    ensures comparisons { (compared (ends (whole 1) (whole 2)) (ends (whole 2) (whole 3)) ∷ compared (ends (whole 1) (whole 3)) (ends (whole 0) (whole 1))
        ∷ compared (ends (whole 2) (whole 3)) (ends (whole 0) (whole 1)) ∷ [])
        ≡ Yes ∷ Unsettled ∷ No ∷ [] }
    ensures over_intervals { map (decision FourOutcomes (ends (whole 9) (whole 9)))
        ([] ∷ (span (pos 3) (pos 4) 9 16 ∷ []) ∷ (span (pos 3) (pos 4) 9 16 ∷ span (pos 0) (pos 2) 0 4 ∷ []) ∷ (span (negsuc 1) (negsuc 0) 1 4 ∷ [])
        ∷ (span (negsuc 4) (negsuc 3) 16 25 ∷ []) ∷ (span (pos 2) (pos 4) 4 16 ∷ []) ∷ (span (negsuc 0) (pos 1) 0 1 ∷ []) ∷ (span (negsuc 3) (negsuc 1) 4 16 ∷ []) ∷ [])
        ≡ Stated Pass ∷ Stated Pass ∷ Stated ConditionalPass ∷ Stated ConditionalFail ∷ Stated Fail ∷ Undecided 1 ∷ Undecided 2 ∷ Undecided 3 ∷ [] }
    ensures within { AllWithin (whole 2 ∷ []) (span (pos 2) (pos 2) 4 4 ∷ []) }
{}

/// What the laws ask of keys, rows, groups and columns is so of small models: the columns of a table are
/// once among them, two formulas that use one another are a cycle, and a renaming by the next number
/// gives each key of a model and of its groups its new name.
pub fn worked_premises()
    ensures columns { OnceAmong nat_eq first_column (first_column ∷ second_column ∷ []) × OnceAmong nat_eq second_column (first_column ∷ second_column ∷ []) }
    ensures cyclic { IsCyclic nat_eq cycle in_cycle }
    ensures keys_of_rows { EachRowKey (Passes (λ n. true)) operations }
    ensures keys_of_groups { EachMember (Passes (λ n. true)) eleven_readings_groups × EachMember (Passes (λ n. true)) unequal_pair_groups }
    ensures renamed { renamed_rows (λ n. suc n) unequal_pair ≡ renamed_pair }
    ensures renamed_groups { renamed_groups (λ n. suc n) unequal_pair_groups ≡ renamed_pair_groups }
{}
