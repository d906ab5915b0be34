ghost use Rattle.std.specs.Prelude.{◌≡◌, Option, None, Some, Result, Ok, Err, [], ◌∷◌, map, pos, negsuc};
ghost use Rattle.exact_fraction.specs.Number.{of_ℤ};
ghost use Rattle.exact_law.specs.WrittenRule.{Pass as ExactPass, ConditionalPass as ExactConditionalPass, ConditionalFail as ExactConditionalFail, Fail as ExactFail, Decision, Stated, Undecided as UndecidedAt, stated};
ghost use Rattle.decimal18.specs.Bound.{scaled};
ghost use Rattle.fixed_interval.specs.declared.faults.Overflow.{Overflow};
ghost use Rattle.guard_band.specs.Statements.{IsAnswer, IsRule, above, at_limit, below, decision_of, decision_over, exact_rule, guard_square_span};
ghost use Rattle.guard_band.specs.WorkedRules.{between, decided_of, from_to, lower_alone, upper_alone, whole, without_guard};
ghost use Rattle.guard_band.specs.declared.rule.Form.TheVariants.{Binary, Four};
ghost use Rattle.guard_band.specs.declared.rule.Condition.TheVariants.{Guarded, Inside, Near};
ghost use Rattle.guard_band.specs.declared.rule.Said.{Said};
ghost use Rattle.guard_band.specs.declared.rule.Said.TheVariants.{Pass, ConditionalPass, ConditionalFail, Fail, Undecided};

/// Spans decide in one way: an answer is determined by what it means.
pub fn one_answer()
    ensures { (wanted : Option Decision) (r s : Result Said Overflow) → IsAnswer decision_of wanted r → IsAnswer decision_of wanted s → r ≡ s }
{}

/// Which rules are asked: not those without a limit, and none with a guard band below 0 or above three expanded
/// uncertainties. With the limits 0 and 20, the factor 3 and the variance 4 the exact rule states Pass of the value 3, and of
/// the value 20 a conditional pass, or Fail where it has two outcomes; with the lower limit alone, Pass of the value 100.
pub fn worked_rules()
    ensures between { IsRule (between Four) }
    ensures lower { IsRule lower_alone }
    ensures upper { IsRule upper_alone }
    ensures no_limit { ¬ IsRule (record { lower = None; upper = None; guard = scaled (pos 1) 0; form = Four }) }
    ensures below_zero { ¬ IsRule (record { lower = None; upper = Some (scaled (pos 1) 0); guard = scaled (negsuc 0) 1; form = Four }) }
    ensures above_three { ¬ IsRule (record { lower = None; upper = Some (scaled (pos 1) 0); guard = scaled (pos 31) 1; form = Four }) }
    ensures exact { stated (exact_rule (between Four)) (of_ℤ (pos 3)) (of_ℤ (pos 3)) (of_ℤ (pos 4)) ≡ ExactPass }
    ensures exact_upper { stated (exact_rule (between Four)) (of_ℤ (pos 20)) (of_ℤ (pos 3)) (of_ℤ (pos 4)) ≡ ExactConditionalPass }
    ensures exact_lower { stated (exact_rule lower_alone) (of_ℤ (pos 100)) (of_ℤ (pos 3)) (of_ℤ (pos 4)) ≡ ExactPass }
    ensures exact_binary { stated (exact_rule (between Binary)) (of_ℤ (pos 20)) (of_ℤ (pos 3)) (of_ℤ (pos 4)) ≡ ExactFail }
{}

/// The square of the guard band for the factor 3, the variance 4 and half an expanded uncertainty, and for a variance from 4
/// to 5; the distances of the estimates 2 to 3 from a lower limit 0 and from an upper limit 20.
pub fn worked_spans()
    ensures guard { guard_square_span (scaled (pos 5) 1) (whole (pos 3)) (whole (pos 4)) ≡ Some (whole (pos 9)) }
    ensures guards { guard_square_span (scaled (pos 5) 1) (whole (pos 3)) (from_to (pos 4) (pos 5))
        ≡ Some (record { lo = scaled (pos 9) 0; hi = scaled (pos 1125) 2 }) }
    ensures above { above (from_to (pos 2) (pos 3)) (scaled (pos 0) 0) ≡ Some (from_to (pos 2) (pos 3)) }
    ensures below { below (from_to (pos 2) (pos 3)) (scaled (pos 20) 0) ≡ Some (from_to (pos 17) (pos 18)) }
    ensures no_limit { at_limit (above (whole (pos 2))) None ≡ Some [] }
{}

/// What is decided where the guard band is 3 and the limits are 0 and 20: at 3 and 17, which the guard band reaches, at the
/// limits, which are inside, as far outside as the guard band is wide, and farther. With two outcomes, all that does not
/// pass fails. With one limit nothing is asked at the other, and without a guard band a value on a limit passes. Spans across
/// the end of the guard band, across a limit and across the end of the guard band outside settle no first, second and third
/// condition, and nor does a variance from 4 to 5 at 3. There is no decision where the estimate's distance, its square or the
/// guard band is out of range.
pub fn worked_statements()
    ensures lower { map (λ y. decided_of (between Four) (whole y)) (pos 3 ∷ pos 2 ∷ pos 0 ∷ negsuc 0 ∷ negsuc 2 ∷ negsuc 3 ∷ [])
        ≡ map (λ said. Some (decision_of said)) (Pass ∷ ConditionalPass ∷ ConditionalPass ∷ ConditionalFail ∷ ConditionalFail ∷ Fail ∷ []) }
    ensures upper { map (λ y. decided_of (between Four) (whole y)) (pos 17 ∷ pos 18 ∷ pos 20 ∷ pos 21 ∷ pos 23 ∷ pos 24 ∷ [])
        ≡ map (λ said. Some (decision_of said)) (Pass ∷ ConditionalPass ∷ ConditionalPass ∷ ConditionalFail ∷ ConditionalFail ∷ Fail ∷ []) }
    ensures binary { map (λ y. decided_of (between Binary) (whole y)) (pos 3 ∷ pos 2 ∷ pos 17 ∷ pos 18 ∷ [])
        ≡ map (λ said. Some (decision_of said)) (Pass ∷ Fail ∷ Pass ∷ Fail ∷ []) }
    ensures lower_alone { map (λ y. decided_of lower_alone (whole y)) (pos 100 ∷ negsuc 3 ∷ [])
        ≡ map (λ said. Some (decision_of said)) (Pass ∷ Fail ∷ []) }
    ensures upper_alone { map (λ y. decided_of upper_alone (whole y)) (negsuc 99 ∷ pos 24 ∷ [])
        ≡ map (λ said. Some (decision_of said)) (Pass ∷ Fail ∷ []) }
    ensures on_a_limit { map (λ y. decided_of without_guard (whole y)) (pos 0 ∷ pos 20 ∷ pos 21 ∷ [])
        ≡ map (λ said. Some (decision_of said)) (Pass ∷ Pass ∷ Fail ∷ []) }
    ensures first { decided_of (between Four) (from_to (pos 2) (pos 4)) ≡ Some (decision_of (Undecided Guarded)) }
    ensures first_binary { decided_of (between Binary) (from_to (pos 16) (pos 18)) ≡ Some (decision_of (Undecided Guarded)) }
    ensures second { decided_of (between Four) (from_to (negsuc 0) (pos 1)) ≡ Some (decision_of (Undecided Inside)) }
    ensures third { decided_of (between Four) (from_to (negsuc 3) (negsuc 1)) ≡ Some (decision_of (Undecided Near)) }
    ensures settled { decided_of (between Four) (from_to (pos 1) (pos 2)) ≡ Some (decision_of ConditionalPass) }
    ensures of_variance { decision_over (between Four) (whole (pos 3)) (from_to (pos 4) (pos 5)) (whole (pos 3)) ≡ Some (decision_of (Undecided Guarded)) }
    ensures far { decided_of upper_alone (whole (negsuc 999999999999999998)) ≡ None }
    ensures far_square { decided_of lower_alone (whole (pos 1000000000)) ≡ None }
    ensures wide { decision_over (between Four) (whole (pos 3)) (whole (pos 999999999999999999)) (whole (pos 3)) ≡ None }
{}

/// What answers mean: of a statement, of each condition that is not settled, and of an overflow.
pub fn worked_answers()
    ensures meanings { map decision_of (Pass ∷ ConditionalPass ∷ ConditionalFail ∷ Fail ∷ Undecided Guarded ∷ Undecided Inside ∷ Undecided Near ∷ [])
        ≡ Stated ExactPass ∷ Stated ExactConditionalPass ∷ Stated ExactConditionalFail ∷ Stated ExactFail ∷ UndecidedAt 1 ∷ UndecidedAt 2 ∷ UndecidedAt 3 ∷ [] }
    ensures answer { IsAnswer decision_of (Some (Stated ExactPass)) (Ok Pass) }
    ensures overflow { IsAnswer decision_of None (Err (record {})) }
    ensures no_answer { ¬ IsAnswer decision_of None (Ok Pass) }
    ensures no_overflow { ¬ IsAnswer decision_of (Some (Stated ExactPass)) (Err (record {})) }
{}
