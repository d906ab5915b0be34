ghost use Rattle.std.specs.Prelude.{◌≡◌, ℕ, Bool, true, false, List, [], ◌∷◌, bytes_eq, nat_eq, map, codes, pos, Some, None};
ghost use Rattle.std.specs.Option.{option_map};
ghost use Rattle.exact_fraction.specs.Number.{ℚ, of_ℤ};
ghost use Rattle.exact_law.specs.Model.{IsSameTest, Input as ModelInput, exact_slope, body_of as model_body_of};
ghost use Rattle.decimal18.specs.Bound.{scaled};
ghost use Rattle.fixed_interval.specs.Interval.{Interval, Encloses, point_span};
ghost use Rattle.fixed_interval.specs.Sums.{zero_span};
ghost use Rattle.type_a.specs.WorkedTables.{span};
ghost use Rattle.value_cache.specs.Quantities.{Quantity, is_there};
ghost use Rattle.value_cache.specs.Evaluations.{evaluation_of};
ghost use Rattle.value_cache.specs.Evaluable.{AreInOrder};
ghost use Rattle.value_cache.specs.Model.{model_of, AllHaveExponents};
ghost use Rattle.covariance.specs.Gradients.{sensitivity};
ghost use Rattle.adjoint_pass.specs.Sensitivities.{AllKeepNamesApart, span_at, depends_on, cone_of, sensitivity_of, has_gradient, gradient_of};
ghost use Rattle.value_cache.specs.Renaming.{AreRenamed, renamed_evaluation};
ghost use Rattle.adjoint_pass.specs.Worked.{cubed, steep, pair, pair_by_bytes, first_byte};

/// The span of a sensitivity encloses the derivative (JCGM 100:2008, 5.1.3) of the quantity's expanded formula
/// by an input.
pub fn sensitivities_are_enclosed<K>()
    ensures { (same : K → K → Bool) → IsSameTest same → (qs : List (Quantity K)) → AreInOrder same [] qs → AllHaveExponents qs → AllKeepNamesApart same qs
        → (y : K) → is_there same qs y ≡ true → (i : K) (q : ℚ) → model_body_of same (model_of qs) i ≡ Some (ModelInput q)
        → (s : Interval) → sensitivity_of same qs y i ≡ Some s → Encloses s (exact_slope same (model_of qs) y i) }
{}

/// Where no sensitivity of a quantity leaves the range of bounds, its gradient encloses the derivatives by all inputs:
/// those outside it have the point 0.
pub fn gradients_are_enclosed<K>()
    ensures { (same : K → K → Bool) → IsSameTest same → (qs : List (Quantity K)) → AreInOrder same [] qs → AllHaveExponents qs → AllKeepNamesApart same qs
        → (y : K) → is_there same qs y ≡ true → has_gradient same qs y ≡ true → (i : K) (q : ℚ) → model_body_of same (model_of qs) i ≡ Some (ModelInput q)
        → Encloses (sensitivity (gradient_of same qs y) i) (exact_slope same (model_of qs) y i) }
{}

/// Quantities in order have the same evaluations under new keys that tell them apart. The fault of an evaluation
/// is that of the same quantity.
pub fn renaming_changes_no_evaluation<K, L>()
    ensures { (same : K → K → Bool) → IsSameTest same → (same' : L → L → Bool) (rename : K → L) (qs : List (Quantity K)) (rs : List (Quantity L))
        → AreRenamed same same' rename qs rs → (n : K) → is_there same qs n ≡ true
        → evaluation_of same' rs (rename n) ≡ option_map (renamed_evaluation rename) (evaluation_of same qs n) }
{}

/// Nor do new keys change on which others a quantity depends, and its sensitivities.
pub fn renaming_changes_no_sensitivity<K, L>()
    ensures cone { (same : K → K → Bool) → IsSameTest same → (same' : L → L → Bool) (rename : K → L) (qs : List (Quantity K)) (rs : List (Quantity L))
        → AreRenamed same same' rename qs rs → (y n : K) → is_there same qs y ≡ true → is_there same qs n ≡ true
        → depends_on same' rs (rename y) (rename n) ≡ depends_on same qs y n }
    ensures sensitivity { (same : K → K → Bool) → IsSameTest same → (same' : L → L → Bool) (rename : K → L) (qs : List (Quantity K)) (rs : List (Quantity L))
        → AreRenamed same same' rename qs rs → (y n : K) → is_there same qs y ≡ true → is_there same qs n ≡ true
        → sensitivity_of same' rs (rename y) (rename n) ≡ sensitivity_of same qs y n }
    ensures gradient { (same : K → K → Bool) → IsSameTest same → (same' : L → L → Bool) (rename : K → L) (qs : List (Quantity K)) (rs : List (Quantity L))
        → AreRenamed same same' rename qs rs → (y n : K) → is_there same qs y ≡ true → is_there same qs n ≡ true
        → gradient_of same' rs (rename y) (rename n) ≡ gradient_of same qs y n }
    ensures defined { (same : K → K → Bool) → IsSameTest same → (same' : L → L → Bool) (rename : K → L) (qs : List (Quantity K)) (rs : List (Quantity L))
        → AreRenamed same same' rename qs rs → (y : K) → is_there same qs y ≡ true
        → has_gradient same' rs (rename y) ≡ has_gradient same qs y }
{}

/// With X = 3, A = X * X, B = A * X and T = X / 3: B depends on itself, A and X, and its sensitivity to X is what B
/// brings, 9, and what A brings, 3 times 6. That of T to X is 1/3, rounded outwards. To itself a quantity has the
/// sensitivity 1, and to one that it does not use 0; it has no entry in its gradient then.
pub fn worked_sensitivities()
    ensures through { sensitivity_of bytes_eq cubed (codes "B") (codes "X") ≡ Some (point_span (scaled (pos 27) 0)) }
    ensures exact { exact_slope bytes_eq (model_of cubed) (codes "B") (codes "X") ≡ of_ℤ (pos 27) }
    ensures rounded { sensitivity_of bytes_eq cubed (codes "T") (codes "X")
        ≡ Some (span (pos 333333333333333333) 18 (pos 333333333333333334) 18) }
    ensures itself { sensitivity_of bytes_eq cubed (codes "B") (codes "B") ≡ Some (point_span (scaled (pos 1) 0)) }
    ensures unused { sensitivity_of bytes_eq cubed (codes "T") (codes "A") ≡ Some zero_span }
    ensures cone { map (λ m. m.key) (cone_of bytes_eq cubed (codes "B")) ≡ codes "B" ∷ codes "A" ∷ codes "X" ∷ [] }
    ensures entries { map (gradient_of bytes_eq cubed (codes "A")) (codes "X" ∷ codes "A" ∷ codes "B" ∷ [])
        ≡ Some (point_span (scaled (pos 6) 0)) ∷ Some (point_span (scaled (pos 1) 0)) ∷ None ∷ [] }
    ensures defined { has_gradient bytes_eq cubed (codes "B") ≡ true }
{}

/// A sensitivity may leave the range of bounds where the value does not: that of R = 1 / V at V = 10^-10.
pub fn worked_overflow()
    ensures value { span_at bytes_eq steep (codes "R") ≡ Some (point_span (scaled (pos 10000000000) 0)) }
    ensures sensitivity { sensitivity_of bytes_eq steep (codes "R") (codes "V") ≡ None }
    ensures undefined { has_gradient bytes_eq steep (codes "R") ≡ false }
{}

/// What the laws ask is so of small quantities.
pub fn worked_premises()
    ensures in_order { AreInOrder bytes_eq [] cubed }
    ensures exponents { AllHaveExponents cubed }
    ensures apart { AllKeepNamesApart bytes_eq cubed }
    ensures renamed { AreRenamed bytes_eq nat_eq first_byte pair pair_by_bytes }
{}
