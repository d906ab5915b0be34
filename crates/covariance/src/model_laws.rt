ghost use Rattle.std.specs.Prelude.{◌≡◌, Bool, false, List, map, Some, IfSome, pos};
ghost use Rattle.exact_fraction.specs.Number.{of_ℤ, ◌*ℚ◌, ◌≤ℚ◌};
ghost use Rattle.exact_law.specs.Model.{IsSameTest, Row};
ghost use Rattle.exact_law.specs.Law.{AllGroups, IsSoundFor, inputs_of, law, part_of};
ghost use Rattle.exact_law.specs.Renaming.{EachOf};
ghost use Rattle.decimal18.specs.Bound.{value_of};
ghost use Rattle.fixed_interval.specs.Interval.{Interval, Encloses};
ghost use Rattle.covariance.specs.Gradients.{Spans};
ghost use Rattle.covariance.specs.Groups.{Group, IsRegular, members, exact_group};
ghost use Rattle.covariance.specs.Renaming.{renamed_group};
ghost use Rattle.covariance.specs.Variances.{group_variance_span, combined_variance_span, combined_covariance_span, meets};
ghost use Rattle.covariance.specs.Models.{AreGroupsOf, EachMember, EnclosesSlopes, IsInput};

/// Of the groups of a model, each member is an input of the model, and each is sound there, as the theorems of the
/// exact law ask: no variance is below 0, and no covariance exceeds what its variances allow.
pub fn groups_have_the_inputs<K>()
    ensures inputs { (same : K → K → Bool) → IsSameTest same → (model : List (Row K)) (groups : List (Group K)) → AreGroupsOf same model groups
        → EachMember (IsInput same model) groups }
    ensures sound { (same : K → K → Bool) (model : List (Row K)) (groups : List (Group K)) → AreGroupsOf same model groups
        → AllGroups (IsSoundFor same (inputs_of model)) (map exact_group groups) }
{}

/// A group's part in the variance of a quantity of a model lies in its span, and is 0 where the group does not meet the
/// cone, for sensitivities that enclose the derivatives by the inputs.
pub fn parts_are_enclosed<K>()
    ensures part { (same : K → K → Bool) (model : List (Row K)) (g : Group K) → IsRegular g
        → EachOf (IsInput same model) (members g)
        → (k : K) (y : Spans K) → EnclosesSlopes same model k y
        → IfSome (group_variance_span y g) (λ s. Encloses s (part_of same model (exact_group g) k)) }
    ensures outside { (same : K → K → Bool) (model : List (Row K)) (g : Group K) → IsRegular g
        → EachOf (IsInput same model) (members g)
        → (k : K) (y : Spans K) → EnclosesSlopes same model k y → meets y g ≡ false → part_of same model (exact_group g) k ≡ of_ℤ (pos 0) }
    ensures not_negative { (g : Group K) (y : Spans K) → IfSome (group_variance_span y g) (λ s. of_ℤ (pos 0) ≤ℚ value_of s.lo) }
{}

/// The combined variance of a quantity of a model (JCGM 100:2008, 5.1.2, 5.2.2) lies in the span that is found for it,
/// whose lower end is not below 0, for sensitivities that enclose the derivatives by the inputs.
pub fn variances_are_enclosed<K>()
    ensures enclosed { (same : K → K → Bool) → IsSameTest same → (model : List (Row K)) (groups : List (Group K)) → AreGroupsOf same model groups
        → (k : K) (y : Spans K) → EnclosesSlopes same model k y
        → (s : Interval) → combined_variance_span y groups ≡ Some s → Encloses s (law same model (map exact_group groups) k k) }
    ensures not_negative { (groups : List (Group K)) (y : Spans K) (s : Interval) → combined_variance_span y groups ≡ Some s
        → of_ℤ (pos 0) ≤ℚ value_of s.lo }
{}

/// The covariance of two quantities of a model lies in the span that is found for it, and its square is at most the
/// product of the two variances.
pub fn covariances_are_enclosed<K>()
    ensures enclosed { (same : K → K → Bool) → IsSameTest same → (model : List (Row K)) (groups : List (Group K)) → AreGroupsOf same model groups
        → (k m : K) (y z : Spans K) → EnclosesSlopes same model k y → EnclosesSlopes same model m z
        → (s : Interval) → combined_covariance_span y z groups ≡ Some s → Encloses s (law same model (map exact_group groups) k m) }
    ensures schwarz { (same : K → K → Bool) → IsSameTest same → (model : List (Row K)) (groups : List (Group K)) → AreGroupsOf same model groups
        → (k m : K) → law same model (map exact_group groups) k m *ℚ law same model (map exact_group groups) k m
        ≤ℚ law same model (map exact_group groups) k k *ℚ law same model (map exact_group groups) m m }
{}

/// Groups under other keys have the same spans, and meet the same cones, where each member has the same span of its
/// sensitivity under its new key. Whether other keys are told apart plays no part.
pub fn renaming_changes_no_span<K, L>()
    ensures meets { (f : K → L) (g : Group K) (y : Spans K) (z : Spans L) → EachOf (λ k. z (f k) ≡ y k) (members g)
        → meets z (renamed_group f g) ≡ meets y g }
    ensures group { (f : K → L) (g : Group K) (y : Spans K) (z : Spans L) → EachOf (λ k. z (f k) ≡ y k) (members g)
        → group_variance_span z (renamed_group f g) ≡ group_variance_span y g }
    ensures variance { (f : K → L) (groups : List (Group K)) (y : Spans K) (z : Spans L) → EachMember (λ k. z (f k) ≡ y k) groups
        → combined_variance_span z (map (renamed_group f) groups) ≡ combined_variance_span y groups }
    ensures covariance { (f : K → L) (groups : List (Group K)) (y w : Spans K) (z x : Spans L)
        → EachMember (λ k. z (f k) ≡ y k) groups → EachMember (λ k. x (f k) ≡ w k) groups
        → combined_covariance_span z x (map (renamed_group f) groups) ≡ combined_covariance_span y w groups }
{}
