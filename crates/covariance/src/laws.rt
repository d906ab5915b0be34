ghost use Rattle.std.specs.Prelude.{◌≡◌, [], ◌∷◌, List, map, Some, None, IfSome, pos, negsuc, ℕ, suc, true, false, nat_eq};
ghost use Rattle.exact_fraction.specs.Number.{ℚ, of_ℤ};
ghost use Rattle.exact_fraction.specs.Sums.{total};
ghost use Rattle.exact_law.specs.Law.{IsSound, law, part};
ghost use Rattle.decimal18.specs.Bound.{scaled};
ghost use Rattle.fixed_interval.specs.Interval.{Encloses, point_span};
ghost use Rattle.fixed_interval.specs.Sums.{zero_span};
ghost use Rattle.covariance.specs.Gradients.{AllEnclose, Spans, found_at};
ghost use Rattle.type_a.specs.WorkedTables.{voltage_and_current};
ghost use Rattle.type_b.specs.declared.shape.Shape.TheVariants.{Std};
ghost use Rattle.type_b.specs.declared.shape.Dof.TheVariants.{Inf};
ghost use Rattle.covariance.specs.Groups.{Group, Single, Pair, Columns, AreRegular, IsRegular, exact_group, covariance_within};
ghost use Rattle.covariance.specs.Variances.{group_variance_span, group_covariance_span, combined_variance_span, combined_covariance_span, meets};
ghost use Rattle.covariance.specs.Renaming.{renamed_group};
ghost use Rattle.covariance.specs.Models.{EnclosesSlopes, IsInput, are_apart, AreGroupsOf, EachMember};
ghost use Rattle.covariance.specs.Costs.{pairs, pairs_of};
ghost use Rattle.covariance.specs.Worked.{whole, single, against, columns, great, both_of, first_of, second_of, first_against, nothing, below, standard, one_key};

/// Over any kind of key: the spans of a group's variance, of the combined variance and of a covariance enclose
/// the exact ones of the law of propagation of uncertainty, for all sensitivities that the spans enclose, and a
/// regular group is sound there.
pub fn spans_enclose_the_law<K>()
    ensures group { (g : Group K) → IsRegular g → (y : Spans K) (u : K → ℚ) → AllEnclose y u
        → IfSome (group_variance_span y g) (λ s. Encloses s (part (exact_group g) u u)) }
    ensures variance { (groups : List (Group K)) → AreRegular groups → (y : Spans K) (u : K → ℚ) → AllEnclose y u
        → IfSome (combined_variance_span y groups) (λ s. Encloses s (total (λ g. part g u u) (map exact_group groups))) }
    ensures covariance { (groups : List (Group K)) → AreRegular groups → (y z : Spans K) (u w : K → ℚ) → AllEnclose y u → AllEnclose z w
        → IfSome (combined_covariance_span y z groups) (λ s. Encloses s (total (λ g. part g u w) (map exact_group groups))) }
    ensures sound { (g : Group K) → IsRegular g → IsSound (exact_group g) }
{}

/// Variances: of an input with the standard uncertainty 2 and the sensitivity 3; of two of 1 with the correlation
/// coefficient -1, where the sensitivities are 1 and 1, and where they are 1 and -1; of the voltage and the
/// current of JCGM 100:2008, Table H.2, with the sensitivities 1 and 1; of a quantity without groups; of two
/// groups, of which one has no member in the gradient; and of an input whose variance is out of range, also where
/// its sensitivity is 0, and where only the other input of the pair is in the gradient.
pub fn worked_variances()
    ensures single { group_variance_span (found_at (first_of 3)) (single 2) ≡ Some (point_span (whole 36)) }
    ensures opposed { group_variance_span (found_at (both_of (pos 1) (pos 1))) (against 1) ≡ Some zero_span }
    ensures together { group_variance_span (found_at (both_of (pos 1) (negsuc 0))) (against 1) ≡ Some (point_span (whole 4)) }
    ensures unlike { group_variance_span (found_at (both_of (pos 1) (pos 1))) (against 3) ≡ Some (point_span (whole 4)) }
    ensures readings { group_variance_span (found_at (both_of (pos 1) (pos 1))) columns ≡ Some (point_span (scaled (pos 784) 7)) }
    ensures none { combined_variance_span (found_at (first_of 3)) [] ≡ Some zero_span }
    ensures met { combined_variance_span (found_at (second_of 3)) (great ∷ against 1 ∷ []) ≡ Some (point_span (whole 9)) }
    ensures left { combined_variance_span (found_at (first_of 0)) (great ∷ []) ≡ None }
    ensures partner { combined_variance_span (found_at (first_of 1)) (against 1000000000 ∷ []) ≡ None }
{}

/// Covariances: of two quantities that depend on the same input, by 3 and by -1; of one on the first and one on
/// the second of two inputs with the correlation coefficient -1 and the standard uncertainties 1 and 3; of the
/// voltage and the current; and of quantities that have no input in common. A covariance may
/// be below 0. A group counts where one of the two quantities depends on it. The covariance of two members does not
/// depend on their order.
pub fn worked_covariances()
    ensures shared { combined_covariance_span (found_at (first_of 3)) (found_at first_against) (single 2 ∷ []) ≡ Some (point_span (scaled (negsuc 11) 0)) }
    ensures pair { combined_covariance_span (found_at (first_of 1)) (found_at (second_of 1)) (against 3 ∷ []) ≡ Some (point_span (scaled (negsuc 2) 0)) }
    ensures readings { combined_covariance_span (found_at (first_of 1)) (found_at (second_of 1)) (columns ∷ []) ≡ Some (point_span (scaled (negsuc 107) 7)) }
    ensures none_shared { combined_covariance_span (found_at (first_of 1)) (found_at (second_of 1)) (single 2 ∷ []) ≡ Some zero_span }
    ensures nothing { combined_covariance_span (found_at nothing) (found_at nothing) (great ∷ []) ≡ Some zero_span }
    ensures only_first { combined_covariance_span (found_at (first_of 1)) (found_at nothing) (great ∷ []) ≡ None }
    ensures only_second { combined_covariance_span (found_at nothing) (found_at (first_of 1)) (great ∷ []) ≡ None }
    ensures either_order { covariance_within (against 3) 1 0 ≡ Some (point_span (scaled (negsuc 2) 0)) }
{}

/// Groups under other keys, each number with its successor in its place: an input, a pair, and columns.
pub fn worked_renaming()
    ensures single { renamed_group suc (single 2) ≡ Single 2 (Std (whole 2)) Inf }
    ensures pair { renamed_group suc (against 3) ≡ Pair 2 (Std (whole 1)) 3 (Std (whole 3)) (scaled (negsuc 0) 0) }
    ensures columns { renamed_group suc columns ≡ Columns (2 ∷ 3 ∷ []) voltage_and_current }
{}

/// Pairs of members: one of an input, four of a pair, and those of the groups that a gradient meets.
pub fn worked_costs()
    ensures single { pairs (single 1) ≡ 1 }
    ensures pair { pairs (against 1) ≡ 4 }
    ensures met { pairs_of (meets (found_at (first_of 1))) (single 1 ∷ against 1 ∷ Single 3 (Std (whole 1)) Inf ∷ []) ≡ 5 }
{}

/// The input X with the standard uncertainty 1, A = 2 X and B = 3 X, which share it: the variance of A is 4, and the
/// covariance of A and B is 6, by the spans and exactly. The sensitivity 2 to X encloses the derivative of A by it, 3 does
/// not, and what a gradient has for a quantity that is no input plays no part.
pub fn worked_standard()
    ensures variance { combined_variance_span (found_at (first_of 2)) (single 1 ∷ []) ≡ Some (point_span (whole 4)) }
    ensures covariance { combined_covariance_span (found_at (first_of 2)) (found_at (first_of 3)) (single 1 ∷ []) ≡ Some (point_span (whole 6)) }
    ensures exact_variance { law nat_eq standard (map exact_group (single 1 ∷ [])) 2 2 ≡ of_ℤ (pos 4) }
    ensures exact_covariance { law nat_eq standard (map exact_group (single 1 ∷ [])) 2 3 ≡ of_ℤ (pos 6) }
    ensures slopes { EnclosesSlopes nat_eq standard 2 (found_at (first_of 2)) }
    ensures other_slope { ¬ EnclosesSlopes nat_eq standard 2 (found_at (first_of 3)) }
    ensures no_input { EnclosesSlopes nat_eq standard 2 (found_at (both_of (pos 2) (pos 9))) }
{}

/// The group of X alone is that of the inputs of the same model. Without it X has no group; it is refused where it states
/// no uncertainty, with another group of X, and where two quantities have one key. Of A and X only X is an input.
pub fn worked_groups_of_models()
    ensures group { AreGroupsOf nat_eq standard (single 1 ∷ []) }
    ensures none { ¬ AreGroupsOf nat_eq standard [] }
    ensures irregular { ¬ AreGroupsOf nat_eq standard (below ∷ []) }
    ensures twice { ¬ AreGroupsOf nat_eq standard (single 1 ∷ single 1 ∷ []) }
    ensures one_key { ¬ AreGroupsOf nat_eq one_key (single 1 ∷ []) }
    ensures apart { are_apart nat_eq (1 ∷ 2 ∷ 3 ∷ []) ≡ true }
    ensures first_again { are_apart nat_eq (1 ∷ 2 ∷ 1 ∷ []) ≡ false }
    ensures second_again { are_apart nat_eq (1 ∷ 2 ∷ 2 ∷ []) ≡ false }
    ensures input { IsInput nat_eq standard 1 }
    ensures formula { ¬ IsInput nat_eq standard 2 }
    ensures members { EachMember (IsInput nat_eq standard) (single 1 ∷ single 2 ∷ []) }
    ensures other_member { ¬ EachMember (IsInput nat_eq standard) (single 1 ∷ against 1 ∷ []) }
{}
