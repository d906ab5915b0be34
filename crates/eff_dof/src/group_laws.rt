ghost use Rattle.std.specs.Prelude.{◌≡◌, ℕ, Bool, [], ◌∷◌, List, map, Option, Ok, Err, Some, None, pos, negsuc};
ghost use Rattle.std.specs.Option.{option_and_then};
ghost use Rattle.exact_fraction.specs.Number.{ℚ, of_ℤ};
ghost use Rattle.exact_law.specs.Model.{IsSameTest, Row};
ghost use Rattle.exact_law.specs.Law.{Own};
ghost use Rattle.exact_law.specs.Degrees.{degrees_of};
ghost use Rattle.decimal18.specs.Bound.{scaled};
ghost use Rattle.type_b.specs.declared.shape.Dof.TheVariants.{Inf, Whole, Rel};
ghost use Rattle.type_b.specs.Shapes.{inverse_degrees};
ghost use Rattle.table_g2.specs.Known.{Allows, AreDegrees};
ghost use Rattle.table_g2.specs.Said.{said};
ghost use Rattle.table_g2.specs.declared.known.Nu.{Nu};
ghost use Rattle.table_g2.specs.declared.known.Nu.TheVariants.{None as NoNu, Infinite, Range};
ghost use Rattle.table_g2.specs.declared.settled.DofSaid.TheVariants.{Whole as SaidWhole};
ghost use Rattle.covariance.specs.Gradients.{Spans, found_at};
ghost use Rattle.covariance.specs.Groups.{Group, exact_group};
ghost use Rattle.covariance.specs.Models.{AreGroupsOf, EachMember, EnclosesSlopes};
ghost use Rattle.covariance.specs.Renaming.{renamed_group};
ghost use Rattle.covariance.specs.Variances.{combined_variance_span};
ghost use Rattle.covariance.specs.Worked.{against, both_of, columns, first_of, great, second_of};
ghost use Rattle.eff_dof.specs.Degrees.{variance_span};
ghost use Rattle.eff_dof.specs.GroupParts.{degrees_of_group, HaveDegrees, parts_of, known_degrees_of, share_by};
ghost use Rattle.eff_dof.specs.Worked.{one_reading, part, share, stated, two_inputs, two_parts, whole};

/// The variance of which the parts have their shares is the combined variance of the same groups (JCGM 100:2008, 5.1.2),
/// operation by operation: there is none exactly where a part, or their sum, leaves the range of bounds.
pub fn parts_have_the_variance<K>()
    ensures { (y : Spans K) (groups : List (Group K)) → option_and_then variance_span (parts_of y groups) ≡ combined_variance_span y groups }
{}

/// What is known of the effective degrees of freedom of a quantity of a model allows those of the exact law, in which all
/// groups are counted, for sensitivities that enclose the derivatives by the inputs. It is of the form that the factors of
/// Table G.2 ask for.
pub fn degrees_are_enclosed<K>()
    ensures allowed { (same : K → K → Bool) → IsSameTest same → (model : List (Row K)) (groups : List (Group K)) → AreGroupsOf same model groups
        → HaveDegrees groups → (k : K) (y : Spans K) → EnclosesSlopes same model k y
        → (nu : Nu) → known_degrees_of y groups ≡ Ok nu → Allows nu (degrees_of same model (map exact_group groups) k) }
    ensures degrees { (groups : List (Group K)) → HaveDegrees groups → (y : Spans K) (nu : Nu) → known_degrees_of y groups ≡ Ok nu → AreDegrees nu }
{}

/// Groups under other keys have the same degrees, where each member has the same span of its sensitivity under its new
/// key.
pub fn renaming_changes_no_degrees<K, L>()
    ensures { (f : K → L) (groups : List (Group K)) (y : Spans K) (z : Spans L) → EachMember (λ k. z (f k) ≡ y k) groups
        → known_degrees_of z (map (renamed_group f) groups) ≡ known_degrees_of y groups }
{}

/// The degrees of freedom of quantities with the sensitivities 1: of the sum of inputs with the standard uncertainties 1
/// and 2, known with 5 and 10 degrees, 25 / (1/5 + 16/10) = 13.88.., which is said as 13; of a pair; of the sum of the
/// voltage and the current of JCGM 100:2008, Table H.2, of which there are 5 records; of an input whose uncertainty is
/// itself uncertain by 25 percent. An input outside the cone brings nothing, whatever its degrees, also where its
/// variance is out of range, but inside the cone it does so even where the sensitivity is 0. Without inputs, and where
/// the sensitivities are 0, there are no degrees.
pub fn worked_groups()
    ensures two { known_degrees_of (found_at (both_of (pos 1) (pos 1))) two_inputs
        ≡ Ok (Range (scaled (pos 138888888888888888) 16) (Some (scaled (pos 138888888888888889) 16))) }
    ensures said { said (Range (scaled (pos 138888888888888888) 16) (Some (scaled (pos 138888888888888889) 16))) ≡ SaidWhole 13 }
    ensures pair { known_degrees_of (found_at (both_of (pos 1) (pos 1))) (against 3 ∷ []) ≡ Ok Infinite }
    ensures opposed { known_degrees_of (found_at (both_of (pos 1) (pos 1))) (against 1 ∷ []) ≡ Ok NoNu }
    ensures table { known_degrees_of (found_at (both_of (pos 1) (pos 1))) (columns ∷ []) ≡ Ok (Range (whole 4) (Some (whole 4))) }
    ensures relative { known_degrees_of (found_at (first_of 1)) (stated 1 2 (Rel 25) ∷ []) ≡ Ok (Range (whole 8) (Some (whole 8))) }
    ensures first_alone { known_degrees_of (found_at (first_of 1)) two_inputs ≡ Ok (Range (whole 5) (Some (whole 5))) }
    ensures second_alone { known_degrees_of (found_at (second_of 1)) two_inputs ≡ Ok (Range (whole 10) (Some (whole 10))) }
    ensures outside { known_degrees_of (found_at (second_of 1)) (great ∷ two_inputs) ≡ Ok (Range (whole 10) (Some (whole 10))) }
    ensures inside { known_degrees_of (found_at (first_of 0)) (great ∷ two_inputs) ≡ Err (record {}) }
    ensures nothing { known_degrees_of (found_at (both_of (pos 1) (pos 1))) [] ≡ Ok NoNu }
    ensures flat { known_degrees_of (found_at (first_of 0)) two_inputs ≡ Ok NoNu }
{}

/// The parts of two inputs, in their order, each with its degrees; one where the other is outside the cone, and none
/// where one of them is out of range, whichever that is.
pub fn worked_group_parts()
    ensures two { parts_of (found_at (both_of (pos 1) (pos 1))) two_inputs ≡ Some two_parts }
    ensures second_alone { parts_of (found_at (second_of 0)) two_inputs ≡ Some (part 0 (Whole 10) ∷ []) }
    ensures nothing { parts_of (found_at (both_of (pos 1) (pos 1))) [] ≡ Some [] }
    ensures first_out { parts_of (found_at (both_of (pos 1) (pos 1))) (great ∷ two_inputs) ≡ None }
    ensures last_out { parts_of (found_at (both_of (pos 1) (pos 1))) (stated 2 1 Inf ∷ great ∷ []) ≡ None }
{}

/// The degrees of an input alone are those that are stated, those of a pair infinite, and those of 5 records 4. One
/// reading, which has none, is not taken, nor is an uncertainty that is uncertain by 71 percent.
pub fn worked_group_degrees()
    ensures single { degrees_of_group (stated 1 2 (Rel 25)) ≡ Rel 25 }
    ensures pair { degrees_of_group (against 1) ≡ Inf }
    ensures table { degrees_of_group columns ≡ Whole 4 }
    ensures taken { HaveDegrees (columns ∷ against 1 ∷ two_inputs) }
    ensures one { ¬ HaveDegrees (one_reading ∷ []) }
    ensures percent { ¬ HaveDegrees (against 1 ∷ stated 1 1 (Rel 71) ∷ []) }
{}

/// The exact share of an input with the variance 4 and 5 degrees, for the sensitivity 3.
pub fn worked_shares()
    ensures { share_by {K = ℕ} (λ n. of_ℤ (pos 3)) (Own 1 (of_ℤ (pos 4)) (inverse_degrees (Whole 5))) ≡ share 36 (Whole 5) }
{}
