ghost use Rattle.std.specs.Prelude.{◌≡◌, [], ◌∷◌, pos, Ok, Err, Some, None};
ghost use Rattle.decimal18.specs.Bound.{scaled};
ghost use Rattle.fixed_interval.specs.Interval.{point_span};
ghost use Rattle.table_g2.specs.declared.known.Nu.TheVariants.{None as NoNu, Infinite, Range};
ghost use Rattle.type_b.specs.declared.shape.Dof.TheVariants.{Inf, Whole, Rel};
ghost use Rattle.eff_dof.specs.Parts.{AreParts, AreSharesOf};
ghost use Rattle.eff_dof.specs.Degrees.{inverse_of_percent, known_degrees, least_degrees, term};
ghost use Rattle.eff_dof.specs.Worked.{below, part, share, whole, wide};

/// Degrees of freedom of worked sums: of two parts of 1 with 5 degrees each; of one whose uncertainty is itself
/// uncertain by 25 percent, with 8; of one with infinite degrees; of one of 0, and of none; of one of 1 with 5 degrees
/// and another with infinitely many, which is in the variance all the same; of one of 0, which does not count, with
/// another; of one with 3 degrees, where 1/3 is rounded up and the lower end is below 3 before it is raised; of one
/// with so little in the variance that the degrees are above 10^9; of one whose variance may be 0, without an upper
/// end; and of two whose sum is out of range.
pub fn worked_degrees()
    ensures two { known_degrees (part 1 (Whole 5) ∷ part 1 (Whole 5) ∷ []) ≡ Ok (Range (whole 10) (Some (whole 10))) }
    ensures relative { known_degrees (part 1 (Rel 25) ∷ []) ≡ Ok (Range (whole 8) (Some (whole 8))) }
    ensures infinite { known_degrees (part 1 Inf ∷ []) ≡ Ok Infinite }
    ensures zero { known_degrees (part 0 (Whole 5) ∷ []) ≡ Ok NoNu }
    ensures empty { known_degrees [] ≡ Ok NoNu }
    ensures with_infinite { known_degrees (part 1 (Whole 5) ∷ part 1 Inf ∷ []) ≡ Ok (Range (whole 20) (Some (whole 20))) }
    ensures with_zero { known_degrees (part 0 (Whole 1) ∷ part 1 (Whole 5) ∷ []) ≡ Ok (Range (whole 5) (Some (whole 5))) }
    ensures raised { known_degrees (part 1 (Whole 3) ∷ []) ≡ Ok (Range (whole 3) (Some (scaled (pos 300000000000000001) 17))) }
    ensures great { known_degrees (part 1 (Whole 10) ∷ part 99999 Inf ∷ []) ≡ Ok (Range (whole 1000000000) (Some (whole 1000000000))) }
    ensures without_end { known_degrees (wide ∷ []) ≡ Ok (Range (whole 5) None) }
    ensures out { known_degrees (part 999999999999999999 (Whole 5) ∷ part 1 Inf ∷ []) ≡ Err (record {}) }
{}

/// The least degrees of freedom of worked parts: those of 0, and with infinite degrees, do not count; 5000/70² is
/// rounded down; and where no part counts there are none.
pub fn worked_least()
    ensures counted { least_degrees (part 0 (Whole 2) ∷ part 1 (Whole 9) ∷ part 1 (Rel 25) ∷ part 1 Inf ∷ []) ≡ Some (whole 8) }
    ensures rounded { least_degrees (part 1 (Rel 70) ∷ []) ≡ Some (scaled (pos 102040816326530612) 17) }
    ensures none { least_degrees (part 0 (Whole 2) ∷ part 1 Inf ∷ []) ≡ None }
{}

/// The terms of worked parts, in a variance of 2: the square of a half, over 5, and over 8.
pub fn worked_terms()
    ensures number { term (point_span (whole 2)) (part 1 (Whole 5)) ≡ Some (point_span (scaled (pos 5) 2)) }
    ensures relative { term (point_span (whole 2)) (part 1 (Rel 25)) ≡ Some (point_span (scaled (pos 3125) 5)) }
    ensures percent { inverse_of_percent 70 ≡ scaled (pos 98) 2 }
{}

/// Which parts are taken: with a variance that is not below 0 and degrees in their range. And which exact parts they
/// may be: for one from 0 to 1 with 5 degrees that of 1, and neither that of 2 nor none at all.
pub fn worked_parts()
    ensures part { AreParts (part 1 (Whole 5) ∷ part 0 Inf ∷ []) }
    ensures negative { ¬ AreParts (below ∷ []) }
    ensures percent { ¬ AreParts (part 1 (Rel 71) ∷ []) }
    ensures within { AreSharesOf (wide ∷ []) (share 1 (Whole 5) ∷ []) }
    ensures greater { ¬ AreSharesOf (wide ∷ []) (share 2 (Whole 5) ∷ []) }
    ensures fewer { ¬ AreSharesOf (wide ∷ []) [] }
{}
