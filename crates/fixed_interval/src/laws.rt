ghost use Rattle.std.specs.Prelude.{◌≡◌, List, [], ◌∷◌, ◌++◌, Option, None, Some, Ok, pos, negsuc};
ghost use Rattle.exact_fraction.specs.Number.{ℚ};
ghost use Rattle.exact_fraction.specs.Sums.{total};
ghost use Rattle.decimal18.specs.Bound.{scaled};
ghost use Rattle.fixed_interval.specs.Interval.{Interval, Encloses, point_span};
ghost use Rattle.fixed_interval.specs.Rules.{product_span, share_span};
ghost use Rattle.fixed_interval.specs.Powers.{power, steps_of_power};
ghost use Rattle.fixed_interval.specs.Sums.{AllHold, sum_after, sum_of};

/// How many steps the powers by 1, 2, 9, -1 and -9 take where they answer a span.
pub fn worked_steps()
    ensures first { steps_of_power (pos 1) ≡ 0 }
    ensures square { steps_of_power (pos 2) ≡ 1 }
    ensures ninth { steps_of_power (pos 9) ≡ 4 }
    ensures inverse { steps_of_power (negsuc 0) ≡ 2 }
    ensures inverse_of_ninth { steps_of_power (negsuc 8) ≡ 6 }
{}

/// What the rules give for the product of the points 10^-36 and 0.5, for the powers of [-2, 3] by 2 and
/// by 3, and for the shares of [1, 2] in [3, 4].
pub fn worked_spans()
    ensures product { product_span (point_span (scaled (pos 1) 36)) (point_span (scaled (pos 5) 1))
        ≡ Some (record { lo = scaled (pos 0) 0; hi = scaled (pos 1) 36 }) }
    ensures square { power (record { lo = scaled (negsuc 1) 0; hi = scaled (pos 3) 0 }) (pos 2)
        ≡ Ok (record { lo = scaled (pos 0) 0; hi = scaled (pos 9) 0 }) }
    ensures cube { power (record { lo = scaled (negsuc 1) 0; hi = scaled (pos 3) 0 }) (pos 3)
        ≡ Ok (record { lo = scaled (negsuc 17) 0; hi = scaled (pos 27) 0 }) }
    ensures share { share_span (record { lo = scaled (pos 1) 0; hi = scaled (pos 2) 0 }) (record { lo = scaled (pos 3) 0; hi = scaled (pos 4) 0 })
        ≡ Some (record { lo = scaled (pos 25) 2; hi = scaled (pos 666666666666666667) 18 }) }
{}

/// A sum of spans that may have left the range of bounds, where it is there, encloses the sum of the
/// numbers that its terms enclose. Further terms go on from the sum of those before them.
pub fn sums_enclose()
    ensures encloses { (terms : List (Option Interval)) (qs : List ℚ) → AllHold terms qs
        → (s : Interval) → sum_of terms ≡ Some s → Encloses s (total (λ q. q) qs) }
    ensures goes_on { (first : Option Interval) (terms others : List (Option Interval)) (s : Interval)
        → sum_of (first ∷ terms) ≡ Some s → sum_of ((first ∷ terms) ++ others) ≡ sum_after (Some s) others }
{}

/// Sums of spans: of none, of the points 1, 2 and 3, and from the first term on; and one that leaves the
/// range of bounds on its way, although the sum of the numbers is in it.
pub fn worked_sums()
    ensures none { sum_of [] ≡ Some (point_span (scaled (pos 0) 0)) }
    ensures three { sum_of (Some (point_span (scaled (pos 1) 0)) ∷ Some (point_span (scaled (pos 2) 0)) ∷ Some (point_span (scaled (pos 3) 0)) ∷ [])
        ≡ Some (point_span (scaled (pos 6) 0)) }
    ensures first { sum_after None (Some (point_span (scaled (pos 1) 0)) ∷ []) ≡ Some (point_span (scaled (pos 1) 0)) }
    ensures next { sum_after (Some (point_span (scaled (pos 1) 0))) (Some (point_span (scaled (pos 2) 0)) ∷ [])
        ≡ Some (point_span (scaled (pos 3) 0)) }
    ensures left { sum_of (Some (point_span (scaled (pos 999999999999999999) 0)) ∷ Some (point_span (scaled (pos 1) 0)) ∷ Some (point_span (scaled (negsuc 0) 0)) ∷ [])
        ≡ None }
{}
