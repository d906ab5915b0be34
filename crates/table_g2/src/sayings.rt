ghost use Rattle.std.specs.Prelude.{◌≡◌, None, Some, pos};
ghost use Rattle.exact_fraction.specs.Number.{ℚ, of_ℤ};
ghost use Rattle.decimal18.specs.Bound.{scaled, value_of};
ghost use Rattle.exact_law.specs.Degrees.{NoDegrees, InfiniteDegrees, FiniteDegrees};
ghost use Rattle.table_g2.specs.Said.{IsSaid, said};
ghost use Rattle.table_g2.specs.declared.known.Nu.TheVariants.{None as NoNu, Infinite, Range};
ghost use Rattle.table_g2.specs.declared.settled.DofSaid.TheVariants.{None as SaidNone, Infinite as SaidInfinite, Big, Whole, Unsettled};

/// What is said of degrees from 13.88 to 13.9, of others with one whole part at both ends and with two, without an
/// upper end, and from 10^9 on.
pub fn worked_sayings()
    ensures none { said NoNu ≡ SaidNone }
    ensures infinite { said Infinite ≡ SaidInfinite }
    ensures cut_off { said (Range (scaled (pos 1388) 2) (Some (scaled (pos 139) 1))) ≡ Whole 13 }
    ensures whole { said (Range (scaled (pos 13) 0) (Some (scaled (pos 13) 0))) ≡ Whole 13 }
    ensures apart { said (Range (scaled (pos 1399) 2) (Some (scaled (pos 14) 0))) ≡ Unsettled }
    ensures without_end { said (Range (scaled (pos 13) 0) None) ≡ Unsettled }
    ensures most { said (Range (scaled (pos 999999999) 0) (Some (scaled (pos 9999999999) 1))) ≡ Whole 999999999 }
    ensures big { said (Range (scaled (pos 1000000000) 0) (Some (scaled (pos 1000000000) 0))) ≡ Big }
    ensures below_big { said (Range (scaled (pos 9999999999) 1) (Some (scaled (pos 1000000000) 0))) ≡ Unsettled }
    ensures beyond { said (Range (scaled (pos 1000000001) 0) (Some (scaled (pos 1000000001) 0))) ≡ Unsettled }
{}

/// Of which exact degrees that which is said holds.
pub fn worked_meanings()
    ensures none { IsSaid SaidNone NoDegrees }
    ensures none_but_infinite { ¬ IsSaid SaidNone InfiniteDegrees }
    ensures infinite { IsSaid SaidInfinite InfiniteDegrees }
    ensures infinite_but_none { IsSaid SaidInfinite NoDegrees }
    ensures infinite_but_finite { (x : ℚ) → ¬ IsSaid SaidInfinite (FiniteDegrees x) }
    ensures big { IsSaid Big (FiniteDegrees (of_ℤ (pos 1000000000))) }
    ensures not_big { ¬ IsSaid Big (FiniteDegrees (of_ℤ (pos 999999999))) }
    ensures whole { IsSaid (Whole 13) (FiniteDegrees (value_of (scaled (pos 1388) 2))) }
    ensures next_whole { ¬ IsSaid (Whole 13) (FiniteDegrees (of_ℤ (pos 14))) }
    ensures not_finite { ¬ IsSaid (Whole 13) InfiniteDegrees }
    ensures unsettled { IsSaid Unsettled InfiniteDegrees }
{}
