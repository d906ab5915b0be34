ghost use Rattle.std.specs.Prelude.{◌≡◌, ℕ, ◌+◌, ◌-◌, ◌*◌, ◌^◌, ◌↔◌, Option, None, Some, ℤ, pos, negsuc, codes};
ghost use Rattle.exact_fraction.specs.Number.{ℚ, of_ℤ, ◌*ℚ◌, inv_ℚ};
ghost use Rattle.decimal18.specs.Bound.{Bound, scaled, value_of, canonical, IsCanonical};
ghost use Rattle.decimal18.specs.Down.{down, up, IsDown, IsUp, IsInRange};
ghost use Rattle.exact_fraction.specs.Ratio.{IsOrderOf};
ghost use Rattle.decimal18.specs.Order.{order};
ghost use Rattle.decimal18.specs.Text.{text_of};

/// The canonical form keeps the value, and a value has only one: equal values are equal numbers.
pub fn one_canonical_form()
    ensures value { (c : ℤ) (p : ℕ) → value_of (canonical c p) ≡ value_of (scaled c p) }
    ensures canonical { (c : ℤ) (p : ℕ) → IsCanonical (canonical c p) }
    ensures one { (a b : Bound) → IsCanonical a → IsCanonical b → value_of a ≡ value_of b → a ≡ b }
{}

/// `down` answers a number exactly where that is the canonical greatest bound not above what is in
/// range, and nothing exactly out of range.
pub fn down_is_greatest()
    ensures some { (x : ℚ) (b : Bound) → (down x ≡ Some b) ↔ (IsInRange x × IsDown x b × IsCanonical b) }
    ensures none { (x : ℚ) → (down x ≡ None) ↔ (¬ IsInRange x) }
{}

/// `up` answers a number exactly where that is the canonical least bound not below what is in
/// range, and nothing exactly out of range.
pub fn up_is_least()
    ensures some { (x : ℚ) (b : Bound) → (up x ≡ Some b) ↔ (IsInRange x × IsUp x b × IsCanonical b) }
    ensures none { (x : ℚ) → (up x ≡ None) ↔ (¬ IsInRange x) }
{}

/// The order of decimal numbers is that of their values: one is less than another exactly where its
/// value is below, and equal exactly where the values are.
pub fn order_is_that_of_values()
    ensures { (a b : Bound) → IsCanonical a → IsCanonical b → IsOrderOf (order a b) (value_of a) (value_of b) }
{}

/// What `down` and `up` answer to 1/3, -1/3, 12/11, half of the least number above 0, and half of
/// the least number above all bounds.
pub fn worked_roundings()
    ensures third { let x = inv_ℚ (of_ℤ (pos 3)) in
        (down x ≡ Some (scaled (pos 333333333333333333) 18))
        × (up x ≡ Some (scaled (pos 333333333333333334) 18)) }
    ensures minus_third { let x = inv_ℚ (of_ℤ (negsuc 2)) in
        (down x ≡ Some (scaled (negsuc 333333333333333333) 18))
        × (up x ≡ Some (scaled (negsuc 333333333333333332) 18)) }
    ensures above_one { let x = of_ℤ (pos 12) *ℚ inv_ℚ (of_ℤ (pos 11)) in
        (down x ≡ Some (scaled (pos 10909090909090909) 16))
        × (up x ≡ Some (scaled (pos 109090909090909091) 17)) }
    ensures tiny { let x = inv_ℚ (of_ℤ (pos (2 * 10 ^ 36))) in
        (down x ≡ Some (scaled (pos 0) 0)) × (up x ≡ Some (scaled (pos 1) 36)) }
    ensures past_the_greatest { let x = of_ℤ (pos (2 * 10 ^ 18 - 1)) *ℚ inv_ℚ (of_ℤ (pos 2)) in
        (down x ≡ None) × (up x ≡ None) }
{}

/// The texts of 0, -12, 1.05, -0.5 and 10^-36.
pub fn worked_texts()
    ensures zero { text_of (scaled (pos 0) 0) ≡ codes "0" }
    ensures minus_twelve { text_of (scaled (negsuc 11) 0) ≡ codes "-12" }
    ensures above_one { text_of (scaled (pos 105) 2) ≡ codes "1.05" }
    ensures minus_half { text_of (scaled (negsuc 4) 1) ≡ codes "-0.5" }
    ensures tiny { text_of (scaled (pos 1) 36) ≡ codes "0.000000000000000000000000000000000001" }
{}
