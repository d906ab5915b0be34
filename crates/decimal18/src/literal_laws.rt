ghost use Rattle.std.specs.Prelude.{◌≡◌, ◌≢◌, ◌<◌, ◌≤◌, ◌↔◌, ◌+◌, ◌-◌, ◌*◌, ◌%◌, ◌^◌, ℕ, IsSome, List, length, pos, negsuc, codes, Some, Ok, Err};
ghost use Rattle.exact_fraction.specs.Number.{ℚ};
ghost use Rattle.decimal18.specs.Bound.{Bound, scaled, IsBound, IsCanonical};
ghost use Rattle.decimal18.specs.Text.{text_of};
ghost use Rattle.decimal18.specs.Literal.{Literal, Spells, IsLiteral, literal_of, as_bound, parsed};
ghost use Rattle.decimal18.specs.declared.literal.NumFault.TheVariants.{NotNumber, NumberRange};

/// A text is read as a literal exactly where it is that literal's text, and has at most one value.
pub fn texts_spell_one_literal()
    ensures read { (text : List ℕ) (l : Literal) → (literal_of text ≡ Some l) ↔ Spells text l }
    ensures one { (text : List ℕ) (x y : ℚ) → IsLiteral text x → IsLiteral text y → x ≡ y }
{}

/// The text of a bound is read as that bound, and has at most 39 bytes.
pub fn printed_bounds_are_read_again()
    ensures again { (b : Bound) → IsBound b → IsCanonical b → parsed (text_of b) ≡ Ok b }
    ensures short { (b : Bound) → IsBound b → length (text_of b) ≤ 39 }
{}

/// Where `n` does not end in 0, `n * 10^raised / 10^lowered` is a bound exactly where it has at most
/// 18 digits with the zeros after them, and at most 36 places.
pub fn digits_and_power_decide_bounds()
    ensures { (n raised lowered : ℕ) → n % 10 ≢ 0
        → IsSome (as_bound (scaled (pos (n * 10 ^ raised)) lowered))
        ↔ ((n * 10 ^ (raised - lowered) < 10 ^ 18) × (lowered ≤ raised + 36)) }
{}

/// What some texts are read as.
pub fn worked_literals()
    ensures whole { parsed (codes "-12") ≡ Ok (scaled (negsuc 11) 0) }
    ensures zeros { parsed (codes "+00012.3400") ≡ Ok (scaled (pos 1234) 2) }
    ensures zero { parsed (codes "-0.00e-999") ≡ Ok (scaled (pos 0) 0) }
    ensures raised { parsed (codes "1E+2") ≡ Ok (scaled (pos 100) 0) }
    ensures least { parsed (codes "10e-37") ≡ Ok (scaled (pos 1) 36) }
    ensures below_the_least { parsed (codes "1e-37") ≡ Err NumberRange }
    ensures greatest { parsed (codes "999999999999999999") ≡ Ok (scaled (pos (10 ^ 18 - 1)) 0) }
    ensures above_the_greatest { parsed (codes "1000000000000000000") ≡ Err NumberRange }
    ensures many_zeros { parsed (codes "1000000000000000000000e-21") ≡ Ok (scaled (pos 1) 0) }
    ensures nineteen_digits { parsed (codes "1.000000000000000001") ≡ Err NumberRange }
    ensures largest_exponent { parsed (codes "1e999") ≡ Err NumberRange }
    ensures four_digits { parsed (codes "1e0000") ≡ Err NotNumber }
    ensures no_digit_after { parsed (codes "5.") ≡ Err NotNumber }
    ensures no_digit_before { parsed (codes ".5") ≡ Err NotNumber }
    ensures two_signs { parsed (codes "--1") ≡ Err NotNumber }
    ensures empty { parsed (codes "") ≡ Err NotNumber }
{}
