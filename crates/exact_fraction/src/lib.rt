//! Exact numbers: fractions of whole numbers that have no largest.
//!
//! These numbers are what the contracts of the crates above speak of: where one of them says that a
//! rounded bound is not above a sum, that sum is a number of this crate, exact, whatever its digits.
//! No program holds such a number. What a program holds is a [`Ratio`], whose two parts fit in words.
//!
//! `Fraction` is a pair of whole numbers, the second of which is at least 1, and nothing is reduced:
//! 1/2 and 2/4 are two fractions. `ℚ` has one number for both, so that equality of numbers is `≡`.
//! The functions of this file have empty bodies. Each of their clauses is a law of the numbers, and together
//! they fix what a number, a sum, a product, a quotient, the order and the floor are: by them the
//! definitions in `specs/` can be read, or be replaced.
#![tactic(auto)]

mod ratio;
#[cfg(test)]
mod tests;

ghost use Rattle.std.specs.Prelude.{◌≡◌, ◌≢◌, ◌↔◌, ◌⊎◌, ◌+◌, IsTrue, ℕ, suc, ℤ, pos, negsuc, ◌+ℤ◌, ◌*ℤ◌, neg_ℤ, ◌≤ℤ◌, List, [], ◌∷◌};
ghost use Rattle.exact_fraction.specs.Fraction.{Fraction, ◌≈◌, ◌≼◌, ◌⊕◌, ◌⊗◌, negated, inverse};
ghost use Rattle.exact_fraction.specs.Number.{ℚ, number_of, of_ℤ, ◌+ℚ◌, ◌*ℚ◌, ◌/ℚ◌, neg_ℚ, inv_ℚ, is_zero_ℚ, is_at_most_ℚ, ◌≤ℚ◌, floor_ℚ, ◌-ℚ◌, ◌<ℚ◌, min_ℚ, max_ℚ};
ghost use Rattle.exact_fraction.specs.Powers.{power, whole_power};
ghost use Rattle.exact_fraction.specs.Sums.{total, below};

pub use ratio::Ratio;

/// Two fractions are of one number exactly where they are equal by cross multiplication, each number
/// is that of some fraction, and it is the quotient of the fraction's two parts.
pub fn equal_fractions_are_one_number()
    ensures one_number { (q r : Fraction) → (number_of q ≡ number_of r) ↔ (q ≈ r) }
    ensures crossed { (q r : Fraction) → (q ≈ r) ↔ ((q.num *ℤ pos r.den) ≡ (r.num *ℤ pos q.den)) }
    ensures each_number { (x : ℚ) → ∥ ((q : Fraction) × (number_of q ≡ x)) ∥₁ }
    ensures parts { (q : Fraction) → number_of q ≡ of_ℤ q.num /ℚ of_ℤ (pos q.den) }
{}

/// The sum, the product, the negative and the inverse of the numbers of fractions are the numbers of
/// the fractions' sum, product, negative and inverse.
pub fn numbers_are_computed_by_fractions()
    ensures sum { (q r : Fraction) → number_of (q ⊕ r) ≡ number_of q +ℚ number_of r }
    ensures product { (q r : Fraction) → number_of (q ⊗ r) ≡ number_of q *ℚ number_of r }
    ensures negative { (q : Fraction) → number_of (negated q) ≡ neg_ℚ (number_of q) }
    ensures inverse_of { (q : Fraction) → number_of (inverse q) ≡ inv_ℚ (number_of q) }
{}

/// Sums and products go in any order and any grouping, 0 and 1 change nothing, each number has a
/// negative, and a product with a sum is the sum of the products.
pub fn numbers_are_a_commutative_ring()
    ensures sum_in_any_order { (x y : ℚ) → x +ℚ y ≡ y +ℚ x }
    ensures sum_in_any_grouping { (x y z : ℚ) → (x +ℚ y) +ℚ z ≡ x +ℚ (y +ℚ z) }
    ensures sum_with_zero { (x : ℚ) → x +ℚ of_ℤ (pos 0) ≡ x }
    ensures sum_with_negative { (x : ℚ) → x +ℚ neg_ℚ x ≡ of_ℤ (pos 0) }

    ensures product_in_any_order { (x y : ℚ) → x *ℚ y ≡ y *ℚ x }
    ensures product_in_any_grouping { (x y z : ℚ) → (x *ℚ y) *ℚ z ≡ x *ℚ (y *ℚ z) }
    ensures product_with_one { (x : ℚ) → x *ℚ of_ℤ (pos 1) ≡ x }
    ensures product_with_sum { (x y z : ℚ) → x *ℚ (y +ℚ z) ≡ (x *ℚ y) +ℚ (x *ℚ z) }
{}

/// A number that is not 0 has an inverse, and the quotient by it is the one number that the divisor
/// takes back. What an inverse of 0 or a quotient by 0 is, no clause says.
pub fn numbers_have_quotients()
    ensures test_for_zero { (x : ℚ) → IsTrue (is_zero_ℚ x) ↔ (x ≡ of_ℤ (pos 0)) }
    ensures inverse { (x : ℚ) → x ≢ of_ℤ (pos 0) → x *ℚ inv_ℚ x ≡ of_ℤ (pos 1) }
    ensures quotient { (q x y : ℚ) → y ≢ of_ℤ (pos 0) → (q ≡ x /ℚ y) ↔ (q *ℚ y ≡ x) }
{}

/// One number is at most another exactly where their fractions compare so by cross multiplication,
/// and the test answers the same.
pub fn order_is_that_of_the_fractions()
    ensures of_fractions { (q r : Fraction) → (number_of q ≤ℚ number_of r) ↔ (q ≼ r) }
    ensures crossed { (q r : Fraction) → (q ≼ r) ↔ ((q.num *ℤ pos r.den) ≤ℤ (r.num *ℤ pos q.den)) }
    ensures test { (x y : ℚ) → IsTrue (is_at_most_ℚ x y) ↔ (x ≤ℚ y) }
{}

/// Any two numbers are comparable, and two that are each at most the other are one.
pub fn order_is_total()
    ensures reflexive { (x : ℚ) → x ≤ℚ x }
    ensures transitive { (x y z : ℚ) → x ≤ℚ y → y ≤ℚ z → x ≤ℚ z }
    ensures antisymmetric { (x y : ℚ) → x ≤ℚ y → y ≤ℚ x → x ≡ y }
    ensures total { (x y : ℚ) → (x ≤ℚ y) ⊎ (y ≤ℚ x) }
{}

/// Sums keep the order, products keep it by a factor that is not negative and turn it by one that is
/// not positive, and a positive divisor goes to the other side as a factor.
pub fn sums_and_products_respect_the_order()
    ensures sum { (x y z w : ℚ) → x ≤ℚ y → z ≤ℚ w → x +ℚ z ≤ℚ y +ℚ w }
    ensures negative { (x y : ℚ) → x ≤ℚ y → neg_ℚ y ≤ℚ neg_ℚ x }
    ensures difference { (x y : ℚ) → (x ≤ℚ y) ↔ (of_ℤ (pos 0) ≤ℚ y +ℚ neg_ℚ x) }

    ensures product { (x y z : ℚ) → of_ℤ (pos 0) ≤ℚ z → x ≤ℚ y → x *ℚ z ≤ℚ y *ℚ z }
    ensures product_turned { (x y z : ℚ) → z ≤ℚ of_ℤ (pos 0) → x ≤ℚ y → y *ℚ z ≤ℚ x *ℚ z }
    ensures square { (x : ℚ) → of_ℤ (pos 0) ≤ℚ x *ℚ x }

    // a positive number is one that is not negative and not 0
    ensures inverse { (x : ℚ) → of_ℤ (pos 0) ≤ℚ x → x ≢ of_ℤ (pos 0) → of_ℤ (pos 0) ≤ℚ inv_ℚ x }
    ensures quotient { (x y z : ℚ) → of_ℤ (pos 0) ≤ℚ z → z ≢ of_ℤ (pos 0) → (x ≤ℚ y /ℚ z) ↔ (x *ℚ z ≤ℚ y) }
{}

/// A difference is what makes up the sum, one number is below another where the other is not at most
/// it, the lesser of two is the greatest number that is at most both, and the greater is the least that
/// both are at most.
pub fn differences_and_extremes()
    ensures difference { (d x y : ℚ) → (d ≡ x -ℚ y) ↔ (d +ℚ y ≡ x) }
    ensures below { (x y : ℚ) → (x <ℚ y) ↔ ¬ (y ≤ℚ x) }
    ensures lesser { (x y z : ℚ) → (z ≤ℚ min_ℚ x y) ↔ ((z ≤ℚ x) × (z ≤ℚ y)) }
    ensures greater { (x y z : ℚ) → (max_ℚ x y ≤ℚ z) ↔ ((x ≤ℚ z) × (y ≤ℚ z)) }
{}

/// The first power of a number is itself and the power by 0 is 1, a power by a sum is the product of the
/// powers, and one by a negative number is the inverse.
pub fn powers_add_their_exponents()
    ensures zeroth { (x : ℚ) → power x 0 ≡ of_ℤ (pos 1) }
    ensures first { (x : ℚ) → power x 1 ≡ x }
    ensures sum { (x : ℚ) (j k : ℕ) → power x (j + k) ≡ power x j *ℚ power x k }
    ensures whole { (x : ℚ) (n : ℕ) → whole_power x (pos n) ≡ power x n }
    ensures negative { (x : ℚ) (n : ℕ) → whole_power x (negsuc n) ≡ inv_ℚ (power x (suc n)) }
{}

/// A sum over a list, and one over the whole numbers below a bound, grow by one term after another.
pub fn sums_grow_by_terms<A>()
    ensures nothing { (f : A → ℚ) → total f [] ≡ of_ℤ (pos 0) }
    ensures one_more { (f : A → ℚ) (x : A) (xs : List A) → total f (x ∷ xs) ≡ f x +ℚ total f xs }
    ensures below_zero { (f : ℕ → ℚ) → total f (below 0) ≡ of_ℤ (pos 0) }
    ensures below_next { (f : ℕ → ℚ) (n : ℕ) → total f (below (suc n)) ≡ f n +ℚ total f (below n) }
{}

/// The whole numbers are among the numbers, with their sums, products, negatives and order.
pub fn whole_numbers_keep_sum_product_order()
    ensures sum { (a b : ℤ) → of_ℤ (a +ℤ b) ≡ of_ℤ a +ℚ of_ℤ b }
    ensures product { (a b : ℤ) → of_ℤ (a *ℤ b) ≡ of_ℤ a *ℚ of_ℤ b }
    ensures negative { (a : ℤ) → of_ℤ (neg_ℤ a) ≡ neg_ℚ (of_ℤ a) }
    ensures order { (a b : ℤ) → (of_ℤ a ≤ℚ of_ℤ b) ↔ (a ≤ℤ b) }
    ensures equality { (a b : ℤ) → (of_ℤ a ≡ of_ℤ b) ↔ (a ≡ b) }
{}

/// The floor of a number is the greatest whole number that is not above it.
pub fn floor_is_the_greatest_whole_number_not_above()
    ensures not_above { (x : ℚ) → of_ℤ (floor_ℚ x) ≤ℚ x }
    ensures greatest { (z : ℤ) (x : ℚ) → of_ℤ z ≤ℚ x → z ≤ℤ floor_ℚ x }
    ensures of_whole { (z : ℤ) → floor_ℚ (of_ℤ z) ≡ z }
{}

/// Some values: -7/2 is rounded down to -4 and 7/2 to 3, 1/3 and 1/6 make 1/2, and 5 divided by -2/3
/// is -15/2. The definitions compute them.
pub fn worked_values()
    ensures floor_of_negative { floor_ℚ (of_ℤ (negsuc 6) /ℚ of_ℤ (pos 2)) ≡ negsuc 3 }
    ensures floor_of_positive { floor_ℚ (of_ℤ (pos 7) /ℚ of_ℤ (pos 2)) ≡ pos 3 }
    ensures sum { (of_ℤ (pos 1) /ℚ of_ℤ (pos 3)) +ℚ (of_ℤ (pos 1) /ℚ of_ℤ (pos 6)) ≡ of_ℤ (pos 1) /ℚ of_ℤ (pos 2) }
    ensures quotient { of_ℤ (pos 5) /ℚ (of_ℤ (negsuc 1) /ℚ of_ℤ (pos 3)) ≡ of_ℤ (negsuc 14) /ℚ of_ℤ (pos 2) }
{}
