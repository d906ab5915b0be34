//! The exact law of propagation of uncertainty, as mathematics: what a model's values, sensitivities,
//! variances and covariances, effective degrees of freedom, rounded numbers and statements of
//! conformity are, in the terms of the GUM (JCGM 100:2008) and of ILAC-G8:09/2019.
//!
//! The definitions in `specs/` are over exact numbers, generic in the key of a quantity, and know
//! nothing of texts, names or of the order in which code works. Each function below has an empty body,
//! and its clauses are a theorem on the definitions. `same` is any test of two keys for equality.
//!
//! The written rule stands here over intervals too, given by two exact ends of its own. It is to stand
//! over the spans of decimal numbers, in a crate above those, and leaves this one then.
#![tactic(auto)]

mod worked;

ghost use Rattle.std.specs.Prelude.{◌≡◌, ◌↔◌, ◌⊎◌, ℕ, ◌≤◌, ℤ, ◌-ℤ◌, pos, Bool, true, false, Some, None, List, ◌∷◌, ◌++◌};
ghost use Rattle.exact_fraction.specs.Number.{ℚ, of_ℤ, ◌+ℚ◌, ◌-ℚ◌, ◌*ℚ◌, neg_ℚ, inv_ℚ, ◌≤ℚ◌, floor_ℚ, ◌<ℚ◌};
ghost use Rattle.exact_fraction.specs.Sums.{total};
ghost use Rattle.exact_law.specs.Model.{Expression, Input, Formula, Row, IsSameTest, body_of, exact_value, exact_slope, has_value, unit, sweep, IsBackward, keys, absent, once, IsOrderOf, IsByRow, IsCyclic};
ghost use Rattle.exact_law.specs.Law.{Column, Group, Own, Pair, Joint, declared_pair, joint, inputs_of, covariance_in, covariance, law, part, part_of, members, IsSound, IsSoundFor, AllGroups, PartTheInputs, OnceAmong};
ghost use Rattle.exact_law.specs.Degrees.{InfiniteDegrees, FiniteDegrees, degrees_of, inverse_degrees, share_of, counts, Level, factor};
ghost use Rattle.exact_law.specs.Rounding.{at_place, IsTwoDigits, IsNearest, Digits, AreDigitsOf, IsHundredths, IsCorrelation};
ghost use Rattle.exact_law.specs.WrittenRule.{Form, Statement, Ends, IsWithin, Span, AllWithin, Agrees, is_guarded, is_inside, is_near, all_of, guarded_over, inside_over, near_over, all_over, Stated, decision, stated_at};
ghost use Rattle.exact_law.specs.Renaming.{KeepsApart, EachOf, EachRowKey, EachMember, Passes, renamed_rows, renamed_group, renamed_groups};

pub use worked::{
    factors_are_those_of_the_table, worked_degrees, worked_operations, worked_pair,
    worked_premises, worked_roundings, worked_rows, worked_statements, worked_table,
    worked_undefined_rows,
};

/// Sharing changes nothing: in an order of rows of the model, the value of a formula row, whether it is
/// defined and its derivative by every input are those of its own formula, at the values and derivatives
/// of the quantities that it uses. So those of the expansion are found row by row.
pub fn rows_give_the_expansion<K>()
    ensures { (same : K → K → Bool) → IsSameTest same → (model rows : List (Row K)) → IsOrderOf same model rows
        → (m : K) (f : Expression K) → once same m (keys rows) ≡ true → body_of same model m ≡ Some (Formula f)
        → IsByRow same model m f }
{}

/// An input has a value. A key that is no quantity of the model has none. Nor has a key whose formula uses
/// itself, directly or through others, or a key that uses such a one.
pub fn keys_without_a_value<K>()
    ensures input { (same : K → K → Bool) (model : List (Row K)) (n : K) (q : ℚ) → body_of same model n ≡ Some (Input q)
        → has_value same model n ≡ true }
    ensures no_quantity { (same : K → K → Bool) (model : List (Row K)) (n : K) → body_of same model n ≡ None
        → has_value same model n ≡ false }
    ensures in_a_cycle { (same : K → K → Bool) (model : List (Row K)) (p : K → Bool) → IsCyclic same model p
        → (n : K) → p n ≡ true → has_value same model n ≡ false }
{}

/// The chain rule through shared rows. In an order of rows of the model that holds `y`, the sweep from
/// users to what they use, each adding its own sensitivity times its partial derivative, gives the
/// derivative of the expansion of `y` by every input, also by one that it does not use. So does any
/// solution `a` of the equations 'the sensitivity to n is 1 if n is y, plus, for each row, the
/// sensitivity to the row times the row's partial derivative by n', in whatever way it is found.
pub fn sweep_gives_the_derivatives<K>()
    ensures of_sweep { (same : K → K → Bool) → IsSameTest same → (model rows : List (Row K)) → IsOrderOf same model rows
        → (y : K) → once same y (keys rows) ≡ true
        → (i : K) (q : ℚ) → body_of same model i ≡ Some (Input q)
        → exact_slope same model y i ≡ sweep same (exact_value same model) rows (λ n. unit same n y) i }
    ensures of_equations { (same : K → K → Bool) → IsSameTest same → (model rows : List (Row K)) → IsOrderOf same model rows
        → (y : K) → once same y (keys rows) ≡ true
        → (a : K → ℚ) → IsBackward same (exact_value same model) a y rows
        → (i : K) (q : ℚ) → body_of same model i ≡ Some (Input q)
        → exact_slope same model y i ≡ a i }
{}

/// The variance of a quantity, and the covariance of two, is the sum of the groups' parts, and neither a
/// part nor a variance is negative, nor that of `k y - m z` for any two numbers `k` and `m`. The covariance
/// of two quantities does not depend on their order, and its square is at most the product of their
/// variances. A group must be sound: no variance and no 1/ν negative, and the square of a pair's covariance
/// at most the product of its variances, as it is for a declared correlation coefficient from -1 to 1; of a
/// table nothing is asked. And each member of a group must stand once among the model's inputs.
pub fn law_is_the_sum_of_its_parts<K>()
    ensures sum { (same : K → K → Bool) → IsSameTest same → (model : List (Row K)) (groups : List (Group K))
        → AllGroups (IsSoundFor same (inputs_of model)) groups
        → (y : K) → law same model groups y y ≡ total (λ g. part_of same model g y) groups }
    ensures of_two { (same : K → K → Bool) → IsSameTest same → (model : List (Row K)) (groups : List (Group K))
        → AllGroups (IsSoundFor same (inputs_of model)) groups
        → (y z : K) → law same model groups y z ≡ total (λ g. part g (exact_slope same model y) (exact_slope same model z)) groups }
    ensures part_not_negative { (same : K → K → Bool) (model : List (Row K)) (g : Group K) → IsSound g
        → (y : K) → of_ℤ (pos 0) ≤ℚ part_of same model g y }
    ensures not_negative { (same : K → K → Bool) → IsSameTest same → (model : List (Row K)) (groups : List (Group K))
        → AllGroups (IsSoundFor same (inputs_of model)) groups
        → (y : K) → of_ℤ (pos 0) ≤ℚ law same model groups y y }
    ensures symmetric { (same : K → K → Bool) → IsSameTest same → (model : List (Row K)) (groups : List (Group K))
        → AllGroups (IsSoundFor same (inputs_of model)) groups
        → (y z : K) → law same model groups y z ≡ law same model groups z y }
    ensures schwarz { (same : K → K → Bool) → IsSameTest same → (model : List (Row K)) (groups : List (Group K))
        → AllGroups (IsSoundFor same (inputs_of model)) groups
        → (y z : K) → law same model groups y z *ℚ law same model groups y z
        ≤ℚ law same model groups y y *ℚ law same model groups z z }
    ensures difference_not_negative { (same : K → K → Bool) → IsSameTest same → (model : List (Row K)) (groups : List (Group K))
        → AllGroups (IsSoundFor same (inputs_of model)) groups
        → (y z : K) (k m : ℚ)
        → of_ℤ (pos 0)
        ≤ℚ (k *ℚ k *ℚ law same model groups y y +ℚ m *ℚ m *ℚ law same model groups z z) -ℚ of_ℤ (pos 2) *ℚ (k *ℚ m *ℚ law same model groups y z) }
    ensures declared_pair { (k m : K) (r a b : ℚ) → neg_ℚ (of_ℤ (pos 1)) ≤ℚ r → r ≤ℚ of_ℤ (pos 1) → IsSound (declared_pair k m r a b) }
{}

/// Where the groups part the inputs, each input standing in one of them and once there, the covariance of
/// two inputs is that which the group of one of them has for them, and 0 for inputs of two groups. Within
/// a group of one input, of two or of a table it is the entry of the two.
pub fn groups_that_part_the_inputs_have_the_covariances<K>()
    ensures of_the_group { (same : K → K → Bool) → IsSameTest same → (inputs : List K) (before after : List (Group K)) (g : Group K)
        → PartTheInputs same inputs (before ++ g ∷ after) → (i j : K) → once same i (members g) ≡ true
        → covariance same (before ++ g ∷ after) i j ≡ covariance_in same g i j }
    ensures between_groups { (same : K → K → Bool) → IsSameTest same → (inputs : List K) (before after : List (Group K)) (g : Group K)
        → PartTheInputs same inputs (before ++ g ∷ after) → (i j : K) → once same i (members g) ≡ true → absent same j (members g) ≡ true
        → covariance same (before ++ g ∷ after) i j ≡ of_ℤ (pos 0) }
    ensures own { (same : K → K → Bool) → IsSameTest same → (k : K) (c d : ℚ) → covariance_in same (Own k c d) k k ≡ c }
    ensures pair { (same : K → K → Bool) → IsSameTest same → (k m : K) (v w c d : ℚ) → same k m ≡ false
        → (covariance_in same (Pair k m v w c d) k k ≡ v) × (covariance_in same (Pair k m v w c d) m m ≡ w)
        × (covariance_in same (Pair k m v w c d) k m ≡ c) × (covariance_in same (Pair k m v w c d) m k ≡ c) }
    ensures table { (same : K → K → Bool) → IsSameTest same → (n : ℕ) (columns : List (Column K)) (a b : Column K)
        → OnceAmong same a columns → OnceAmong same b columns
        → covariance_in same (Joint n columns) a.key b.key ≡ joint n a.reading b.reading }
{}

/// A quantity does not depend on an input that is outside its cone: in an order of rows of the model that
/// holds `y`, the sensitivity to an input that has no row there is 0.
pub fn inputs_outside_the_cone_have_no_share<K>()
    ensures { (same : K → K → Bool) → IsSameTest same → (model rows : List (Row K)) → IsOrderOf same model rows
        → (y : K) → once same y (keys rows) ≡ true
        → (i : K) (q : ℚ) → body_of same model i ≡ Some (Input q) → once same i (keys rows) ≡ false
        → exact_slope same model y i ≡ of_ℤ (pos 0) }
{}

/// Finite effective degrees of freedom are at least any bound `m` that is at most the degrees of each
/// group whose degrees are finite and whose part is not 0, so at least the least of these degrees.
pub fn degrees_are_at_least_the_least<K>()
    ensures { (same : K → K → Bool) → IsSameTest same → (model : List (Row K)) (groups : List (Group K))
        → AllGroups (IsSoundFor same (inputs_of model)) groups
        → (y : K) (m x : ℚ)
        → AllGroups (λ g. counts (share_of same model y g) ≡ true → m ≤ℚ inv_ℚ (inverse_degrees g)) groups
        → degrees_of same model groups y ≡ FiniteDegrees x → m ≤ℚ x }
{}

/// Rounded numbers are monotone: where both ends of an interval have the same whole part, estimate at a
/// place, two digits or hundredths, so has every number between them.
pub fn what_the_ends_round_to_all_between_do()
    ensures whole_part { (x z y : ℚ) (c : ℤ) → x ≤ℚ z → z ≤ℚ y → floor_ℚ x ≡ c → floor_ℚ y ≡ c → floor_ℚ z ≡ c }
    ensures estimate { (x z y : ℚ) (e c : ℤ) → x ≤ℚ z → z ≤ℚ y → at_place x e ≡ c → at_place y e ≡ c → at_place z e ≡ c }
    ensures two_digits { (x z y : ℚ) (m : ℕ) (e : ℤ) → x ≤ℚ z → z ≤ℚ y
        → IsTwoDigits x m e → IsTwoDigits y m e → IsTwoDigits z m e }
    ensures hundredths { (x z y : ℚ) (m : ℕ) → x ≤ℚ z → z ≤ℚ y → IsHundredths x m → IsHundredths y m → IsHundredths z m }
{}

/// A number above 0 has two digits, and in one way, and 0 has none of them; they are those of the two steps
/// 'the place where the root has two digits, and there the nearest whole number, with 100 as 10 at the next
/// place'. A number that is not negative has hundredths, and in one way. A correlation coefficient is one of two variances
/// above 0, and has hundredths in one way.
pub fn digits_are_there_once()
    ensures two_digits { (v : ℚ) → of_ℤ (pos 0) <ℚ v → (m : ℕ) × ((e : ℤ) × IsTwoDigits v m e) }
    ensures one_pair { (v : ℚ) (m n : ℕ) (e f : ℤ) → IsTwoDigits v m e → IsTwoDigits v n f → (m ≡ n) × (e ≡ f) }
    ensures digits { (v : ℚ) → of_ℤ (pos 0) ≤ℚ v → (d : Digits) × AreDigitsOf v d }
    ensures one_digits { (v : ℚ) (d e : Digits) → AreDigitsOf v d → AreDigitsOf v e → d ≡ e }
    ensures two_steps { (v : ℚ) (m : ℕ) (e : ℤ) → IsTwoDigits v m e
        ↔ ((IsNearest v m e × (m ≤ 99)) ⊎ ((m ≡ 10) × IsNearest v 100 (e -ℤ pos 1))) }
    ensures hundredths { (x : ℚ) → of_ℤ (pos 0) ≤ℚ x → (m : ℕ) × IsHundredths x m }
    ensures one_hundredths { (x : ℚ) (m n : ℕ) → IsHundredths x m → IsHundredths x n → m ≡ n }
    ensures of_variances { (c v w : ℚ) (d : ℤ) → IsCorrelation c v w d → (of_ℤ (pos 0) <ℚ v) × (of_ℤ (pos 0) <ℚ w) }
    ensures one_correlation { (c v w : ℚ) (d e : ℤ) → IsCorrelation c v w d → IsCorrelation c v w e → d ≡ e }
{}

/// The factor of Table G.2 falls as the degrees of freedom grow, is the same for all finite ones from 100
/// on, and is least for infinite ones.
pub fn factor_falls_as_degrees_grow()
    ensures falls { (level : Level) (x y : ℚ) → x ≤ℚ y → factor level (FiniteDegrees y) ≤ℚ factor level (FiniteDegrees x) }
    ensures from_100 { (level : Level) (x : ℚ) → of_ℤ (pos 100) ≤ℚ x → factor level (FiniteDegrees x) ≡ factor level (FiniteDegrees (of_ℤ (pos 100))) }
    ensures least { (level : Level) (x : ℚ) → factor level InfiniteDegrees ≤ℚ factor level (FiniteDegrees x) }
{}

/// Each condition of the written rule that is settled over intervals, as one that holds or as one that
/// fails, is so for the exact numbers in them, and a statement over intervals is the exact one.
pub fn what_is_settled_over_intervals_is_exact()
    ensures guarded { (w : ℚ) (ends : Ends) (ds : List ℚ) (spans : List Span) → IsWithin w ends → AllWithin ds spans
        → Agrees (all_over (guarded_over ends) spans) (all_of (is_guarded w) ds) }
    ensures inside { (ds : List ℚ) (spans : List Span) → AllWithin ds spans
        → Agrees (all_over inside_over spans) (all_of is_inside ds) }
    ensures near { (w : ℚ) (ends : Ends) (ds : List ℚ) (spans : List Span) → IsWithin w ends → AllWithin ds spans
        → Agrees (all_over (near_over ends) spans) (all_of (is_near w) ds) }
    ensures statement { (form : Form) (w : ℚ) (ends : Ends) (ds : List ℚ) (spans : List Span) (s : Statement)
        → IsWithin w ends → AllWithin ds spans → decision form ends spans ≡ Stated s → stated_at form w ds ≡ s }
{}

/// A renaming that keeps apart the keys that occur, those that pass `p`, as that of a sheet's names to
/// a graph's numbers, changes no covariance of inputs, no value, sensitivity, variance or covariance of
/// quantities, and no part, share or degrees of freedom.
pub fn renaming_changes_nothing<K, L>()
    ensures covariances { (same : K → K → Bool) (same' : L → L → Bool) (rename : K → L) (p : K → Bool) → KeepsApart same same' rename (Passes p)
        → (groups : List (Group K)) → EachMember (Passes p) groups → (i j : K) → Passes p i → Passes p j
        → covariance same' (renamed_groups rename groups) (rename i) (rename j) ≡ covariance same groups i j }
    ensures values { (same : K → K → Bool) (same' : L → L → Bool) (rename : K → L) (p : K → Bool) → KeepsApart same same' rename (Passes p)
        → (model : List (Row K)) → EachRowKey (Passes p) model → (y : K) → Passes p y
        → exact_value same' (renamed_rows rename model) (rename y) ≡ exact_value same model y }
    ensures defined { (same : K → K → Bool) (same' : L → L → Bool) (rename : K → L) (p : K → Bool) → KeepsApart same same' rename (Passes p)
        → (model : List (Row K)) → EachRowKey (Passes p) model → (y : K) → Passes p y
        → has_value same' (renamed_rows rename model) (rename y) ≡ has_value same model y }
    ensures sensitivities { (same : K → K → Bool) (same' : L → L → Bool) (rename : K → L) (p : K → Bool) → KeepsApart same same' rename (Passes p)
        → (model : List (Row K)) → EachRowKey (Passes p) model → (y i : K) → Passes p y → Passes p i
        → exact_slope same' (renamed_rows rename model) (rename y) (rename i) ≡ exact_slope same model y i }
    ensures laws { (same : K → K → Bool) (same' : L → L → Bool) (rename : K → L) (p : K → Bool) → KeepsApart same same' rename (Passes p)
        → (model : List (Row K)) → EachRowKey (Passes p) model → (groups : List (Group K)) → EachMember (Passes p) groups → (y z : K) → Passes p y → Passes p z
        → law same' (renamed_rows rename model) (renamed_groups rename groups) (rename y) (rename z)
        ≡ law same model groups y z }
    ensures parts { (same : K → K → Bool) (same' : L → L → Bool) (rename : K → L) (p : K → Bool) → KeepsApart same same' rename (Passes p)
        → (model : List (Row K)) → EachRowKey (Passes p) model → (g : Group K) → EachOf (Passes p) (members g) → (y : K) → Passes p y
        → part_of same' (renamed_rows rename model) (renamed_group rename g) (rename y) ≡ part_of same model g y }
    ensures shares { (same : K → K → Bool) (same' : L → L → Bool) (rename : K → L) (p : K → Bool) → KeepsApart same same' rename (Passes p)
        → (model : List (Row K)) → EachRowKey (Passes p) model → (y : K) → Passes p y → (g : Group K) → EachOf (Passes p) (members g)
        → share_of same' (renamed_rows rename model) (rename y) (renamed_group rename g) ≡ share_of same model y g }
    ensures degrees { (same : K → K → Bool) (same' : L → L → Bool) (rename : K → L) (p : K → Bool) → KeepsApart same same' rename (Passes p)
        → (model : List (Row K)) → EachRowKey (Passes p) model → (groups : List (Group K)) → EachMember (Passes p) groups → (y : K) → Passes p y
        → degrees_of same' (renamed_rows rename model) (renamed_groups rename groups) (rename y) ≡ degrees_of same model groups y }
{}
