ghost use Rattle.std.specs.Prelude.{◌≡◌, ℕ, Bool, List, Option, Ok};
ghost use Rattle.exact_fraction.specs.Number.{ℚ};
ghost use Rattle.fixed_interval.specs.Interval.{Interval, Encloses};
ghost use Rattle.formula_ast.specs.Trees.{Tree, HasExponents};
ghost use Rattle.formula_box.specs.Values.{span_of};
ghost use Rattle.formula_box.specs.Slopes.{partial_of};
ghost use Rattle.formula_box.specs.Exact.{AreEnclosed, HasValueWithin, derivative};

/// Where the spans of the names enclose their values, the span of a formula encloses its value, which is
/// defined: no divisor is 0, and no base of a negative power.
pub fn evaluation_encloses()
    ensures { (given : List ℕ → Option Interval) (v : List ℕ → ℚ) (known : List ℕ → Bool) → AreEnclosed given v known
        → (f : Tree) → HasExponents f → (s : Interval) → span_of given f ≡ Ok s → HasValueWithin v known f s }
{}

/// Where the spans of the names enclose their values, the span of a derivative encloses the derivative.
pub fn differentiation_encloses()
    ensures { (given : List ℕ → Option Interval) (v : List ℕ → ℚ) (known : List ℕ → Bool) → AreEnclosed given v known
        → (n : List ℕ) (f : Tree) → HasExponents f → (d : Interval) → partial_of given n f ≡ Ok d → Encloses d (derivative v n f) }
{}
