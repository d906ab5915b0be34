ghost use Rattle.std.specs.Prelude.{◌≡◌, ℕ, List, Option};
ghost use Rattle.fixed_interval.specs.Interval.{Interval};

use fixed_interval::Span;
use formula_ast::Name;

/// Where the names of a formula get their spans from.
pub trait Env {
    // The span of each name, where it has one.
    ghost given: { Self → List ℕ → Option Interval };

    /// The span of the name, where it has one.
    fn value(&self, name: &Name) -> Option<Span>
        ensures { result ≡ given self.now name.now };
}
