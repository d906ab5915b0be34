ghost use Rattle.std.specs.Prelude.{◌≡◌};
ghost use Rattle.fixed_interval.specs.Interval.{IsOrdered};
ghost use Rattle.type_b.specs.Shapes.{is_zero};
ghost use Rattle.eff_dof.specs.Degrees.{counts, is_finite};

use decimal18::Dec;
use fixed_interval::Span;
use type_b::Dof;

/// A part of a variance: what independent inputs, or some that are not independent of one another, bring to it.
#[derive(Clone, Copy, Debug, PartialEq, Eq)]
pub struct Part {
    /// How much it is, in the square of the quantity's unit.
    pub variance: Span,
    /// The degrees of freedom with which it is known.
    pub dof: Dof,
}

pub(crate) fn is_zero(number: Dec) -> bool
    ensures { result ≡ is_zero number }
{
    number.coefficient() == 0
}

fn is_finite(dof: Dof) -> bool
    ensures { result ≡ is_finite dof }
{
    match dof {
        Dof::Inf => false,
        Dof::Whole(_) | Dof::Rel(_) => true,
    }
}

// Whether the degrees of a part enter those of the variance.
pub(crate) fn counts(part: &Part) -> bool
    ensures value { result ≡ counts part.now }
    ensures ordered { IsOrdered part.now.variance }
{
    let hi = part.variance.hi();
    is_finite(part.dof) && !is_zero(hi)
}
