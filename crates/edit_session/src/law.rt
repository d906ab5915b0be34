ghost use Rattle.std.specs.Prelude.{◌≡◌, IfOk, List, ℕ, bytes_eq, pos};
ghost use Rattle.exact_fraction.specs.Number.{of_ℤ, ◌≤ℚ◌};
ghost use Rattle.decimal18.specs.Bound.{value_of};
ghost use Rattle.table_g2.specs.Known.{AreDegrees};
ghost use Rattle.covariance.specs.Groups.{AreRegular};
ghost use Rattle.eff_dof.specs.GroupParts.{HaveDegrees};
ghost use Rattle.sheet_rows.specs.Rows.{Sheet};
ghost use Rattle.sheet_rows.specs.Sheets.{IsStanding};
ghost use Rattle.adjoint_pass.specs.Sensitivities.{gradient_of};
ghost use Rattle.sheet_model.specs.Quantities.{quantities};
ghost use Rattle.edit_session.specs.Replies.{covariance_in, degrees_in, variance_in};
ghost use Rattle.edit_session.specs.Asking.{AreGroupsIn, Finds, IsGradientIn};

use crate::stop::Stop;
use covariance::{Gradient, GroupList, covariance, variance};
use eff_dof::{DegreesFault, degrees};
use fixed_interval::{Span, Steps};
use std::alloc::Global;
use std::sync::ledger::Ledger;
use table_g2::Nu;

/// The combined variance (JCGM 100:2008, 5.1.2, 5.2.2) of a quantity with this gradient, in the square of its unit.
///
/// # Errors
///
/// [`Stop::Law`] exactly where an operation on the way leaves the range of bounds.
pub(crate) fn variance_of<L: Ledger>(
    groups: &GroupList,
    y: &Gradient,
    steps: &mut Steps<L>,
) -> Result<Span, Stop>
    requires { AreRegular groups.now }
    ensures variance { (sheet : Sheet) (n : List ℕ) → IsStanding sheet → AreGroupsIn sheet groups.now → IsGradientIn sheet n y.now
        → Finds result (variance_in sheet (gradient_of bytes_eq (quantities sheet) n)) }
    ensures not_negative { IfOk result (λ s. of_ℤ (pos 0) ≤ℚ value_of s.lo) }
{
    let found = variance(groups.as_slice(), y, steps)?;
    Ok(found)
}

/// The covariance (JCGM 100:2008, 5.2.2, H.2.3) of two quantities with these gradients, in the product of their units.
///
/// # Errors
///
/// [`Stop::Law`] exactly where an operation on the way leaves the range of bounds.
pub(crate) fn covariance_of<L: Ledger>(
    groups: &GroupList,
    y: &Gradient,
    z: &Gradient,
    steps: &mut Steps<L>,
) -> Result<Span, Stop>
    requires { AreRegular groups.now }
    ensures { (sheet : Sheet) (n m : List ℕ) → IsStanding sheet → AreGroupsIn sheet groups.now → IsGradientIn sheet n y.now → IsGradientIn sheet m z.now
        → Finds result (covariance_in sheet (gradient_of bytes_eq (quantities sheet) n) (gradient_of bytes_eq (quantities sheet) m)) }
{
    let found = covariance(groups.as_slice(), y, z, steps)?;
    Ok(found)
}

/// What is known of the effective degrees of freedom (JCGM 100:2008, G.4.1) of a quantity with this gradient.
///
/// # Errors
///
/// [`Stop::Law`] exactly where an operation on the way leaves the range of bounds, or out of memory.
pub(crate) fn degrees_of<L: Ledger>(
    alloc: Global,
    groups: &GroupList,
    y: &Gradient,
    steps: &mut Steps<L>,
) -> Result<Nu, Stop>
    requires regular { AreRegular groups.now }
    requires degrees { HaveDegrees groups.now }
    ensures degrees { (sheet : Sheet) (n : List ℕ) → IsStanding sheet → AreGroupsIn sheet groups.now → IsGradientIn sheet n y.now
        → Finds result (degrees_in sheet (gradient_of bytes_eq (quantities sheet) n)) }
    ensures range { IfOk result AreDegrees }
{
    match degrees(alloc, groups.as_slice(), y, steps) {
        Ok(nu) => Ok(nu),
        Err(DegreesFault::Overflow) => Err(Stop::Law),
        Err(DegreesFault::OutOfMemory) => Err(Stop::OutOfMemory),
    }
}
