ghost use Rattle.std.specs.Prelude.{◌≡◌, ◌+◌, ◌*◌, ◌≤◌, ℕ, [], ◌∷◌, map, None, Some, Ok, Err, IfOk, OnOk};
ghost use Rattle.std.specs.Option.{ok_or};
ghost use Rattle.exact_fraction.specs.Number.{ℚ};
ghost use Rattle.table_g2.specs.Known.{Allows, AreDegrees};
ghost use Rattle.covariance.specs.Gradients.{AllEnclose, found_at};
ghost use Rattle.covariance.specs.Groups.{AreRegular, IsRegular, exact_group, group_of};
ghost use Rattle.covariance.specs.Variances.{meets};
ghost use Rattle.covariance.specs.Costs.{pairs, pairs_of};
ghost use Rattle.eff_dof.specs.Parts.{exact_degrees};
ghost use Rattle.eff_dof.specs.GroupParts.{degrees_of_group, HasDegrees, HaveDegrees, part_of, put_before, parts_of, known_degrees_of, share_by};

use crate::fault::DegreesFault;
use crate::known::effective;
use crate::part::Part;
use covariance::{Gradient, Group, group_variance, meets};
use fixed_interval::{Overflow, Steps};
use std::alloc::Global;
use std::sync::ledger::Ledger;
use table_g2::Nu;
use type_b::Dof;

/// The degrees of freedom with which the variances and covariances of a group are known: those that are stated of an
/// input alone (JCGM 100:2008, G.4.2), infinitely many of a pair, and one less than the readings or records (G.3.3),
/// also of a table of several columns.
pub fn degrees_of_group(group: &Group) -> Dof
    requires { HasDegrees (group_of group.now) }
    ensures { result ≡ degrees_of_group (group_of group.now) }
{
    match group {
        Group::Single { dof, .. } => *dof,
        Group::Pair { .. } => Dof::Inf,
        Group::Columns { readings, .. } => Dof::Whole((readings.count() - 1) as u32),
    }
}

// The part of a group in the variance of a quantity.
fn part_of<L: Ledger>(group: &Group, y: &Gradient, steps: &mut Steps<L>) -> Result<Part, Overflow>
    requires regular { IsRegular (group_of group.now) }
    requires degrees { HasDegrees (group_of group.now) }
    ensures part { result ≡ ok_or (part_of (found_at y.now) (group_of group.now)) (record {}) }
    ensures ticks { steps.new ≤ steps.old + (14 * pairs (group_of group.now) + 1) }
{
    let variance = group_variance(group, y, steps)?;
    let dof = degrees_of_group(group);
    Ok(Part { variance, dof })
}

// Puts the part of a group at the end, where the group has a member in the gradient.
fn put_part<L: Ledger>(
    parts: &mut Vec<Part>,
    group: &Group,
    y: &Gradient,
    steps: &mut Steps<L>,
) -> Result<(), DegreesFault>
    requires regular { IsRegular (group_of group.now) }
    requires degrees { HasDegrees (group_of group.now) }
    ensures ok { OnOk result (put_before parts.old.items (parts_of (found_at y.now) (group_of group.now ∷ [])) ≡ Some parts.new.items) }
    ensures overflow { result ≡ Err DegreesFault.Overflow → parts_of (found_at y.now) (group_of group.now ∷ []) ≡ None }
    ensures ticks { steps.new ≤ steps.old + 16 * pairs_of (meets (found_at y.now)) (group_of group.now ∷ []) }
{
    if !meets(group, y) {
        return Ok(());
    }
    let Ok(part) = part_of(group, y, steps) else {
        return Err(DegreesFault::Overflow);
    };
    if parts.push(part).is_err() {
        return Err(DegreesFault::OutOfMemory);
    }
    Ok(())
}

// The parts of the groups that have a member in the gradient, in a list that is made once.
fn parts_of<L: Ledger>(
    alloc: Global,
    groups: &[Group],
    y: &Gradient,
    steps: &mut Steps<L>,
) -> Result<Vec<Part>, DegreesFault>
    requires regular { AreRegular (map group_of groups.now) }
    requires degrees { HaveDegrees (map group_of groups.now) }
    ensures ok { IfOk result (λ parts. parts_of (found_at y.now) (map group_of groups.now) ≡ Some parts.items) }
    ensures overflow { result ≡ Err DegreesFault.Overflow → parts_of (found_at y.now) (map group_of groups.now) ≡ None }
    ensures ticks { steps.new ≤ steps.old + 16 * pairs_of (meets (found_at y.now)) (map group_of groups.now) }
{
    let Ok(mut parts) = Vec::with_capacity(alloc, groups.len()) else {
        return Err(DegreesFault::OutOfMemory);
    };
    for group in groups {
        if let Err(fault) = put_part(&mut parts, group, y, steps) {
            return Err(fault);
        }
    }
    Ok(parts)
}

/// What is known of the effective degrees of freedom (JCGM 100:2008, G.4.1) of a quantity with this gradient: those of
/// [`effective`] for the parts of the groups that have a member in the gradient. It takes memory for one list, before
/// the first part is found, and ticks at most 22 m² times for a group of m members that has one in the gradient.
///
/// # Errors
///
/// [`DegreesFault::Overflow`] where an operation on the way leaves the range of bounds, and only there: then there is
/// never an answer. [`DegreesFault::OutOfMemory`] where there is no memory for the list.
pub fn degrees<L: Ledger>(
    alloc: Global,
    groups: &[Group],
    y: &Gradient,
    steps: &mut Steps<L>,
) -> Result<Nu, DegreesFault>
    requires regular { AreRegular (map group_of groups.now) }
    requires degrees { HaveDegrees (map group_of groups.now) }
    ensures exact { IfOk result (λ nu. known_degrees_of (found_at y.now) (map group_of groups.now) ≡ Ok nu) }
    ensures overflow { result ≡ Err DegreesFault.Overflow → known_degrees_of (found_at y.now) (map group_of groups.now) ≡ Err (record {}) }
    ensures holds { (u : ℕ → ℚ) → AllEnclose (found_at y.now) u
        → IfOk result (λ nu. Allows nu (exact_degrees (map (share_by u) (map exact_group (map group_of groups.now))))) }
    ensures degrees { IfOk result AreDegrees }
    ensures ticks { steps.new ≤ steps.old + 22 * pairs_of (meets (found_at y.now)) (map group_of groups.now) }
{
    let parts = match parts_of(alloc, groups, y, steps) {
        Ok(parts) => parts,
        Err(fault) => return Err(fault),
    };
    let Ok(nu) = effective(parts.as_slice(), steps) else {
        return Err(DegreesFault::Overflow);
    };
    Ok(nu)
}
