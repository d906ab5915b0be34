ghost use Rattle.std.specs.Prelude.{◌≡◌, ◌<◌, ◌≤◌, ◌+◌, ◌*◌, ◌||◌, ℕ, [], ◌∷◌, length, map, IfOk};
ghost use Rattle.std.specs.Option.{ok_or};
ghost use Rattle.exact_fraction.specs.Number.{ℚ};
ghost use Rattle.exact_fraction.specs.Sums.{total};
ghost use Rattle.exact_law.specs.Law.{part};
ghost use Rattle.fixed_interval.specs.Interval.{Encloses};
ghost use Rattle.fixed_interval.specs.Sums.{Continues};
ghost use Rattle.covariance.specs.Gradients.{AllEnclose, found_at};
ghost use Rattle.covariance.specs.Groups.{AreRegular, IsRegular, members, exact_group, group_of};
ghost use Rattle.covariance.specs.Variances.{group_covariance_span, combined_covariance_span, meets};
ghost use Rattle.covariance.specs.Costs.{pairs, pairs_of};
ghost use Rattle.covariance.specs.Partial.{placed_at, joint_at, cross_row_at, cross_part_of};

use crate::gradient::Gradient;
use crate::group::Group;
use crate::variances::{joint_term, meets};
use fixed_interval::{Overflow, Span, Steps, with_term, zero};
use std::sync::ledger::Ledger;

// The sum with the term of two members more.
fn with_joint<L: Ledger>(
    sum: Option<Span>,
    group: &Group,
    y: &Gradient,
    i: usize,
    z: &Gradient,
    j: usize,
    steps: &mut Steps<L>,
) -> Result<Option<Span>, Overflow>
    requires regular { IsRegular (group_of group.now) }
    requires first { i < length (members (group_of group.now)) }
    requires second { j < length (members (group_of group.now)) }
    ensures sum { Continues sum (joint_at y.now z.now (group_of group.now) (placed_at (group_of group.now) i) (placed_at (group_of group.now) j) ∷ []) result }
    ensures ticks { steps.new ≤ steps.old + 12 }
{
    let term = joint_term(group, y, i, z, j, steps)?;
    with_term(sum, &term, steps)
}

// The sum with the terms of a member with all members more.
fn with_member<L: Ledger>(
    sum: Option<Span>,
    group: &Group,
    y: &Gradient,
    i: usize,
    z: &Gradient,
    steps: &mut Steps<L>,
) -> Result<Option<Span>, Overflow>
    requires regular { IsRegular (group_of group.now) }
    requires there { i < length (members (group_of group.now)) }
    ensures sum { Continues sum (cross_row_at y.now z.now (group_of group.now) i) result }
    ensures ticks { steps.new ≤ steps.old + 12 * length (members (group_of group.now)) }
{
    let mut sum = sum;
    for j in 0..group.count() {
        sum = with_joint(sum, group, y, i, z, j, steps)?;
    }
    Ok(sum)
}

// The span of a group's part in the covariance of two quantities.
fn group_covariance<L: Ledger>(
    group: &Group,
    y: &Gradient,
    z: &Gradient,
    steps: &mut Steps<L>,
) -> Result<Span, Overflow>
    requires regular { IsRegular (group_of group.now) }
    ensures span { result ≡ ok_or (group_covariance_span (found_at y.now) (found_at z.now) (group_of group.now)) (record {}) }
    ensures ticks { steps.new ≤ steps.old + 12 * pairs (group_of group.now) }
{
    let mut sum = None;
    for i in 0..group.count() {
        sum = with_member(sum, group, y, i, z, steps)?;
    }
    Ok(sum.unwrap_or(zero()))
}

// The sum with a group's part more, where the group counts.
fn with_group<L: Ledger>(
    sum: Option<Span>,
    group: &Group,
    y: &Gradient,
    z: &Gradient,
    steps: &mut Steps<L>,
) -> Result<Option<Span>, Overflow>
    requires regular { IsRegular (group_of group.now) }
    ensures sum { Continues sum (cross_part_of y.now z.now (group_of group.now)) result }
    ensures ticks { steps.new ≤ steps.old + 16 * pairs_of (λ g. meets (found_at y.now) g || meets (found_at z.now) g) (group_of group.now ∷ []) }
{
    if !meets(group, y) && !meets(group, z) {
        return Ok(sum);
    }
    let term = group_covariance(group, y, z, steps)?;
    with_term(sum, &term, steps)
}

/// The span of the covariance of two quantities with these gradients (JCGM 100:2008, 5.2.2, H.2.3), in the
/// product of their units: the sum over the groups that have a member in one of the gradients. Each of these, of m
/// members, ticks at most 16 m² times.
///
/// # Errors
///
/// [`Overflow`] exactly where an operation on the way leaves the range of bounds.
pub fn covariance<L: Ledger>(
    groups: &[Group],
    y: &Gradient,
    z: &Gradient,
    steps: &mut Steps<L>,
) -> Result<Span, Overflow>
    requires regular { AreRegular (map group_of groups.now) }
    ensures span { result ≡ ok_or (combined_covariance_span (found_at y.now) (found_at z.now) (map group_of groups.now)) (record {}) }
    ensures encloses { (u w : ℕ → ℚ) → AllEnclose (found_at y.now) u → AllEnclose (found_at z.now) w
        → IfOk result (λ s. Encloses s (total (λ g. part g u w) (map exact_group (map group_of groups.now)))) }
    ensures ticks { steps.new ≤ steps.old + 16 * pairs_of (λ g. meets (found_at y.now) g || meets (found_at z.now) g) (map group_of groups.now) }
{
    let mut sum = None;
    for group in groups {
        sum = with_group(sum, group, y, z, steps)?;
    }
    Ok(sum.unwrap_or(zero()))
}
