ghost use Rattle.std.specs.Prelude.{◌≡◌, ◌<◌, ◌≤◌, ◌+◌, ◌*◌, ℕ, [], ◌∷◌, length, map, IfOk, pos};
ghost use Rattle.std.specs.Option.{ok_or};
ghost use Rattle.exact_fraction.specs.Number.{ℚ, of_ℤ, ◌≤ℚ◌};
ghost use Rattle.exact_fraction.specs.Sums.{total};
ghost use Rattle.exact_law.specs.Law.{part};
ghost use Rattle.decimal18.specs.Bound.{value_of};
ghost use Rattle.fixed_interval.specs.Interval.{Encloses};
ghost use Rattle.fixed_interval.specs.Sums.{Continues};
ghost use Rattle.covariance.specs.Gradients.{AllEnclose, found_at};
ghost use Rattle.covariance.specs.Groups.{AreRegular, IsRegular, members, exact_group, group_of};
ghost use Rattle.covariance.specs.Variances.{group_variance_span, meets, combined_variance_span};
ghost use Rattle.covariance.specs.Costs.{pairs, pairs_of};
ghost use Rattle.covariance.specs.Partial.{placed_at, own_at, joint_at, twice_at, row_at, part_of};

use crate::gradient::Gradient;
use crate::group::Group;
use decimal18::Dec;
use fixed_interval::{Overflow, Span, Steps, floor_at, mul, point, sqr, with_term, zero};
use std::sync::ledger::Ledger;

// The square of the sensitivity to a member times its variance.
fn own_term<L: Ledger>(
    group: &Group,
    y: &Gradient,
    i: usize,
    steps: &mut Steps<L>,
) -> Result<Span, Overflow>
    requires regular { IsRegular (group_of group.now) }
    requires there { i < length (members (group_of group.now)) }
    ensures span { result ≡ ok_or (own_at y.now (group_of group.now) (placed_at (group_of group.now) i)) (record {}) }
    ensures ticks { steps.new ≤ steps.old + 11 }
{
    let square = sqr(&y.at(group.member(i)), steps)?;
    let variance = group.covariance(i, i, steps)?;
    mul(&square, &variance, steps)
}

// The sensitivities of two quantities, each to one of two members, times the covariance of these.
pub(crate) fn joint_term<L: Ledger>(
    group: &Group,
    y: &Gradient,
    i: usize,
    z: &Gradient,
    j: usize,
    steps: &mut Steps<L>,
) -> Result<Span, Overflow>
    requires regular { IsRegular (group_of group.now) }
    requires first { i < length (members (group_of group.now)) }
    requires second { j < length (members (group_of group.now)) }
    ensures span { result ≡ ok_or (joint_at y.now z.now (group_of group.now) (placed_at (group_of group.now) i) (placed_at (group_of group.now) j)) (record {}) }
    ensures ticks { steps.new ≤ steps.old + 11 }
{
    let product = mul(&y.at(group.member(i)), &z.at(group.member(j)), steps)?;
    let covariance = group.covariance(i, j, steps)?;
    mul(&product, &covariance, steps)
}

// Twice the term of two members, which stands twice in the double sum.
fn twice_term<L: Ledger>(
    group: &Group,
    y: &Gradient,
    i: usize,
    j: usize,
    steps: &mut Steps<L>,
) -> Result<Span, Overflow>
    requires regular { IsRegular (group_of group.now) }
    requires first { i < length (members (group_of group.now)) }
    requires second { j < length (members (group_of group.now)) }
    ensures span { result ≡ ok_or (twice_at y.now (group_of group.now) (placed_at (group_of group.now) i) (placed_at (group_of group.now) j)) (record {}) }
    ensures ticks { steps.new ≤ steps.old + 13 }
{
    let two = point(Dec::whole(2), steps);
    let term = joint_term(group, y, i, y, j, steps)?;
    mul(&two, &term, steps)
}

// The sum with a member's own term more.
fn with_own<L: Ledger>(
    sum: Option<Span>,
    group: &Group,
    y: &Gradient,
    i: usize,
    steps: &mut Steps<L>,
) -> Result<Option<Span>, Overflow>
    requires regular { IsRegular (group_of group.now) }
    requires there { i < length (members (group_of group.now)) }
    ensures sum { Continues sum (own_at y.now (group_of group.now) (placed_at (group_of group.now) i) ∷ []) result }
    ensures ticks { steps.new ≤ steps.old + 12 }
{
    let term = own_term(group, y, i, steps)?;
    with_term(sum, &term, steps)
}

// The sum with twice the term of two members more.
fn with_twice<L: Ledger>(
    sum: Option<Span>,
    group: &Group,
    y: &Gradient,
    i: usize,
    j: usize,
    steps: &mut Steps<L>,
) -> Result<Option<Span>, Overflow>
    requires regular { IsRegular (group_of group.now) }
    requires first { i < length (members (group_of group.now)) }
    requires second { j < length (members (group_of group.now)) }
    ensures sum { Continues sum (twice_at y.now (group_of group.now) (placed_at (group_of group.now) i) (placed_at (group_of group.now) j) ∷ []) result }
    ensures ticks { steps.new ≤ steps.old + 14 }
{
    let term = twice_term(group, y, i, j, steps)?;
    with_term(sum, &term, steps)
}

// The sum with the terms of a member more: its own, and those with later members.
fn with_member<L: Ledger>(
    sum: Option<Span>,
    group: &Group,
    y: &Gradient,
    i: usize,
    steps: &mut Steps<L>,
) -> Result<Option<Span>, Overflow>
    requires regular { IsRegular (group_of group.now) }
    requires there { i < length (members (group_of group.now)) }
    ensures sum { Continues sum (row_at y.now (group_of group.now) i) result }
    ensures ticks { steps.new ≤ steps.old + 14 * length (members (group_of group.now)) }
{
    let count = group.count();
    let mut sum = with_own(sum, group, y, i, steps)?;
    for j in (i + 1)..count {
        sum = with_twice(sum, group, y, i, j, steps)?;
    }
    Ok(sum)
}

/// The span of a group's part in the variance of a quantity with this gradient, in the square of its unit: the double
/// sum over the group's members of JCGM 100:2008, 5.2.2 (formula 13), raised to 0 where it is below. For m members it
/// ticks at most 14 m² + 1 times.
///
/// # Errors
///
/// [`Overflow`] exactly where an operation on the way leaves the range of bounds.
pub fn group_variance<L: Ledger>(
    group: &Group,
    y: &Gradient,
    steps: &mut Steps<L>,
) -> Result<Span, Overflow>
    requires regular { IsRegular (group_of group.now) }
    ensures span { result ≡ ok_or (group_variance_span (found_at y.now) (group_of group.now)) (record {}) }
    ensures encloses { (u : ℕ → ℚ) → AllEnclose (found_at y.now) u → IfOk result (λ s. Encloses s (part (exact_group (group_of group.now)) u u)) }
    ensures not_negative { IfOk result (λ s. of_ℤ (pos 0) ≤ℚ value_of s.lo) }
    ensures ticks { steps.new ≤ steps.old + (14 * pairs (group_of group.now) + 1) }
{
    let mut sum = None;
    for i in 0..group.count() {
        sum = with_member(sum, group, y, i, steps)?;
    }
    let sum = sum.unwrap_or(zero());
    let floor = Dec::whole(0);
    Ok(floor_at(&sum, floor, steps))
}

/// Whether a member of the group is in the gradient.
pub fn meets(group: &Group, y: &Gradient) -> bool
    ensures { result ≡ meets (found_at y.now) (group_of group.now) }
{
    for i in 0..group.count() {
        if y.has(group.member(i)) {
            return true;
        }
    }
    false
}

// The sum with a group's part more, where the group counts.
fn with_group<L: Ledger>(
    sum: Option<Span>,
    group: &Group,
    y: &Gradient,
    steps: &mut Steps<L>,
) -> Result<Option<Span>, Overflow>
    requires regular { IsRegular (group_of group.now) }
    ensures sum { Continues sum (part_of y.now (group_of group.now)) result }
    ensures ticks { steps.new ≤ steps.old + 16 * pairs_of (meets (found_at y.now)) (group_of group.now ∷ []) }
{
    if !meets(group, y) {
        return Ok(sum);
    }
    let term = group_variance(group, y, steps)?;
    with_term(sum, &term, steps)
}

/// The span of the variance of a quantity with this gradient, its combined variance (JCGM 100:2008, 5.1.2,
/// 5.2.2), in the square of its unit: the sum over the groups that have a member in the gradient. Each of these, of m
/// members, ticks at most 16 m² times.
///
/// # Errors
///
/// [`Overflow`] exactly where an operation on the way leaves the range of bounds.
pub fn variance<L: Ledger>(
    groups: &[Group],
    y: &Gradient,
    steps: &mut Steps<L>,
) -> Result<Span, Overflow>
    requires regular { AreRegular (map group_of groups.now) }
    ensures span { result ≡ ok_or (combined_variance_span (found_at y.now) (map group_of groups.now)) (record {}) }
    ensures encloses { (u : ℕ → ℚ) → AllEnclose (found_at y.now) u
        → IfOk result (λ s. Encloses s (total (λ g. part g u u) (map exact_group (map group_of groups.now)))) }
    ensures not_negative { IfOk result (λ s. of_ℤ (pos 0) ≤ℚ value_of s.lo) }
    ensures ticks { steps.new ≤ steps.old + 16 * pairs_of (meets (found_at y.now)) (map group_of groups.now) }
{
    let mut sum = None;
    for group in groups {
        sum = with_group(sum, group, y, steps)?;
    }
    Ok(sum.unwrap_or(zero()))
}
