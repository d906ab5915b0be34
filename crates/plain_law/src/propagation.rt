ghost use Rattle.std.specs.Prelude.{◌≡◌, IfSome, nat_eq};
ghost use Rattle.exact_fraction.specs.Number.{◌*ℚ◌};
ghost use Rattle.exact_fraction.specs.Sums.{total};
ghost use Rattle.exact_law.specs.Model.{exact_slope};
ghost use Rattle.exact_law.specs.Law.{joint, covariance, inputs_of, law, part_of, law_where_defined, part_where_defined};
ghost use Rattle.plain_law.specs.Numbers.{number};
ghost use Rattle.plain_law.specs.Models.{rows, IsAnswer};
ghost use Rattle.plain_law.specs.Groups.{column, columns, group_of, groups_of, if_input};

use crate::Exact;
use crate::covariances::{covariance, joint};
use crate::evaluate::{derivative, value};
use crate::group::{Column, Group, Table};
use crate::model::{Body, Failure};

/// The covariance of the rows `y` and `z` (JCGM 100:2008, 5.1.2, 5.2.2, H.2), and the variance of one
/// row where they are the same.
pub fn law(model: &[Body], groups: &[Group], y: usize, z: usize) -> Result<Exact, Failure>
    ensures { IsAnswer result (law_where_defined nat_eq (rows model.now) (groups_of groups.now) y z) }
{
    let _first = value(model, y)?;
    let _second = value(model, z)?;
    match double_sum(model, groups, y, z) {
        Some(sum) => Ok(sum),
        None => Err(Failure::TooWide),
    }
}

/// The part of a group in the variance of the row `y`.
pub fn part_of(model: &[Body], group: &Group, y: usize) -> Result<Exact, Failure>
    ensures { IsAnswer result (part_where_defined nat_eq (rows model.now) (group_of group.now) y) }
{
    let _value = value(model, y)?;
    match part(model, group, y) {
        Some(part) => Ok(part),
        None => Err(Failure::TooWide),
    }
}

// The sensitivity of `y` to `i`; `None` also where it is not defined.
fn slope(model: &[Body], y: usize, i: usize) -> Option<Exact>
    ensures { IfSome result (λ r. number r ≡ exact_slope nat_eq (rows model.now) y i) }
{
    match derivative(model, y, i) {
        Ok(slope) => Some(slope),
        Err(_) => None,
    }
}

// Two sensitivities times a covariance.
fn weighted(model: &[Body], y: usize, z: usize, i: usize, j: usize, c: Exact) -> Option<Exact>
    ensures { IfSome result (λ r. number r ≡ exact_slope nat_eq (rows model.now) y i *ℚ exact_slope nat_eq (rows model.now) z j *ℚ number c) }
{
    let product = slope(model, y, i)?.times(slope(model, z, j)?)?;
    product.times(c)
}

// The term of the double sum for `i` and `j`, where `body` is that of `j`: formulas bring none.
fn term(
    model: &[Body],
    groups: &[Group],
    y: usize,
    z: usize,
    i: usize,
    j: usize,
    body: &Body,
) -> Option<Exact>
    ensures { IfSome result (λ r. number r ≡ if_input body.now (exact_slope nat_eq (rows model.now) y i *ℚ exact_slope nat_eq (rows model.now) z j *ℚ covariance nat_eq (groups_of groups.now) i j)) }
{
    match body {
        Body::Input(_) => weighted(model, y, z, i, j, covariance(groups, i, j)?),
        Body::Formula(_) => Some(Exact::whole(0)),
    }
}

// The terms for `i` and every input.
fn sum_for(model: &[Body], groups: &[Group], y: usize, z: usize, i: usize) -> Option<Exact>
    ensures { IfSome result (λ r. number r ≡ total (λ j. exact_slope nat_eq (rows model.now) y i *ℚ exact_slope nat_eq (rows model.now) z j *ℚ covariance nat_eq (groups_of groups.now) i j) (inputs_of (rows model.now))) }
{
    let mut sum = Exact::whole(0);
    for (j, body) in model.iter().enumerate() {
        sum = sum.plus(term(model, groups, y, z, i, j, body)?)?;
    }
    Some(sum)
}

// The same where `i` is an input with this body, and 0 where it is a formula.
fn inner_sum(
    model: &[Body],
    groups: &[Group],
    y: usize,
    z: usize,
    i: usize,
    body: &Body,
) -> Option<Exact>
    ensures { IfSome result (λ r. number r ≡ if_input body.now (total (λ j. exact_slope nat_eq (rows model.now) y i *ℚ exact_slope nat_eq (rows model.now) z j *ℚ covariance nat_eq (groups_of groups.now) i j) (inputs_of (rows model.now)))) }
{
    match body {
        Body::Input(_) => sum_for(model, groups, y, z, i),
        Body::Formula(_) => Some(Exact::whole(0)),
    }
}

// The sum over all pairs of inputs.
fn double_sum(model: &[Body], groups: &[Group], y: usize, z: usize) -> Option<Exact>
    ensures { IfSome result (λ r. number r ≡ law nat_eq (rows model.now) (groups_of groups.now) y z) }
{
    let mut sum = Exact::whole(0);
    for (i, body) in model.iter().enumerate() {
        sum = sum.plus(inner_sum(model, groups, y, z, i, body)?)?;
    }
    Some(sum)
}

// The part of a group; `None` also where a sensitivity is not defined.
fn part(model: &[Body], group: &Group, y: usize) -> Option<Exact>
    ensures { IfSome result (λ r. number r ≡ part_of nat_eq (rows model.now) (group_of group.now) y) }
{
    match group {
        Group::Own {
            key,
            variance,
            inverse_degrees: _,
        } => weighted(model, y, y, *key, *key, *variance),
        Group::Pair {
            first,
            second,
            first_variance,
            second_variance,
            covariance,
            inverse_degrees: _,
        } => {
            let own = weighted(model, y, y, *first, *first, *first_variance)?;
            let own = own.plus(weighted(model, y, y, *second, *second, *second_variance)?)?;
            let shared = weighted(model, y, y, *first, *second, *covariance)?;
            own.plus(shared.plus(weighted(model, y, y, *second, *first, *covariance)?)?)
        }
        Group::Joint(table) => table_part(model, table, y),
    }
}

// The terms of a table's part for the column `a` and every column.
fn row_part(model: &[Body], table: &Table, a: &Column, y: usize) -> Option<Exact>
    ensures { IfSome result (λ r. number r ≡ total (λ b. exact_slope nat_eq (rows model.now) y a.now.key *ℚ exact_slope nat_eq (rows model.now) y b.key *ℚ joint table.now.records (column a.now).reading b.reading) (columns table.now.columns.items)) }
{
    let mut sum = Exact::whole(0);
    for b in table.columns() {
        let covariance = joint(table.records(), a, b)?;
        sum = sum.plus(weighted(model, y, y, a.key, b.key, covariance)?)?;
    }
    Some(sum)
}

// The part of a table.
fn table_part(model: &[Body], table: &Table, y: usize) -> Option<Exact>
    ensures { IfSome result (λ r. number r ≡ total (λ a. total (λ b. exact_slope nat_eq (rows model.now) y a.key *ℚ exact_slope nat_eq (rows model.now) y b.key *ℚ joint table.now.records a.reading b.reading) (columns table.now.columns.items)) (columns table.now.columns.items)) }
{
    let mut sum = Exact::whole(0);
    for a in table.columns() {
        sum = sum.plus(row_part(model, table, a, y)?)?;
    }
    Some(sum)
}
