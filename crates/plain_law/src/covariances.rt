ghost use Rattle.std.specs.Prelude.{◌≡◌, ℕ, IfSome, nat_eq};
ghost use Rattle.exact_fraction.specs.Number.{◌*ℚ◌};
ghost use Rattle.exact_fraction.specs.Sums.{total, below};
ghost use Rattle.exact_law.specs.Law.{mean, joint, cell, covariance_in, covariance};
ghost use Rattle.plain_law.specs.Numbers.{number};
ghost use Rattle.plain_law.specs.Groups.{reading, column, columns, group_of, groups_of};

use crate::Exact;
use crate::group::{Column, Group, Table};
use crate::jet::unit;

// What the record of this index reads.
fn reading_at(readings: &[Exact], index: usize) -> Exact
    ensures { number result ≡ reading readings.now index }
{
    match readings.get(index) {
        Some(reading) => *reading,
        None => Exact::whole(0),
    }
}

// The sum of the readings.
fn sum_of(records: usize, readings: &[Exact]) -> Option<Exact>
    ensures { IfSome result (λ r. number r ≡ total (reading readings.now) (below records)) }
{
    let mut sum = Exact::whole(0);
    for index in 0..records {
        sum = reading_at(readings, index).plus(sum)?;
    }
    Some(sum)
}

// The sum of the products of the readings in the same record.
fn sum_of_products(records: usize, a: &[Exact], b: &[Exact]) -> Option<Exact>
    ensures { IfSome result (λ r. number r ≡ total (λ t. reading a.now t *ℚ reading b.now t) (below records)) }
{
    let mut sum = Exact::whole(0);
    for index in 0..records {
        let product = reading_at(a, index).times(reading_at(b, index))?;
        sum = product.plus(sum)?;
    }
    Some(sum)
}

/// The mean of a column (JCGM 100:2008, 4.2.1); `None` where there are no records, or 128 bits do not
/// hold a number on the way.
pub fn mean(records: usize, a: &Column) -> Option<Exact>
    ensures { IfSome result (λ r. number r ≡ mean records (column a.now).reading) }
{
    sum_of(records, &a.readings)?.over(Exact::count(records))
}

/// The covariance of the means of two columns (JCGM 100:2008, 4.2.3, 5.2.3).
pub fn joint(records: usize, a: &Column, b: &Column) -> Option<Exact>
    ensures { IfSome result (λ r. number r ≡ joint records (column a.now).reading (column b.now).reading) }
{
    let count = Exact::count(records);
    let products = count.times(sum_of_products(records, &a.readings, &b.readings)?)?;
    let sums = sum_of(records, &a.readings)?.times(sum_of(records, &b.readings)?)?;
    let square = count.times(count)?;
    let divisor = square.times(Exact::count(records.saturating_sub(1)))?;
    products.minus(sums)?.over(divisor)
}

// `c` where `i` is `a` and `j` is `b`, and 0 elsewhere.
fn cell(a: usize, b: usize, c: Exact, i: usize, j: usize) -> Option<Exact>
    ensures { IfSome result (λ r. number r ≡ cell nat_eq a b (number c) i j) }
{
    unit(i, a).times(unit(j, b))?.times(c)
}

// The covariance of `i` and `j` where a column is that of `a`.
fn in_row(table: &Table, a: &Column, i: usize, j: usize) -> Option<Exact>
    ensures { IfSome result (λ r. number r ≡ total (λ b. cell nat_eq a.now.key b.key (joint table.now.records (column a.now).reading b.reading) i j) (columns table.now.columns.items)) }
{
    let mut sum = Exact::whole(0);
    for b in table.columns() {
        let covariance = joint(table.records(), a, b)?;
        sum = sum.plus(cell(a.key, b.key, covariance, i, j)?)?;
    }
    Some(sum)
}

// The covariance of `i` and `j` within a table.
fn in_table(table: &Table, i: usize, j: usize) -> Option<Exact>
    ensures { IfSome result (λ r. number r ≡ total (λ a. total (λ b. cell nat_eq a.key b.key (joint table.now.records a.reading b.reading) i j) (columns table.now.columns.items)) (columns table.now.columns.items)) }
{
    let mut sum = Exact::whole(0);
    for a in table.columns() {
        sum = sum.plus(in_row(table, a, i, j)?)?;
    }
    Some(sum)
}

// The covariance of `i` and `j` within a group.
fn covariance_in(group: &Group, i: usize, j: usize) -> Option<Exact>
    ensures { IfSome result (λ r. number r ≡ covariance_in nat_eq (group_of group.now) i j) }
{
    match group {
        Group::Own {
            key,
            variance,
            inverse_degrees: _,
        } => cell(*key, *key, *variance, i, j),
        Group::Pair {
            first,
            second,
            first_variance,
            second_variance,
            covariance,
            inverse_degrees: _,
        } => {
            let own = cell(*first, *first, *first_variance, i, j)?;
            let own = own.plus(cell(*second, *second, *second_variance, i, j)?)?;
            let shared = cell(*first, *second, *covariance, i, j)?;
            own.plus(shared.plus(cell(*second, *first, *covariance, i, j)?)?)
        }
        Group::Joint(table) => in_table(table, i, j),
    }
}

/// The covariance of two inputs.
pub fn covariance(groups: &[Group], i: usize, j: usize) -> Option<Exact>
    ensures { IfSome result (λ r. number r ≡ covariance nat_eq (groups_of groups.now) i j) }
{
    let mut sum = Exact::whole(0);
    for group in groups {
        sum = sum.plus(covariance_in(group, i, j)?)?;
    }
    Some(sum)
}
