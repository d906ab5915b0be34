ghost use Rattle.std.specs.Prelude.{◌≡◌, ◌≤◌, ◌<◌, ◌*◌, ◌+◌, ◌-◌, ◌^◌, ◌+ℤ◌, ◌-ℤ◌, ◌*ℤ◌, pos, unsigned_abs, length};
ghost use Rattle.exact_fraction.specs.Number.{of_ℤ};
ghost use Rattle.fixed_interval.specs.Rules.{ratio_at};
ghost use Rattle.type_a.specs.Tables.{IsTaken, table_of, width_of};
ghost use Rattle.type_a.specs.Sums.{coefficient_in, sum_of};
ghost use Rattle.type_a.specs.SumsOfTwo.{AreSums, AreSmall};
ghost use Rattle.type_a.specs.Statistics.{exact_mean, exact_joint};

use crate::coefficients::coefficient_at;
use crate::taken::reading_at;
use decimal18::Dec;
use exact_fraction::Ratio;

// All sums stay within 128 bits. A reading is below 10^15 in units of the finest place, and there are at most
// 1,000 records: a sum of readings is at most 10^18, one of products at most 10^33, and n times that, or the
// product of two sums, at most 10^36. The clauses `size` and `small` say so, operation by operation.

// A sum with one term more.
fn plus(sum: i64, term: i64, count: usize) -> i64
    requires sum { unsigned_abs sum ≤ count * 10 ^ 15 }
    requires term { unsigned_abs term ≤ 10 ^ 15 }
    requires few { count < 1000 }
    ensures value { result ≡ sum +ℤ term }
    ensures size { unsigned_abs result ≤ (count + 1) * 10 ^ 15 }
{
    sum + term
}

// The product of two readings.
fn product(a: i64, b: i64) -> i128
    requires first { unsigned_abs a ≤ 10 ^ 15 }
    requires second { unsigned_abs b ≤ 10 ^ 15 }
    ensures value { result ≡ a *ℤ b }
    ensures size { unsigned_abs result ≤ 10 ^ 30 }
{
    (a as i128) * (b as i128)
}

// A sum of products with one term more.
fn plus_product(sum: i128, term: i128, count: usize) -> i128
    requires sum { unsigned_abs sum ≤ count * 10 ^ 30 }
    requires term { unsigned_abs term ≤ 10 ^ 30 }
    requires few { count < 1000 }
    ensures value { result ≡ sum +ℤ term }
    ensures size { unsigned_abs result ≤ (count + 1) * 10 ^ 30 }
{
    sum + term
}

// The product of two sums of readings.
fn product_of_sums(a: i64, b: i64) -> i128
    requires first { unsigned_abs a ≤ 10 ^ 18 }
    requires second { unsigned_abs b ≤ 10 ^ 18 }
    ensures value { result ≡ a *ℤ b }
    ensures size { unsigned_abs result ≤ 10 ^ 36 }
{
    (a as i128) * (b as i128)
}

// A sum of products, as often as there are records.
fn times_count(n: usize, a: i128) -> i128
    requires few { n ≤ 1000 }
    requires size { unsigned_abs a ≤ 10 ^ 33 }
    ensures value { result ≡ pos n *ℤ a }
    ensures size { unsigned_abs result ≤ 10 ^ 36 }
{
    (n as i128) * a
}

fn difference(a: i128, b: i128) -> i128
    requires first { unsigned_abs a ≤ 10 ^ 36 }
    requires second { unsigned_abs b ≤ 10 ^ 36 }
    ensures { result ≡ a -ℤ b }
{
    a - b
}

// The sums of two columns, and that of their products.
#[derive(Clone, Copy)]
struct Sums {
    products: i128,
    first: i64,
    second: i64,
}

// n Σqr - Σq Σr.
fn spread(n: usize, sums: Sums) -> i128
    requires few { n ≤ 1000 }
    requires small { AreSmall n sums }
    ensures { result ≡ (pos n *ℤ sums.products) -ℤ (sums.first *ℤ sums.second) }
{
    difference(
        times_count(n, sums.products),
        product_of_sums(sums.first, sums.second),
    )
}

// What the column reads in a record, in units of the finest place.
fn coefficient_in(records: &[Vec<Dec>], places: u8, column: usize, row: usize) -> i64
    requires taken { IsTaken (table_of records.now) places }
    requires column { column < width_of (table_of records.now) }
    requires row { row < length records.now }
    ensures value { result ≡ coefficient_in (table_of records.now) column row }
    ensures size { unsigned_abs result ≤ 10 ^ 15 }
{
    coefficient_at(reading_at(records, row, column), places)
}

// The sum of a column.
fn sum(records: &[Vec<Dec>], places: u8, column: usize) -> i64
    requires taken { IsTaken (table_of records.now) places }
    requires column { column < width_of (table_of records.now) }
    ensures { of_ℤ result ≡ sum_of (table_of records.now) column (length records.now) }
{
    let mut sum = 0i64;
    for i in 0..records.len() {
        sum = plus(sum, coefficient_in(records, places, column, i), i);
    }
    sum
}

// The sums with one record more.
fn with_record(sums: Sums, q: i64, r: i64, count: usize) -> Sums
    requires few { count < 1000 }
    requires small { AreSmall count sums }
    requires first { unsigned_abs q ≤ 10 ^ 15 }
    requires second { unsigned_abs r ≤ 10 ^ 15 }
    ensures products { result.products ≡ sums.products +ℤ (q *ℤ r) }
    ensures first { result.first ≡ sums.first +ℤ q }
    ensures second { result.second ≡ sums.second +ℤ r }
    ensures small { AreSmall (count + 1) result }
{
    Sums {
        products: plus_product(sums.products, product(q, r), count),
        first: plus(sums.first, q, count),
        second: plus(sums.second, r, count),
    }
}

// The sums of two columns over all records.
fn sum_both(records: &[Vec<Dec>], places: u8, a: usize, b: usize) -> Sums
    requires taken { IsTaken (table_of records.now) places }
    requires first { a < width_of (table_of records.now) }
    requires second { b < width_of (table_of records.now) }
    ensures sums { AreSums (table_of records.now) a b (length records.now) result }
    ensures small { AreSmall (length records.now) result }
{
    let mut sums = Sums {
        products: 0,
        first: 0,
        second: 0,
    };
    for i in 0..records.len() {
        let q = coefficient_in(records, places, a, i);
        let r = coefficient_in(records, places, b, i);
        sums = with_record(sums, q, r, i);
    }
    sums
}

/// The mean of a column, times 10^places.
pub fn mean(records: &[Vec<Dec>], places: u8, column: usize) -> Ratio
    requires taken { IsTaken (table_of records.now) places }
    requires column { column < width_of (table_of records.now) }
    ensures { ratio_at result places ≡ exact_mean (table_of records.now) column }
{
    let sum = sum(records, places, column);
    let Some(mean) = Ratio::new(sum as i128, records.len() as u64) else {
        unreachable!()
    };
    mean
}

// n² (n - 1)
fn divisor(n: usize) -> u64
    requires some { 2 ≤ n }
    requires few { n ≤ 1000 }
    ensures value { result ≡ n * n * (n - 1) }
    ensures positive { 0 < result }
{
    let n = n as u64;
    n * n * (n - 1)
}

/// The covariance of the means of two columns, times 10^(2 places).
pub fn joint(records: &[Vec<Dec>], places: u8, a: usize, b: usize) -> Ratio
    requires taken { IsTaken (table_of records.now) places }
    requires first { a < width_of (table_of records.now) }
    requires second { b < width_of (table_of records.now) }
    ensures { ratio_at result (2 * places) ≡ exact_joint (table_of records.now) a b }
{
    let n = records.len();
    let sums = sum_both(records, places, a, b);
    let Some(joint) = Ratio::new(spread(n, sums), divisor(n)) else {
        unreachable!()
    };
    joint
}
