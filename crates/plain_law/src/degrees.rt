ghost use Rattle.std.specs.Prelude.{◌≡◌, pos, true, false, map, IfSome, IsSome};
ghost use Rattle.exact_fraction.specs.Number.{of_ℤ, floor_ℚ, is_zero_ℚ};
ghost use Rattle.exact_fraction.specs.Sums.{total};
ghost use Rattle.exact_law.specs.Degrees.{any_counts, counts, effective, factor, inverse_degrees, row_at, row_of, thousandths, weight};
ghost use Rattle.plain_law.specs.Numbers.{number};
ghost use Rattle.plain_law.specs.Groups.{group_of};
ghost use Rattle.plain_law.specs.DegreeViews.{degrees_of, factors_of, level_of, share_of};

use crate::fraction::Exact;
use crate::group::Group;

/// What a group of inputs brings to a variance: its part, and its 1/ν, which is 0 for infinite degrees.
#[derive(Clone, Copy, Debug)]
pub struct Share {
    pub part: Exact,
    pub inverse_degrees: Exact,
}

/// Effective degrees of freedom: a variance of 0 has none.
#[derive(Clone, Copy, Debug)]
pub enum Degrees {
    None,
    Infinite,
    Finite(Exact),
}

/// The fraction of the distribution for which a factor is.
#[derive(Clone, Copy, Debug)]
pub enum Level {
    Percent95,
    Percent9545,
    Percent99,
}

/// 1/ν of a group, and 0 where its degrees are infinite. `None` comes only where 128 bits do not hold it.
#[tactic(auto, unfolding(exact_law::specs::Degrees::inverse_degrees))]
pub fn inverse_degrees(group: &Group) -> Option<Exact>
    ensures { IfSome result (λ r. number r ≡ inverse_degrees (group_of group.now)) }
{
    match group {
        Group::Own {
            key: _,
            variance: _,
            inverse_degrees,
        } => Some(*inverse_degrees),
        Group::Pair {
            first: _,
            second: _,
            first_variance: _,
            second_variance: _,
            covariance: _,
            inverse_degrees: of_both,
        } => Some(*of_both),
        Group::Joint(table) => Exact::count(table.records().saturating_sub(1)).inverse(),
    }
}

// Whether the share is not 0 and its degrees are finite.
#[tactic(auto, unfolding(exact_law::specs::Degrees::counts))]
fn counts(share: &Share) -> bool
    ensures { result ≡ counts (share_of share.now) }
{
    !share.part.is_zero() && !share.inverse_degrees.is_zero()
}

#[tactic(auto, unfolding(exact_law::specs::Degrees::any_counts))]
fn any_counts(shares: &[Share]) -> bool
    ensures { result ≡ any_counts (map share_of shares.now) }
{
    for share in shares {
        if counts(share) {
            return true;
        }
    }
    false
}

// The sum of the shares' squares, each divided by its ν.
fn total_weight(shares: &[Share]) -> Option<Exact>
    ensures { IfSome result (λ r. number r ≡ total weight (map share_of shares.now)) }
{
    let mut sum = Exact::whole(0);
    for share in shares {
        let square = share.part.times(share.part)?;
        sum = sum.plus(square.times(share.inverse_degrees)?)?;
    }
    Some(sum)
}

/// The effective degrees of freedom of a variance with these shares, by the Welch-Satterthwaite formula
/// (JCGM 100:2008, G.4.1). `None` comes only where 128 bits do not hold a number on the way, or where
/// shares of both signs cancel.
#[tactic(auto, unfolding(exact_law::specs::Degrees::effective))]
pub fn effective(variance: Exact, shares: &[Share]) -> Option<Degrees>
    ensures none { is_zero_ℚ (number variance) ≡ true → IsSome result }
    ensures infinite { any_counts (map share_of shares.now) ≡ false → IsSome result }
    ensures degrees { IfSome result (λ r. degrees_of r ≡ effective (number variance) (map share_of shares.now)) }
{
    if variance.is_zero() {
        return Some(Degrees::None);
    }
    if !any_counts(shares) {
        return Some(Degrees::Infinite);
    }
    let square = variance.times(variance)?;
    Some(Degrees::Finite(square.over(total_weight(shares)?)?))
}

/// The whole part of finite degrees.
pub fn whole_degrees(degrees: Exact) -> Exact
    ensures { number result ≡ of_ℤ (floor_ℚ (number degrees)) }
{
    degrees.floor()
}

// A row of Table G.2 of JCGM 100:2008: its ν, and its three factors in thousandths.
#[derive(Clone, Copy, Debug)]
struct Factors {
    degrees: u16,
    percent95: u16,
    percent9545: u16,
    percent99: u16,
}

macro_rules! row {
    ($degrees:expr, $percent95:expr, $percent9545:expr, $percent99:expr) => {
        Factors {
            degrees: $degrees,
            percent95: $percent95,
            percent9545: $percent9545,
            percent99: $percent99,
        }
    };
}

const FIRST_ROW: Factors = row!(1, 12710, 13970, 63660);

const LATER_ROWS: [Factors; 26] = [
    row!(2, 4300, 4530, 9920),
    row!(3, 3180, 3310, 5840),
    row!(4, 2780, 2870, 4600),
    row!(5, 2570, 2650, 4030),
    row!(6, 2450, 2520, 3710),
    row!(7, 2360, 2430, 3500),
    row!(8, 2310, 2370, 3360),
    row!(9, 2260, 2320, 3250),
    row!(10, 2230, 2280, 3170),
    row!(11, 2200, 2250, 3110),
    row!(12, 2180, 2230, 3050),
    row!(13, 2160, 2210, 3010),
    row!(14, 2140, 2200, 2980),
    row!(15, 2130, 2180, 2950),
    row!(16, 2120, 2170, 2920),
    row!(17, 2110, 2160, 2900),
    row!(18, 2100, 2150, 2880),
    row!(19, 2090, 2140, 2860),
    row!(20, 2090, 2130, 2850),
    row!(25, 2060, 2110, 2790),
    row!(30, 2040, 2090, 2750),
    row!(35, 2030, 2070, 2720),
    row!(40, 2020, 2060, 2700),
    row!(45, 2010, 2060, 2690),
    row!(50, 2010, 2050, 2680),
    row!(100, 1984, 2025, 2626),
];

// The row of infinite ν.
const INFINITE_ROW: Factors = row!(0, 1960, 2000, 2576);

// The last row whose ν is not above `degrees`, where the rows have rising ν; `first` is the row before
// them.
#[tactic(auto, unfolding(exact_law::specs::Degrees::row_at))]
fn row_at(degrees: Exact, first: Factors, rows: &[Factors]) -> Option<Factors>
    ensures { IfSome result (λ r. factors_of r ≡ row_at (number degrees) (factors_of first) (map factors_of rows.now)) }
{
    let mut row = first;
    for next in rows {
        if !Exact::whole(i64::from(next.degrees)).at_most(degrees)? {
            return Some(row);
        }
        row = *next;
    }
    Some(row)
}

// The row for the degrees: a finite ν that is no row's takes the next lower one (JCGM 100:2008, G.4.1).
#[tactic(auto, unfolding(exact_law::specs::Degrees::row_of, exact_law::specs::Degrees::row, exact_law::specs::Degrees::first_row, exact_law::specs::Degrees::later_rows, exact_law::specs::Degrees::infinite_row))]
fn row_of(degrees: Degrees) -> Option<Factors>
    ensures without_degrees { degrees ≡ Degrees.None → IsSome result }
    ensures with_infinite_degrees { degrees ≡ Degrees.Infinite → IsSome result }
    ensures row { IfSome result (λ r. factors_of r ≡ row_of (degrees_of degrees)) }
{
    match degrees {
        Degrees::None | Degrees::Infinite => Some(INFINITE_ROW),
        Degrees::Finite(degrees) => row_at(degrees, FIRST_ROW, &LATER_ROWS),
    }
}

#[tactic(auto, unfolding(exact_law::specs::Degrees::thousandths))]
fn thousandths(level: Level, factors: Factors) -> u16
    ensures { result ≡ thousandths (level_of level) (factors_of factors) }
{
    match level {
        Level::Percent95 => factors.percent95,
        Level::Percent9545 => factors.percent9545,
        Level::Percent99 => factors.percent99,
    }
}

/// The coverage factor of Table G.2 for the degrees. `None` comes only where 128 bits do not hold a number
/// on the way.
#[tactic(auto, unfolding(exact_law::specs::Degrees::factor, exact_law::specs::Degrees::factor_in))]
pub fn factor(level: Level, degrees: Degrees) -> Option<Exact>
    ensures without_degrees { degrees ≡ Degrees.None → IsSome result }
    ensures with_infinite_degrees { degrees ≡ Degrees.Infinite → IsSome result }
    ensures factor { IfSome result (λ k. number k ≡ factor (level_of level) (degrees_of degrees)) }
{
    let factors = row_of(degrees)?;
    Exact::ratio(i64::from(thousandths(level, factors)), 1000)
}
