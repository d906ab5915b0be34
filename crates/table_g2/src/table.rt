ghost use Rattle.std.specs.Prelude.{◌≡◌, map, pos};
ghost use Rattle.exact_fraction.specs.Number.{of_ℤ, ◌≤ℚ◌};
ghost use Rattle.decimal18.specs.Bound.{canonical, value_of};
ghost use Rattle.exact_law.specs.Degrees.{Factors as ExactFactors, FiniteDegrees, InfiniteDegrees, row_of, thousandths};
ghost use Rattle.table_g2.specs.Factors.{column, factor_bound, finite_rows, held};

use crate::known::Level;
use crate::whole::whole_part;
use decimal18::Dec;
use step_table::StepTable;

// The coverage factors of a row, in thousandths.
#[derive(Clone, Copy, Debug)]
struct Factors {
    percent95: u16,
    percent9545: u16,
    percent99: u16,
}

// The rows of finite ν: for each its ν, and its factors in the same place.
#[derive(Drop)]
struct Table {
    degrees: StepTable<27>,
    factors: [Factors; 27],
}

// Writes a row's factors.
macro_rules! factors {
    ($percent95:literal $percent9545:literal $percent99:literal) => {
        Factors {
            percent95: $percent95,
            percent9545: $percent9545,
            percent99: $percent99,
        }
    };
}

// Writes a table by its rows: ν, and the factors at 95, 95.45 and 99 percent in thousandths.
macro_rules! table {
    ($($degrees:literal: $percent95:literal $percent9545:literal $percent99:literal),*) => {
        Table {
            degrees: StepTable::new([$($degrees),*]).unwrap(),
            factors: [$(factors!($percent95 $percent9545 $percent99)),*],
        }
    };
}

// The row of infinite ν.
const INFINITE: Factors = factors!(1960 2000 2576);

// Table G.2 of JCGM 100:2008.
#[tactic(auto, unfolding(exact_law::specs::Degrees::row, exact_law::specs::Degrees::first_row, exact_law::specs::Degrees::later_rows))]
fn table_g2() -> Table
    ensures degrees { result.degrees ≡ map (λ f. f.degrees) finite_rows }
    ensures factors { result.factors ≡ map held finite_rows }
{
    table!(
        1: 12710 13970 63660,
        2: 4300 4530 9920,
        3: 3180 3310 5840,
        4: 2780 2870 4600,
        5: 2570 2650 4030,
        6: 2450 2520 3710,
        7: 2360 2430 3500,
        8: 2310 2370 3360,
        9: 2260 2320 3250,
        10: 2230 2280 3170,
        11: 2200 2250 3110,
        12: 2180 2230 3050,
        13: 2160 2210 3010,
        14: 2140 2200 2980,
        15: 2130 2180 2950,
        16: 2120 2170 2920,
        17: 2110 2160 2900,
        18: 2100 2150 2880,
        19: 2090 2140 2860,
        20: 2090 2130 2850,
        25: 2060 2110 2790,
        30: 2040 2090 2750,
        35: 2030 2070 2720,
        40: 2020 2060 2700,
        45: 2010 2060 2690,
        50: 2010 2050 2680,
        100: 1984 2025 2626
    )
}

// The factors for finite degrees: those of the row with the greatest ν that is not above them.
fn row_of(degrees: Dec) -> Factors
    requires { of_ℤ (pos 1) ≤ℚ value_of degrees }
    ensures { result ≡ held (row_of (FiniteDegrees (value_of degrees))) }
{
    let table = table_g2();
    let place = table.degrees.at_or_below(whole_part(degrees)).unwrap();
    table.factors[place]
}

// A factor in thousandths.
#[tactic(auto, unfolding(exact_law::specs::Degrees::thousandths))]
fn thousandths(row: Factors, level: Level) -> u16
    ensures { (f : ExactFactors) → row ≡ held f → result ≡ thousandths (column level) f }
{
    match level {
        Level::L95 => row.percent95,
        Level::L9545 => row.percent9545,
        Level::L99 => row.percent99,
    }
}

// A factor as a number.
fn decimal(thousandths: u16) -> Dec
    ensures { result ≡ canonical (pos thousandths) 3 }
{
    Dec::new(thousandths as i64, 3).unwrap()
}

/// The factor for finite degrees of freedom, which are at least 1.
pub fn finite_factor(degrees: Dec, level: Level) -> Dec
    requires { of_ℤ (pos 1) ≤ℚ value_of degrees }
    ensures { result ≡ factor_bound level (FiniteDegrees (value_of degrees)) }
{
    decimal(thousandths(row_of(degrees), level))
}

/// The factor for infinite degrees of freedom.
#[tactic(auto, unfolding(exact_law::specs::Degrees::row, exact_law::specs::Degrees::infinite_row, exact_law::specs::Degrees::row_of))]
pub fn infinite_factor(level: Level) -> Dec
    ensures { result ≡ factor_bound level InfiniteDegrees }
{
    decimal(thousandths(INFINITE, level))
}
