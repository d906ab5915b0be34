ghost use Rattle.std.specs.Prelude.{◌≡◌, ◌+◌, IfSome, pos};
ghost use Rattle.exact_fraction.specs.Number.{of_ℤ, ◌≤ℚ◌};
ghost use Rattle.decimal18.specs.Bound.{value_of};
ghost use Rattle.fixed_interval.specs.Interval.{Encloses};
ghost use Rattle.exact_law.specs.Degrees.{Degrees, factor};
ghost use Rattle.table_g2.specs.Known.{Allows, AreDegrees};
ghost use Rattle.table_g2.specs.Factors.{column, factor_span, least_factor};

use crate::known::{Level, Nu};
use crate::table::{finite_factor, infinite_factor};
use decimal18::Dec;
use fixed_interval::{Span, Steps, ends, point};
use std::sync::ledger::Ledger;

// The factor at the upper end of the degrees, and that of infinite ones where it is missing.
fn least_factor(hi: Option<Dec>, level: Level) -> Dec
    requires { IfSome hi (λ b. of_ℤ (pos 1) ≤ℚ value_of b) }
    ensures { result ≡ least_factor level hi }
{
    match hi {
        Some(hi) => finite_factor(hi, level),
        None => infinite_factor(level),
    }
}

/// The span of the coverage factor of Table G.2 (JCGM 100:2008) at this level for these effective degrees of
/// freedom. It goes from the factor at the upper end of the degrees, or that of infinite ones where the end is
/// missing, to the factor at the lower end, each that of the row with the greatest ν not above. No degrees
/// have the factor of infinite ones. It ticks once.
pub fn factor<L: Ledger>(nu: &Nu, level: Level, steps: &mut Steps<L>) -> Span
    requires degrees { AreDegrees nu.now }
    ensures span { result ≡ factor_span nu.now level }
    ensures encloses { (exact : Degrees) → Allows nu.now exact → Encloses result (factor (column level) exact) }
    ensures ticks { steps.new ≡ steps.old + 1 }
{
    match nu {
        Nu::None | Nu::Infinite => point(infinite_factor(level), steps),
        Nu::Range { lo, hi } => {
            let least = least_factor(*hi, level);
            let greatest = finite_factor(*lo, level);
            ends(least, greatest, steps)
        }
    }
}
