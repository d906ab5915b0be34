ghost use Rattle.std.specs.Prelude.{◌≡◌, ◌+◌, ◌*◌, ◌≤◌, List, length, IfOk};
ghost use Rattle.exact_law.specs.Degrees.{Share};
ghost use Rattle.table_g2.specs.Known.{Allows, AreDegrees};
ghost use Rattle.eff_dof.specs.Parts.{AreParts, AreSharesOf, exact_degrees};
ghost use Rattle.eff_dof.specs.Degrees.{known_degrees};

use crate::least::least_degrees;
use crate::part::{Part, is_zero};
use crate::range::range;
use crate::sum::{inverse, variance};
use fixed_interval::{Overflow, Steps};
use std::sync::ledger::Ledger;
use table_g2::Nu;

/// The effective degrees of freedom (JCGM 100:2008, G.4.1) of the variance that is the sum of these parts, as far as
/// their spans tell them: none where the variance is [0, 0], infinitely many where no part with finite degrees has a
/// variance that is not [0, 0], and a range otherwise. The range is by the sum of the squares of these parts' shares,
/// each over its degrees, is not below the least of these, and ends at 10^9, from where on degrees are not told apart.
/// It ticks at most six times for each part.
///
/// # Errors
///
/// [`Overflow`] exactly where an operation on the way leaves the range of bounds.
pub fn effective<L: Ledger>(parts: &[Part], steps: &mut Steps<L>) -> Result<Nu, Overflow>
    requires parts { AreParts parts.now }
    ensures exact { result ≡ known_degrees parts.now }
    ensures holds { (exact : List Share) → AreSharesOf parts.now exact → IfOk result (λ nu. Allows nu (exact_degrees exact)) }
    ensures degrees { IfOk result AreDegrees }
    ensures ticks { steps.new ≤ steps.old + 6 * length parts.now }
{
    let whole = variance(parts, steps)?;
    if is_zero(whole.hi()) {
        return Ok(Nu::None);
    }
    let Some(least) = least_degrees(parts) else {
        return Ok(Nu::Infinite);
    };
    let inverse = inverse(parts, &whole, steps)?;
    Ok(range(&inverse, least))
}
