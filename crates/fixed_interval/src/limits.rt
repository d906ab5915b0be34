ghost use Rattle.std.specs.Prelude.{◌≡◌, ◌+◌, ◌≤◌, Some, IfOk, pos};
ghost use Rattle.std.specs.Option.{ok_or};
ghost use Rattle.exact_fraction.specs.Number.{ℚ, of_ℤ, ◌/ℚ◌, ◌≤ℚ◌, min_ℚ, max_ℚ};
ghost use Rattle.decimal18.specs.Bound.{value_of};
ghost use Rattle.decimal18.specs.Down.{up};
ghost use Rattle.fixed_interval.specs.Interval.{Encloses};
ghost use Rattle.fixed_interval.specs.Rules.{comparison, cut_span, floored_span, greatest_share, ratio_at, ratio_span, share_span};

use crate::bounds::{greater, is_at_most, lesser};
use crate::counter::Steps;
use crate::faults::{Overflow, Truth};
use crate::interval::Span;
use decimal18::{Dec, div_down, div_up, ratio_down, ratio_up};
use exact_fraction::Ratio;
use std::sync::ledger::Ledger;

/// The span of `q / 10^places`, its ends rounded outwards. It ticks once.
///
/// # Errors
///
/// [`Overflow`] exactly where that number is out of the range of bounds.
pub fn ratio<L: Ledger>(q: Ratio, places: u32, steps: &mut Steps<L>) -> Result<Span, Overflow>
    requires places { places ≤ 72 }
    ensures span { result ≡ ok_or (ratio_span q places) (record {}) }
    ensures encloses { IfOk result (λ s. Encloses s (ratio_at q places)) }
    ensures ticks { steps.new ≡ steps.old + 1 }
{
    steps.tick();
    Span::from_ends(ratio_down(q, places), ratio_up(q, places)).ok_or(Overflow)
}

/// The span whose ends are those of `a`, raised to `floor` where they are below it. It ticks once.
pub fn floor_at<L: Ledger>(a: &Span, floor: Dec, steps: &mut Steps<L>) -> Span
    ensures span { result ≡ floored_span a.now floor }
    ensures encloses { (q : ℚ) → Encloses a.now q → Encloses result (max_ℚ q (value_of floor)) }
    ensures ticks { steps.new ≡ steps.old + 1 }
{
    steps.tick();
    Span::between(greater(a.lo(), floor), greater(a.hi(), floor))
}

/// The span whose ends are those of `a`, brought between `low` and `high`. It ticks once.
pub fn cut<L: Ledger>(a: &Span, low: Dec, high: Dec, steps: &mut Steps<L>) -> Span
    requires ordered { value_of low ≤ℚ value_of high }
    ensures span { result ≡ cut_span a.now low high }
    ensures encloses { (q : ℚ) → Encloses a.now q → Encloses result (min_ℚ (max_ℚ q (value_of low)) (value_of high)) }
    ensures ticks { steps.new ≡ steps.old + 1 }
{
    steps.tick();
    Span::between(
        lesser(greater(a.lo(), low), high),
        lesser(greater(a.hi(), low), high),
    )
}

/// The span of the shares of a part in a whole that is not less than the part: of the quotients `q / r`
/// with `q` in `part`, `r` in `whole`, 0 not above `q`, `q` not above `r`, and `r` above 0. It ticks
/// once.
pub fn share<L: Ledger>(part: &Span, whole: &Span, steps: &mut Steps<L>) -> Span
    requires not_negative { of_ℤ (pos 0) ≤ℚ value_of part.now.lo }
    requires within { value_of part.now.lo ≤ℚ value_of whole.now.hi }
    requires positive { ¬ (value_of whole.now.hi ≤ℚ of_ℤ (pos 0)) }
    ensures span { share_span part.now whole.now ≡ Some result }
    ensures encloses { (q r : ℚ) → Encloses part.now q → Encloses whole.now r → of_ℤ (pos 0) ≤ℚ q → q ≤ℚ r → ¬ (r ≤ℚ of_ℤ (pos 0)) → Encloses result (q /ℚ r) }
    ensures ticks { steps.new ≡ steps.old + 1 }
{
    steps.tick();
    let least = div_down(part.lo(), whole.hi());
    Span::from_ends(least, greatest_share(part, whole)).unwrap()
}

// The greatest share, rounded up: it is 1 where the whole may be the part.
fn greatest_share(part: &Span, whole: &Span) -> Option<Dec>
    requires { of_ℤ (pos 0) ≤ℚ value_of part.now.hi }
    ensures { result ≡ up (greatest_share part.now whole.now) }
{
    if is_at_most(whole.lo(), part.hi()) {
        return Some(Dec::whole(1));
    }
    div_up(part.hi(), whole.lo())
}

/// Whether the numbers in `a` are at most those in `b`. It does not tick.
pub fn at_most(a: &Span, b: &Span) -> Truth
    ensures answer { result ≡ comparison a.now b.now }
    ensures yes { result ≡ Truth.Yes → (q r : ℚ) → Encloses a.now q → Encloses b.now r → q ≤ℚ r }
    ensures no { result ≡ Truth.No → (q r : ℚ) → Encloses a.now q → Encloses b.now r → ¬ (q ≤ℚ r) }
{
    if is_at_most(a.hi(), b.lo()) {
        return Truth::Yes;
    }
    if is_at_most(a.lo(), b.hi()) {
        return Truth::Unsettled;
    }
    Truth::No
}
