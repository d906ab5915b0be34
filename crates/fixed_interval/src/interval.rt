ghost use Rattle.std.specs.Prelude.{◌≡◌, ◌+◌, true, if◌then◌else◌, [], ◌∷◌, Option, Some, is_some, IfOk};
ghost use Rattle.std.specs.Option.{ForSome, ok_or};
ghost use Rattle.exact_fraction.specs.Number.{ℚ, ◌+ℚ◌, neg_ℚ, ◌≤ℚ◌};
ghost use Rattle.decimal18.specs.Bound.{value_of};
ghost use Rattle.fixed_interval.specs.Interval.{Encloses, IsOrdered, from_ends, point_span, sum_span};
ghost use Rattle.fixed_interval.specs.Rules.{zero_bound, difference_span, negative_span};
ghost use Rattle.fixed_interval.specs.Sums.{Continues, sum_after};

use crate::corners::sums;
use crate::counter::Steps;
use crate::faults::Overflow;
use decimal18::{Dec, sub_down, sub_up};
use std::marker::Model;
use std::sync::ledger::Ledger;

/// The exact numbers between two decimal numbers, the lower of which is not above the upper one.
#[derive(Clone, Copy, Debug, PartialEq, Eq)]
pub struct Span {
    lo: Dec,
    hi: Dec,
}

impl Model for Span {
    ghost use Rattle.fixed_interval.specs.Interval.{Interval, IsOrdered};

    ghost Value = { Interval };

    ghost view = { λ s. record { lo = s.lo; hi = s.hi } };

    ghost invariant = { λ s. IsOrdered (record { lo = s.lo; hi = s.hi }) };

    ghost inverse = { λ s. record { lo = s.lo; hi = s.hi } };
}

impl Span {
    /// The lower end.
    pub fn lo(&self) -> Dec
        ensures value { result ≡ self.now.lo }
        ensures ordered { IsOrdered self.now }
    {
        self.lo
    }

    /// The upper end.
    pub fn hi(&self) -> Dec
        ensures value { result ≡ self.now.hi }
        ensures ordered { IsOrdered self.now }
    {
        self.hi
    }

    // The span of two ends in order.
    pub(crate) fn between(lo: Dec, hi: Dec) -> Span
        requires ordered { value_of lo ≤ℚ value_of hi }
        ensures { result ≡ record { lo = lo; hi = hi } }
    {
        Span { lo, hi }
    }

    // The span of one number.
    pub(crate) fn at(number: Dec) -> Span
        ensures { result ≡ point_span number }
    {
        Span {
            lo: number,
            hi: number,
        }
    }

    // Whether the ends are one number.
    pub(crate) fn is_point(&self) -> bool
        ensures { result ≡ true → self.now.lo ≡ self.now.hi }
    {
        self.lo == self.hi
    }

    // The span of two rounded ends, where both are there.
    pub(crate) fn from_ends(lo: Option<Dec>, hi: Option<Dec>) -> Option<Span>
        requires { ForSome (from_ends lo hi) IsOrdered }
        ensures { result ≡ from_ends lo hi }
    {
        match (lo, hi) {
            (Some(lo), Some(hi)) => Some(Span { lo, hi }),
            _ => None,
        }
    }
}

/// The span of the number 0. It does not tick.
pub fn zero() -> Span
    ensures span { result ≡ point_span zero_bound }
    ensures encloses { Encloses result (value_of zero_bound) }
{
    let zero = Dec::whole(0);
    Span { lo: zero, hi: zero }
}

/// The span of one number. It ticks once.
pub fn point<L: Ledger>(d: Dec, steps: &mut Steps<L>) -> Span
    ensures span { result ≡ point_span d }
    ensures encloses { Encloses result (value_of d) }
    ensures ticks { steps.new ≡ steps.old + 1 }
{
    steps.tick();
    Span { lo: d, hi: d }
}

/// The span of the numbers from `lo` to `hi`. It ticks once.
pub fn ends<L: Ledger>(lo: Dec, hi: Dec, steps: &mut Steps<L>) -> Span
    requires ordered { value_of lo ≤ℚ value_of hi }
    ensures span { result ≡ record { lo = lo; hi = hi } }
    ensures encloses { (q : ℚ) → value_of lo ≤ℚ q → q ≤ℚ value_of hi → Encloses result q }
    ensures ticks { steps.new ≡ steps.old + 1 }
{
    steps.tick();
    Span { lo, hi }
}

/// The span of the sums of a number in `a` and a number in `b`, its ends rounded outwards. It ticks
/// once.
///
/// # Errors
///
/// [`Overflow`] exactly where an end is out of the range of bounds.
pub fn add<L: Ledger>(a: &Span, b: &Span, steps: &mut Steps<L>) -> Result<Span, Overflow>
    ensures span { result ≡ ok_or (sum_span a.now b.now) (record {}) }
    ensures encloses { (q r : ℚ) → Encloses a.now q → Encloses b.now r → IfOk result (λ s. Encloses s (q +ℚ r)) }
    ensures ticks { steps.new ≡ steps.old + 1 }
{
    steps.tick();
    sums(a, b).ok_or(Overflow)
}

/// The sum with one term more, which is the sum itself where it is the first one. It ticks once where a
/// sum had begun.
///
/// # Errors
///
/// [`Overflow`] exactly where an end of the sum is out of the range of bounds.
pub fn plus<L: Ledger>(
    sum: Option<Span>,
    term: &Span,
    steps: &mut Steps<L>,
) -> Result<Span, Overflow>
    ensures span { result ≡ ok_or (sum_after sum (Some term.now ∷ [])) (record {}) }
    ensures ticks { steps.new ≡ steps.old + (if is_some sum then 1 else 0) }
{
    match sum {
        Some(sum) => add(&sum, term, steps),
        None => Ok(*term),
    }
}

/// The sum with one term more, as a loop keeps it: nothing before the first term. It ticks once where a
/// sum had begun.
///
/// # Errors
///
/// [`Overflow`] exactly where an end of the sum is out of the range of bounds.
pub fn with_term<L: Ledger>(
    sum: Option<Span>,
    term: &Span,
    steps: &mut Steps<L>,
) -> Result<Option<Span>, Overflow>
    ensures sum { Continues sum (Some term.now ∷ []) result }
    ensures ticks { steps.new ≡ steps.old + (if is_some sum then 1 else 0) }
{
    let next = plus(sum, term, steps)?;
    Ok(Some(next))
}

/// The span of the differences of a number in `a` and a number in `b`, its ends rounded outwards. It
/// ticks once.
///
/// # Errors
///
/// [`Overflow`] exactly where an end is out of the range of bounds.
pub fn sub<L: Ledger>(a: &Span, b: &Span, steps: &mut Steps<L>) -> Result<Span, Overflow>
    ensures span { result ≡ ok_or (difference_span a.now b.now) (record {}) }
    ensures encloses { (q r : ℚ) → Encloses a.now q → Encloses b.now r → IfOk result (λ s. Encloses s (q +ℚ neg_ℚ r)) }
    ensures ticks { steps.new ≡ steps.old + 1 }
{
    steps.tick();
    Span::from_ends(sub_down(a.lo, b.hi), sub_up(a.hi, b.lo)).ok_or(Overflow)
}

/// The span of the negatives of the numbers in `a`, which is exact. It ticks once.
pub fn neg<L: Ledger>(a: &Span, steps: &mut Steps<L>) -> Span
    ensures span { result ≡ negative_span a.now }
    ensures encloses { (q : ℚ) → Encloses a.now q → Encloses result (neg_ℚ q) }
    ensures ticks { steps.new ≡ steps.old + 1 }
{
    steps.tick();
    Span {
        lo: a.hi.negated(),
        hi: a.lo.negated(),
    }
}
