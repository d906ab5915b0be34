ghost use Rattle.std.specs.Prelude.{◌≡◌, ◌≤◌, refl};
ghost use Rattle.std.proofs.Common.{rules};
ghost use Rattle.std.specs.Cmp.{partial_order_from_agreeing_total};
ghost use Rattle.std.specs.Cmp.Rules.{comparing};
ghost use Rattle.std.specs.Ordering.{as_partial_cmp};
ghost use Rattle.decimal18.specs.Bound.{value_of};
ghost use Rattle.decimal18.specs.Order.{compare_ℚ, order};
ghost use Rattle.decimal18.specs.OrderLaws.{order-total, order-ties};

use crate::Dec;
use crate::powers::power_of_ten;
use std::cmp::Ordering;

impl Ord for Dec {
    ghost cmp = { order };

    ghost total = { order-total };

    ghost matches_partial_cmp = { Prim.search (comparing, rules) };

    ghost matches_eq = { λ x y. order-ties x y };

    fn cmp(&self, other: &Dec) -> Ordering {
        if self.places() == other.places() {
            compare_level(*self, *other)
        } else if self.places() < other.places() {
            compare(*self, *other)
        } else {
            compare(*other, *self).reverse()
        }
    }
}

impl PartialOrd for Dec {
    ghost partial_cmp = { as_partial_cmp order };

    ghost laws = { partial_order_from_agreeing_total order order-total (λ x y. refl) (λ x y. order-ties x y) };

    fn partial_cmp(&self, other: &Dec) -> Option<Ordering> {
        Some(self.cmp(other))
    }
}

// How two numbers of as many places compare: as their coefficients.
#[inline(always)]
fn compare_level(a: Dec, b: Dec) -> Ordering
    requires { a.places ≡ b.places }
    ensures { result ≡ compare_ℚ (value_of a) (value_of b) }
{
    a.coefficient().cmp(&b.coefficient())
}

// How `a`, which has no more places, compares with `b`.
fn compare(a: Dec, b: Dec) -> Ordering
    requires { a.places ≤ b.places }
    ensures { result ≡ compare_ℚ (value_of a) (value_of b) }
{
    // A size with nineteen zeros more is above each other size.
    let zeros = (b.places() - a.places()).min(19);
    let a_size = a.size() as u128 * power_of_ten(zeros as u32);
    let b_size = b.size() as u128;
    if a.coefficient() < 0 {
        if b.coefficient() < 0 {
            b_size.cmp(&a_size)
        } else {
            Ordering::Less
        }
    } else if b.coefficient() < 0 {
        Ordering::Greater
    } else {
        a_size.cmp(&b_size)
    }
}
