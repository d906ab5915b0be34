ghost use Rattle.std.specs.Prelude.{◌≡◌, ◌≢◌, ◌^◌, ◌≤◌, ◌↔◌, pos, IsSome, IfSome};
ghost use Rattle.exact_fraction.specs.Number.{◌+ℚ◌, ◌*ℚ◌, ◌/ℚ◌, neg_ℚ, of_ℤ};
ghost use Rattle.exact_fraction.specs.Ratio.{value_of_ratio};
ghost use Rattle.decimal18.specs.Bound.{value_of};
ghost use Rattle.decimal18.specs.Down.{down, up, IsDown, IsUp, IsInRange};

use crate::Dec;
use crate::direction::Direction;
use crate::product::product;
use crate::quotient::{quotient, scaled_ratio};
use crate::sum::{difference, sum};
use exact_fraction::Ratio;

/// The greatest bound not above `a + b`, and `None` where the exact result is below -(10^18 - 1) or
/// above 10^18 - 1.
#[tactic(auto, using(crate::proofs::Answered::down_is))]
pub fn add_down(a: Dec, b: Dec) -> Option<Dec>
    ensures exact { result ≡ down (value_of a +ℚ value_of b) }
    ensures greatest { IfSome result (IsDown (value_of a +ℚ value_of b)) }
    ensures defined { IsSome result ↔ IsInRange (value_of a +ℚ value_of b) }
{
    sum(a, b, Direction::Down)
}

/// The least bound not below `a + b`, and `None` where the exact result is below -(10^18 - 1) or
/// above 10^18 - 1.
#[tactic(auto, using(crate::proofs::Answered::up_is))]
pub fn add_up(a: Dec, b: Dec) -> Option<Dec>
    ensures exact { result ≡ up (value_of a +ℚ value_of b) }
    ensures least { IfSome result (IsUp (value_of a +ℚ value_of b)) }
    ensures defined { IsSome result ↔ IsInRange (value_of a +ℚ value_of b) }
{
    sum(a, b, Direction::Up)
}

/// The greatest bound not above `a - b`, and `None` where the exact result is below -(10^18 - 1) or
/// above 10^18 - 1.
#[tactic(auto, using(crate::proofs::Answered::down_is))]
pub fn sub_down(a: Dec, b: Dec) -> Option<Dec>
    ensures exact { result ≡ down (value_of a +ℚ neg_ℚ (value_of b)) }
    ensures greatest { IfSome result (IsDown (value_of a +ℚ neg_ℚ (value_of b))) }
    ensures defined { IsSome result ↔ IsInRange (value_of a +ℚ neg_ℚ (value_of b)) }
{
    difference(a, b, Direction::Down)
}

/// The least bound not below `a - b`, and `None` where the exact result is below -(10^18 - 1) or
/// above 10^18 - 1.
#[tactic(auto, using(crate::proofs::Answered::up_is))]
pub fn sub_up(a: Dec, b: Dec) -> Option<Dec>
    ensures exact { result ≡ up (value_of a +ℚ neg_ℚ (value_of b)) }
    ensures least { IfSome result (IsUp (value_of a +ℚ neg_ℚ (value_of b))) }
    ensures defined { IsSome result ↔ IsInRange (value_of a +ℚ neg_ℚ (value_of b)) }
{
    difference(a, b, Direction::Up)
}

/// The greatest bound not above `a * b`, and `None` where the exact result is below -(10^18 - 1) or
/// above 10^18 - 1.
#[tactic(auto, using(crate::proofs::Answered::down_is))]
pub fn mul_down(a: Dec, b: Dec) -> Option<Dec>
    ensures exact { result ≡ down (value_of a *ℚ value_of b) }
    ensures greatest { IfSome result (IsDown (value_of a *ℚ value_of b)) }
    ensures defined { IsSome result ↔ IsInRange (value_of a *ℚ value_of b) }
{
    product(a, b, Direction::Down)
}

/// The least bound not below `a * b`, and `None` where the exact result is below -(10^18 - 1) or
/// above 10^18 - 1.
#[tactic(auto, using(crate::proofs::Answered::up_is))]
pub fn mul_up(a: Dec, b: Dec) -> Option<Dec>
    ensures exact { result ≡ up (value_of a *ℚ value_of b) }
    ensures least { IfSome result (IsUp (value_of a *ℚ value_of b)) }
    ensures defined { IsSome result ↔ IsInRange (value_of a *ℚ value_of b) }
{
    product(a, b, Direction::Up)
}

/// The greatest bound not above `a / b`, and `None` where the exact result is below -(10^18 - 1) or
/// above 10^18 - 1.
#[tactic(auto, using(crate::proofs::Answered::down_is))]
pub fn div_down(a: Dec, b: Dec) -> Option<Dec>
    requires { b.coefficient ≢ pos 0 }
    ensures exact { result ≡ down (value_of a /ℚ value_of b) }
    ensures greatest { IfSome result (IsDown (value_of a /ℚ value_of b)) }
    ensures defined { IsSome result ↔ IsInRange (value_of a /ℚ value_of b) }
{
    quotient(a, b, Direction::Down)
}

/// The least bound not below `a / b`, and `None` where the exact result is below -(10^18 - 1) or
/// above 10^18 - 1.
#[tactic(auto, using(crate::proofs::Answered::up_is))]
pub fn div_up(a: Dec, b: Dec) -> Option<Dec>
    requires { b.coefficient ≢ pos 0 }
    ensures exact { result ≡ up (value_of a /ℚ value_of b) }
    ensures least { IfSome result (IsUp (value_of a /ℚ value_of b)) }
    ensures defined { IsSome result ↔ IsInRange (value_of a /ℚ value_of b) }
{
    quotient(a, b, Direction::Up)
}

/// The greatest bound not above `q / 10^places`, and `None` where the exact result is below -(10^18 - 1) or
/// above 10^18 - 1.
#[tactic(auto, using(crate::proofs::Answered::down_is))]
pub fn ratio_down(q: Ratio, places: u32) -> Option<Dec>
    requires { places ≤ 72 }
    ensures exact { result ≡ down (value_of_ratio q /ℚ of_ℤ (pos (10 ^ places))) }
    ensures greatest { IfSome result (IsDown (value_of_ratio q /ℚ of_ℤ (pos (10 ^ places)))) }
    ensures defined { IsSome result ↔ IsInRange (value_of_ratio q /ℚ of_ℤ (pos (10 ^ places))) }
{
    scaled_ratio(q, places, Direction::Down)
}

/// The least bound not below `q / 10^places`, and `None` where the exact result is below -(10^18 - 1) or
/// above 10^18 - 1.
#[tactic(auto, using(crate::proofs::Answered::up_is))]
pub fn ratio_up(q: Ratio, places: u32) -> Option<Dec>
    requires { places ≤ 72 }
    ensures exact { result ≡ up (value_of_ratio q /ℚ of_ℤ (pos (10 ^ places))) }
    ensures least { IfSome result (IsUp (value_of_ratio q /ℚ of_ℤ (pos (10 ^ places)))) }
    ensures defined { IsSome result ↔ IsInRange (value_of_ratio q /ℚ of_ℤ (pos (10 ^ places))) }
{
    scaled_ratio(q, places, Direction::Up)
}
