ghost use Rattle.std.specs.Prelude.{◌≡◌};
ghost use Rattle.exact_fraction.specs.Number.{◌*ℚ◌};
ghost use Rattle.decimal18.specs.Bound.{value_of};
ghost use Rattle.decimal18.specs.Digits.{rounded};

use crate::Dec;
use crate::direction::Direction;
use crate::round::round;
use crate::sign::differ;

/// The bound in this direction of `a * b`.
pub fn product(a: Dec, b: Dec, direction: Direction) -> Option<Dec>
    ensures { result ≡ rounded direction (value_of a *ℚ value_of b) }
{
    let digits = a.size() as u128 * b.size() as u128;
    let places = a.places() as u32 + b.places() as u32;
    let negative = differ(a.is_negative(), b.is_negative());
    round(negative, digits, places, false, direction)
}
