ghost use Rattle.std.specs.Prelude.{◌≡◌, pos};
ghost use Rattle.exact_fraction.specs.Number.{of_ℤ, ◌≤ℚ◌, floor_ℚ};
ghost use Rattle.decimal18.specs.Bound.{value_of};

use decimal18::Dec;

/// The whole part of a number that is at least 1: the greatest whole number that is not above it.
pub fn whole_part(number: Dec) -> u64
    requires { of_ℤ (pos 1) ≤ℚ value_of number }
    ensures { floor_ℚ (value_of number) ≡ pos result }
{
    let power = 10_u128.pow(number.places() as u32);
    (number.coefficient().unsigned_abs() as u128 / power) as u64
}
