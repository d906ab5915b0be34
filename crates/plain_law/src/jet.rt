ghost use Rattle.std.specs.Prelude.{◌≡◌, ℕ, Bool, IfSome, nat_eq, pos};
ghost use Rattle.exact_fraction.specs.Number.{ℚ, of_ℤ, ◌*ℚ◌};
ghost use Rattle.exact_law.specs.Model.{Expression, Neg, Add, Sub, Mul, Div, Pow, power_slope, unit};
ghost use Rattle.plain_law.specs.Numbers.{number};
ghost use Rattle.plain_law.specs.Models.{IsJetOf, IsJetOrFailure};

use crate::Exact;
use crate::model::Failure;

/// A value with its derivative along a direction.
#[derive(Clone, Copy, Debug)]
pub struct Jet {
    pub value: Exact,
    pub slope: Exact,
}

/// 1 for the key itself, and 0 for every other key.
pub fn unit(along: usize, key: usize) -> Exact
    ensures { number result ≡ unit nat_eq along key }
{
    if along == key {
        return Exact::whole(1);
    }
    Exact::whole(0)
}

/// The jet of the negative.
pub fn negative(a: Jet) -> Jet
    ensures { (v d : ℕ → ℚ) (known : ℕ → Bool) (f : Expression ℕ) → IsJetOf v d known f a → IsJetOf v d known (Neg f) result }
{
    Jet {
        value: a.value.negated(),
        slope: a.slope.negated(),
    }
}

/// The jet of the sum.
pub fn sum(a: Jet, b: Jet) -> Option<Jet>
    ensures { (v d : ℕ → ℚ) (known : ℕ → Bool) (f g : Expression ℕ) → IsJetOf v d known f a → IsJetOf v d known g b → IfSome result (IsJetOf v d known (Add f g)) }
{
    let value = a.value.plus(b.value)?;
    let slope = a.slope.plus(b.slope)?;
    Some(Jet { value, slope })
}

/// The jet of the difference.
pub fn difference(a: Jet, b: Jet) -> Option<Jet>
    ensures { (v d : ℕ → ℚ) (known : ℕ → Bool) (f g : Expression ℕ) → IsJetOf v d known f a → IsJetOf v d known g b → IfSome result (IsJetOf v d known (Sub f g)) }
{
    let value = a.value.minus(b.value)?;
    let slope = a.slope.minus(b.slope)?;
    Some(Jet { value, slope })
}

/// The jet of the product.
pub fn product(a: Jet, b: Jet) -> Option<Jet>
    ensures { (v d : ℕ → ℚ) (known : ℕ → Bool) (f g : Expression ℕ) → IsJetOf v d known f a → IsJetOf v d known g b → IfSome result (IsJetOf v d known (Mul f g)) }
{
    let value = a.value.times(b.value)?;
    let left = a.slope.times(b.value)?;
    let right = a.value.times(b.slope)?;
    let slope = left.plus(right)?;
    Some(Jet { value, slope })
}

/// The jet, where 128 bits hold it.
pub fn fitted(jet: Option<Jet>) -> Result<Jet, Failure>
    ensures { (v d : ℕ → ℚ) (known : ℕ → Bool) (f : Expression ℕ) → IfSome jet (IsJetOf v d known f) → IsJetOrFailure v d known f result }
{
    match jet {
        Some(jet) => Ok(jet),
        None => Err(Failure::TooWide),
    }
}

/// The jet of the quotient, which is undefined exactly where the divisor is 0.
pub fn quotient(a: Jet, b: Jet) -> Result<Jet, Failure>
    ensures { (v d : ℕ → ℚ) (known : ℕ → Bool) (f g : Expression ℕ) → IsJetOf v d known f a → IsJetOf v d known g b → IsJetOrFailure v d known (Div f g) result }
{
    if b.value.is_zero() {
        return Err(Failure::Undefined);
    }
    fitted(quotient_of(a, b))
}

// The jet of the quotient; `None` also where the divisor is 0.
fn quotient_of(a: Jet, b: Jet) -> Option<Jet>
    ensures { (v d : ℕ → ℚ) (known : ℕ → Bool) (f g : Expression ℕ) → IsJetOf v d known f a → IsJetOf v d known g b → IfSome result (IsJetOf v d known (Div f g)) }
{
    let value = a.value.over(b.value)?;
    let shared = value.times(b.slope)?;
    let slope = a.slope.minus(shared)?.over(b.value)?;
    Some(Jet { value, slope })
}

/// The jet of the power, which is undefined exactly where the base is 0 and the exponent is negative.
pub fn power(a: Jet, exponent: i8) -> Result<Jet, Failure>
    ensures { (v d : ℕ → ℚ) (known : ℕ → Bool) (f : Expression ℕ) → IsJetOf v d known f a → IsJetOrFailure v d known (Pow f exponent) result }
{
    if exponent < 0 && a.value.is_zero() {
        return Err(Failure::Undefined);
    }
    fitted(power_of(a, exponent))
}

// The jet of the power; `None` also where it is not defined.
fn power_of(a: Jet, exponent: i8) -> Option<Jet>
    ensures { (v d : ℕ → ℚ) (known : ℕ → Bool) (f : Expression ℕ) → IsJetOf v d known f a → IfSome result (IsJetOf v d known (Pow f exponent)) }
{
    let value = a.value.power(exponent)?;
    let slope = power_slope(a.value, exponent)?.times(a.slope)?;
    Some(Jet { value, slope })
}

// The derivative of the power at `x`.
fn power_slope(x: Exact, exponent: i8) -> Option<Exact>
    ensures { IfSome result (λ r. number r ≡ power_slope (number x) exponent) }
{
    let factor = Exact::whole(exponent as i64);
    if exponent == 0 {
        return Some(factor);
    }
    if exponent > 0 {
        return factor.times(x.product_of(exponent.unsigned_abs() - 1)?);
    }
    factor.times(x.power(exponent)?)?.over(x)
}
