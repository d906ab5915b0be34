ghost use Rattle.std.specs.Prelude.{◌≡◌, true, IfSome, Some};
ghost use Rattle.exact_fraction.specs.Number.{of_ℤ, is_zero_ℚ, ◌≤ℚ◌, ◌<ℚ◌};
ghost use Rattle.exact_law.specs.Rounding.{at_place, scaled_square, AreDigitsOf, IsCorrelation, IsHundredths};
ghost use Rattle.plain_law.specs.Numbers.{number};
ghost use Rattle.plain_law.specs.DigitViews.{HasUnit, IsPlaceOf, AreDigits, digits_of};

use crate::fraction::Exact;
use crate::place::Place;

/// The two significant digits of the root of a variance: a whole number from 10 to 99 in units of a
/// power of ten, with its exponent.
#[derive(Clone, Copy, Debug)]
pub enum Digits {
    Zero,
    Two { digits: u8, exponent: i32 },
}

// More places than 128 bits hold.
const PLACES: u32 = 40;

// The place at which the root of `scaled` has two digits, going left.
fn place_going_left(scaled: Exact, from: Place) -> Option<Place>
    requires unit { HasUnit from }
    requires low { scaled_square 199 from.exponent ≤ℚ number scaled }
    ensures { IfSome result (IsPlaceOf (number scaled)) }
{
    let mut place = from;
    for _step in 0..PLACES {
        if !place.scaled_square(1990)?.at_most(scaled)? {
            return Some(place);
        }
        place = place.next()?;
    }
    None
}

// The same, going right.
fn place_going_right(scaled: Exact, from: Place) -> Option<Place>
    requires unit { HasUnit from }
    requires high { number scaled <ℚ scaled_square 199 from.exponent }
    ensures { IfSome result (IsPlaceOf (number scaled)) }
{
    let mut place = from;
    for _step in 0..PLACES {
        place = place.previous()?;
        if place.scaled_square(199)?.at_most(scaled)? {
            return Some(place);
        }
    }
    None
}

fn place_of(scaled: Exact) -> Option<Place>
    ensures { IfSome result (IsPlaceOf (number scaled)) }
{
    let ones = Place::ones();
    if ones.scaled_square(199)?.at_most(scaled)? {
        return place_going_left(scaled, ones);
    }
    place_going_right(scaled, ones)
}

// The first digits whose greatest root is above.
fn digits_at(scaled: Exact, place: Place) -> Option<u8>
    requires { IsPlaceOf (number scaled) place }
    ensures { IfSome result (λ r. AreDigits (number scaled) r place.exponent) }
{
    for digits in 10..100u8 {
        let end = place.scaled_square(20 * u16::from(digits) + 10)?;
        if !end.at_most(scaled)? {
            return Some(digits);
        }
    }
    None
}

/// The two digits of a standard uncertainty (JCGM 100:2008, 7.2.6), from its square. `None` comes only
/// where the variance is negative, or where 128 bits do not hold a number on the way.
#[tactic(auto, unfolding(exact_law::specs::Rounding::AreDigitsOf))]
pub fn two_digits(variance: Exact) -> Option<Digits>
    ensures zero { is_zero_ℚ (number variance) ≡ true → result ≡ Some Digits.Zero }
    ensures digits { IfSome result (λ r. AreDigitsOf (number variance) (digits_of r)) }
{
    if variance.is_zero() {
        return Some(Digits::Zero);
    }
    if !variance.is_not_negative() {
        return None;
    }
    // in squares of twentieths, as the rule's halves and tenths are whole there
    let scaled = Exact::whole(400).times(variance)?;
    let place = place_of(scaled)?;
    Some(Digits::Two {
        digits: digits_at(scaled, place)?,
        exponent: place.exponent,
    })
}

/// The estimate in units of the place, to the nearest; ties go upward. `None` comes only where 128 bits
/// do not hold a number on the way.
pub fn at_place(estimate: Exact, exponent: i32) -> Option<Exact>
    ensures { IfSome result (λ r. number r ≡ of_ℤ (at_place (number estimate) exponent)) }
{
    let place = Place::at(exponent)?;
    let half = Exact::ratio(1, 2)?;
    Some(estimate.over(place.unit)?.plus(half)?.floor())
}

/// The hundredths of the root of `square`. `None` comes only where the square is negative or above
/// 1.01, or where 128 bits do not hold a number on the way.
pub fn hundredths(square: Exact) -> Option<u8>
    ensures { IfSome result (IsHundredths (number square)) }
{
    if !square.is_not_negative() {
        return None;
    }
    let scaled = Exact::whole(40_000).times(square)?;
    for hundredths in 0..=100u8 {
        let end = 2 * i64::from(hundredths) + 1;
        if !Exact::whole(end * end).at_most(scaled)? {
            return Some(hundredths);
        }
    }
    None
}

/// The correlation coefficient (JCGM 100:2008, 5.2.2) of two quantities with this covariance and these
/// variances, in hundredths. `None` comes only where a variance is not above 0, where the coefficient is
/// out of range, or where 128 bits do not hold a number on the way.
pub fn correlation(covariance: Exact, first: Exact, second: Exact) -> Option<i16>
    ensures { IfSome result (IsCorrelation (number covariance) (number first) (number second)) }
{
    let zero = Exact::whole(0);
    let first_is_zero = first.at_most(zero)?;
    let second_is_zero = second.at_most(zero)?;
    if first_is_zero || second_is_zero {
        return None;
    }
    let square = covariance.times(covariance)?.over(first.times(second)?)?;
    let size = i16::from(hundredths(square)?);
    if covariance.is_not_negative() {
        return Some(size);
    }
    Some(-size)
}
