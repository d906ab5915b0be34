ghost use Rattle.std.specs.Prelude.{◌≡◌, ℕ, ℤ, ◌+ℤ◌, ◌-ℤ◌, neg_ℤ, pos, IfSome};
ghost use Rattle.exact_law.specs.Rounding.{ten_to, scaled_square};
ghost use Rattle.plain_law.specs.Numbers.{number};
ghost use Rattle.plain_law.specs.DigitViews.{HasUnit};

use crate::fraction::Exact;

/// A decimal place: an exponent, and 10 to the power of it.
#[derive(Clone, Copy, Debug)]
pub struct Place {
    pub exponent: i32,
    pub unit: Exact,
}

impl Place {
    /// The place of the ones.
    pub fn ones() -> Place
        ensures exponent { result.exponent ≡ pos 0 }
        ensures unit { HasUnit result }
    {
        Place {
            exponent: 0,
            unit: Exact::whole(1),
        }
    }

    /// The place to the left; `None` only where 128 bits do not hold its unit.
    pub fn next(self) -> Option<Place>
        requires unit { HasUnit self }
        ensures exponent { IfSome result (λ r. r.exponent ≡ self.exponent +ℤ pos 1) }
        ensures unit { IfSome result HasUnit }
    {
        Some(Place {
            exponent: self.exponent.checked_add(1)?,
            unit: self.unit.times(Exact::whole(10))?,
        })
    }

    /// The place to the right; `None` only where 128 bits do not hold its unit.
    pub fn previous(self) -> Option<Place>
        requires unit { HasUnit self }
        ensures exponent { IfSome result (λ r. self.exponent ≡ r.exponent +ℤ pos 1) }
        ensures unit { IfSome result HasUnit }
    {
        Some(Place {
            exponent: self.exponent.checked_sub(1)?,
            unit: self.unit.over(Exact::whole(10))?,
        })
    }

    /// The place with this exponent; `None` only where 128 bits do not hold its unit.
    pub fn at(exponent: i32) -> Option<Place>
        ensures exponent { IfSome result (λ r. r.exponent ≡ exponent) }
        ensures unit { IfSome result HasUnit }
    {
        if exponent < 0 {
            return Place::right_of_ones(exponent.unsigned_abs());
        }
        Place::left_of_ones(exponent.unsigned_abs())
    }

    fn left_of_ones(count: u32) -> Option<Place>
        ensures exponent { IfSome result (λ r. r.exponent ≡ pos count) }
        ensures unit { IfSome result HasUnit }
    {
        let mut place = Place::ones();
        for _step in 0..count {
            place = place.next()?;
        }
        Some(place)
    }

    fn right_of_ones(count: u32) -> Option<Place>
        ensures exponent { IfSome result (λ r. r.exponent ≡ neg_ℤ (pos count)) }
        ensures unit { IfSome result HasUnit }
    {
        let mut place = Place::ones();
        for _step in 0..count {
            place = place.previous()?;
        }
        Some(place)
    }

    /// The square of `root` units.
    pub fn scaled_square(self, root: u16) -> Option<Exact>
        requires unit { HasUnit self }
        ensures { IfSome result (λ r. number r ≡ scaled_square root self.exponent) }
    {
        let root = u32::from(root);
        Exact::whole(i64::from(root * root)).times(self.unit.times(self.unit)?)
    }
}
