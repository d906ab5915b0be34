ghost use Rattle.std.specs.Prelude.{◌≡◌, ◌++◌, ◌<◌, ◌≤◌, ◌^◌, ◌↔◌, IsSome, IfSome, IfOk, OnOk, unsigned_abs};
ghost use Rattle.decimal18.specs.Bound.{canonical, scaled, IsBound, IsCanonical};
ghost use Rattle.decimal18.specs.Down.{negated};
ghost use Rattle.decimal18.specs.Digits.{signed};
ghost use Rattle.decimal18.specs.Text.{text_of};

use crate::magnitude::Magnitude;
use crate::print::{put_size, sign};
use crate::sign::{is_negative, with_sign};
use line_text::{Bytes, OutOfMemory};
use std::alloc::Global;
use std::marker::Model;

/// The number `coefficient / 10^places`, with at most 18 digits and the least number of places.
#[derive(Clone, Copy, Debug, PartialEq, Eq)]
pub struct Dec {
    coefficient: i64,
    places: u8,
}

impl Model for Dec {
    ghost use Rattle.decimal18.specs.Bound.{Bound, IsDecimal, scaled};

    ghost Value = { Bound };

    ghost view = { λ d. record { coefficient = d.coefficient; places = d.places } };

    ghost invariant = { λ d. IsDecimal (scaled d.coefficient d.places) };

    ghost inverse = { λ b. record { coefficient = b.coefficient; places = b.places } };
}

// The least number of 19 digits.
const LIMIT: u64 = 1_000_000_000_000_000_000;

impl Dec {
    /// The number `coefficient / 10^places`, and `None` where it is no bound. Zeros at the end of the
    /// digits after the point do not count.
    pub fn new(coefficient: i64, places: u8) -> Option<Dec>
        ensures valid { IsSome result ↔ IsBound (canonical coefficient places) }
        ensures value { IfSome result (λ d. d ≡ canonical coefficient places) }
    {
        let size = Magnitude {
            digits: coefficient.unsigned_abs(),
            places: places as u32,
        };
        Dec::from_magnitude(is_negative(coefficient), size)
    }

    /// A whole number.
    pub fn whole(number: i32) -> Dec
        ensures { result ≡ scaled number 0 }
    {
        Dec {
            coefficient: number as i64,
            places: 0,
        }
    }

    /// The number of this size, with the sign `-` where it is to be negative, and `None` where it is
    /// no bound.
    pub(crate) fn from_magnitude(negative: bool, size: Magnitude) -> Option<Dec>
        ensures valid { IsSome result ↔ IsBound (canonical (signed negative size.digits) size.places) }
        ensures value { IfSome result (λ d. d ≡ canonical (signed negative size.digits) size.places) }
    {
        let size = size.without_zeros();
        if size.digits >= LIMIT || size.places > 36 {
            return None;
        }
        Some(Dec {
            coefficient: with_sign(negative, size.digits),
            places: size.places as u8,
        })
    }

    /// The same of a size that is a bound with the zeros at its end.
    #[inline(always)]
    pub(crate) fn shortest(negative: bool, size: Magnitude) -> Dec
        requires digits { size.digits < 10 ^ 18 }
        requires places { size.places ≤ 36 }
        ensures { result ≡ canonical (signed negative size.digits) size.places }
    {
        let short = size.without_zeros();
        Dec {
            coefficient: with_sign(negative, short.digits),
            places: short.places as u8,
        }
    }

    /// The whole number of which `10^places` is the divisor; it has at most 18 digits.
    pub fn coefficient(self) -> i64
        ensures value { result ≡ self.coefficient }
        ensures digits { unsigned_abs result < 10 ^ 18 }
    {
        self.coefficient
    }

    /// The number of digits after the point.
    pub fn places(self) -> u8
        ensures value { result ≡ self.places }
        ensures most { result ≤ 36 }
        ensures canonical { IsCanonical self }
    {
        self.places
    }

    /// The negative, which is a bound too.
    pub fn negated(self) -> Dec
        ensures { result ≡ negated self }
    {
        Dec {
            coefficient: -self.coefficient,
            places: self.places,
        }
    }

    // The coefficient without its sign.
    pub(crate) fn size(self) -> u64
        ensures value { result ≡ unsigned_abs self.coefficient }
        ensures digits { result < 10 ^ 18 }
        ensures most { self.places ≤ 36 }
        ensures canonical { IsCanonical self }
    {
        self.coefficient.unsigned_abs()
    }

    // Whether the number is below 0.
    pub(crate) fn is_negative(self) -> bool
        ensures { self.coefficient ≡ signed result (unsigned_abs self.coefficient) }
    {
        is_negative(self.coefficient)
    }

    /// The text of the number: `-` where it is negative, the whole part, and for places above 0 a
    /// point and that many digits.
    ///
    /// # Errors
    ///
    /// [`OutOfMemory`] where there is no memory for the text.
    pub fn print(self, alloc: Global) -> Result<Bytes, OutOfMemory>
        ensures { IfOk result (λ text. text ≡ text_of self) }
    {
        let mut text = Bytes::new(alloc)?;
        self.put(&mut text)?;
        Ok(text)
    }

    /// Puts the text of the number at the end.
    ///
    /// # Errors
    ///
    /// [`OutOfMemory`] where there is no memory for it.
    pub fn put(self, text: &mut Bytes) -> Result<(), OutOfMemory>
        ensures { OnOk result (text.new ≡ text.old ++ text_of self) }
    {
        text.extend_from_slice(sign(self.coefficient))?;
        put_size(text, self.coefficient.unsigned_abs(), self.places as u32)
    }
}
