//! Whole numbers, read digit by digit, by their digits before the zeros at their end.

ghost use Rattle.std.specs.Prelude.{◌≡◌, ◌+◌, ◌*◌, ◌%◌, ◌^◌, ◌<◌, ◌≤◌};

/// The whole number `digits * 10^zeros`. It has at most 18 digits, and the last of them is not 0
/// unless the number is 0.
#[derive(Clone, Copy)]
pub struct Significand {
    pub digits: u64,
    pub zeros: u64,
    ghost few: { digits < 10 ^ 18 },
    ghost ended: { digits % 10 ≡ 0 → digits ≡ 0 },
}

/// The least number of 19 digits.
const LIMIT: u128 = 1_000_000_000_000_000_000;

/// The most zeros after which one more digit may still be the 18th.
const MOST_ZEROS: u64 = 16;

impl Significand {
    ghost use Rattle.std.specs.Prelude.{true, IfSome, length};
    ghost use Rattle.std.specs.Str.Parse.{digits_value_after};
    ghost use Rattle.decimal18.specs.Literal.{are_digits};
    ghost use Rattle.decimal18.specs.Significand.{number_of, ReadAs};

    pub const ZERO: Significand = Significand {
        digits: 0,
        zeros: 0,
    };

    /// The number with one more digit at its end, and `None` where that has too many digits.
    fn push(self, digit: u8) -> Option<Significand>
        requires digit { digit < 10 }
        requires room { self.zeros + 1 < 2 ^ 64 }
        ensures read { ReadAs (number_of self * 10 + digit) result }
        ensures zeros { IfSome result (λ s. s.zeros ≤ self.zeros + 1) }
    {
        if digit == 0 {
            return Some(Significand {
                digits: self.digits,
                zeros: self.zeros + 1,
            });
        }
        if self.digits == 0 {
            return Some(Significand {
                digits: digit as u64,
                zeros: 0,
            });
        }
        if self.zeros > MOST_ZEROS {
            return None;
        }
        let digits = self.digits as u128 * 10u128.pow(self.zeros as u32 + 1) + digit as u128;
        if digits < LIMIT {
            Some(Significand {
                digits: digits as u64,
                zeros: 0,
            })
        } else {
            None
        }
    }

    /// The number with more digits at its end, and `None` where that has too many digits.
    pub fn append(self, text: &[u8]) -> Option<Significand>
        requires all { are_digits text.now ≡ true }
        requires room { self.zeros + length text.now < 2 ^ 64 }
        ensures read { ReadAs (digits_value_after 10 (number_of self) text.now) result }
        ensures zeros { IfSome result (λ s. s.zeros ≤ self.zeros + length text.now) }
    {
        let mut number = self;
        for digit in text {
            number = number.push(*digit - b'0')?;
        }
        Some(number)
    }
}
