//! Literals: texts that are numbers, read exactly.

ghost use Rattle.std.specs.Prelude.{true, ◌≡◌, ℕ, ◌+◌, ◌*◌, ◌/◌, ◌%◌, ◌^◌, ◌<◌, ◌≤◌, ◌↔◌, Option, None, IfSome, IfOk, Err, ◌++◌, length, option_map};
ghost use Rattle.std.specs.List.{prefix_len};
ghost use Rattle.std.specs.Char.{is_ascii_digit};
ghost use Rattle.std.specs.Str.Parse.{digits_value};
ghost use Rattle.exact_fraction.specs.Number.{ℚ};
ghost use Rattle.decimal18.specs.Bound.{scaled, value_of};
ghost use Rattle.decimal18.specs.declared.literal.NumFault.TheVariants.{NotNumber, NumberRange};
ghost use Rattle.decimal18.specs.Digits.{signed};
ghost use Rattle.decimal18.specs.Literal.{is_minus, are_digits, are_exponent_digits, raised, lowered, leading_digits, after_digits, leading_sign, after_sign, leading_point, after_leading_point, exponent_of, as_bound, unsigned_literal, read, parsed, Sign, IsLiteral, IsOutOfRange};

use crate::Dec;
use crate::magnitude::Magnitude;
use crate::significand::Significand;

/// The most digits of an exponent.
const EXPONENT_DIGITS: usize = 3;

/// The most digits of a bound.
const DIGITS: u64 = 18;

/// The least number of 19 digits.
const LIMIT: u128 = 1_000_000_000_000_000_000;

/// The most digits of a bound after its point.
const MOST_PLACES: u64 = 36;

/// Why a text is not read as a bound.
#[derive(Clone, Copy, Debug, PartialEq, Eq)]
pub enum NumFault {
    /// The text is not a literal.
    NotNumber,
    /// The text is a literal whose value is not a bound.
    NumberRange,
}

/// The power of ten `10^raised / 10^lowered`.
#[derive(Clone, Copy)]
struct Power {
    raised: u64,
    lowered: u64,
}

/// 1, the power of a literal without an exponent.
const ONE: Power = Power {
    raised: 0,
    lowered: 0,
};

/// Whether the text begins with a `-`, and the text after its sign, if it has one.
fn split_sign(text: &[u8]) -> (bool, &[u8])
    ensures negative { result.0 ≡ is_minus (leading_sign text.now) }
    ensures rest { result.1.now ≡ after_sign text.now }
{
    match text {
        [b'+', rest @ ..] => (false, rest),
        [b'-', rest @ ..] => (true, rest),
        _ => (false, text),
    }
}

/// The number of digits with which the text begins.
fn count_of_digits(text: &[u8]) -> usize
    ensures count { result ≡ prefix_len is_ascii_digit text.now }
    ensures within { result ≤ length text.now }
{
    for (i, byte) in text.iter().enumerate() {
        if !byte.is_ascii_digit() {
            return i;
        }
    }
    text.len()
}

/// The digits with which the text begins, and the rest.
fn split_digits(text: &[u8]) -> (&[u8], &[u8])
    ensures digits { result.0.now ≡ leading_digits text.now }
    ensures rest { result.1.now ≡ after_digits text.now }
    ensures count { length result.0.now ≡ prefix_len is_ascii_digit text.now }
    ensures parts { length result.0.now + length result.1.now ≡ length text.now }
    ensures all { are_digits result.0.now ≡ true }
{
    let count = count_of_digits(text);
    (&text[..count], &text[count..])
}

/// The digits after a point with which the text begins, and the rest. Where no digit is after the
/// point, the rest begins with the point.
fn split_point(text: &[u8]) -> (&[u8], &[u8])
    ensures digits { result.0.now ≡ leading_point text.now }
    ensures rest { result.1.now ≡ after_leading_point text.now }
    ensures within { length result.0.now ≤ length text.now }
    ensures all { are_digits result.0.now ≡ true }
{
    if let [b'.', after @ ..] = text {
        let (digits, rest) = split_digits(after);
        if !digits.is_empty() {
            return (digits, rest);
        }
    }
    (&text[..0], text)
}

/// Whether each byte is a digit.
pub fn are_digits(text: &[u8]) -> bool
    ensures { result ≡ are_digits text.now }
{
    text.iter().all(|byte| byte.is_ascii_digit())
}

/// Whether the text is one to three digits.
fn are_exponent_digits(text: &[u8]) -> bool
    ensures { result ≡ are_exponent_digits text.now }
{
    are_digits(text) && !text.is_empty() && text.len() <= EXPONENT_DIGITS
}

/// The number that these digits write, at most nine.
pub fn digits_value(digits: &[u8]) -> u32
    requires digits { are_digits digits.now ≡ true }
    requires few { length digits.now ≤ 9 }
    ensures is { result ≡ digits_value 10 digits.now }
    ensures below { result < 10 ^ length digits.now }
{
    let mut value = 0;
    for digit in digits {
        value = value * 10 + (*digit - b'0') as u32;
    }
    value
}

/// The number that one to three digits write.
fn size_of_exponent(digits: &[u8]) -> u64
    requires digits { are_exponent_digits digits.now ≡ true }
    ensures value { result ≡ digits_value 10 digits.now }
    ensures below { result < 1000 }
{
    digits_value(digits) as u64
}

/// The power of ten that the exponent says, and `None` where the text is not empty and no exponent.
fn read_exponent(text: &[u8]) -> Option<Power>
    ensures power { option_map {U = ℕ × ℕ} (λ p. (p.raised, p.lowered)) result
        ≡ option_map (λ e. (raised e, lowered e)) (exponent_of text.now) }
    ensures below { IfSome result (λ p. (p.raised < 1000) × (p.lowered < 1000)) }
{
    let [letter, after @ ..] = text else {
        return Some(ONE);
    };
    if *letter != b'e' && *letter != b'E' {
        return None;
    }
    let (negative, digits) = split_sign(after);
    if !are_exponent_digits(digits) {
        return None;
    }
    let size = size_of_exponent(digits);
    if negative {
        Some(Power {
            raised: 0,
            lowered: size,
        })
    } else {
        Some(Power {
            raised: size,
            lowered: 0,
        })
    }
}

/// `digits * 10^zeros`, and `None` where that has more than 18 digits.
fn with_zeros(digits: u64, zeros: u64) -> Option<u64>
    requires some { 0 < digits }
    requires few { digits < 10 ^ 18 }
    ensures value { IfSome result (λ n. (n ≡ digits * 10 ^ zeros) × (n < 10 ^ 18)) }
    ensures none { result ≡ None → 10 ^ 18 ≤ digits * 10 ^ zeros }
{
    if zeros >= DIGITS {
        return None;
    }
    let size = digits as u128 * 10u128.pow(zeros as u32);
    if size < LIMIT {
        Some(size as u64)
    } else {
        None
    }
}

/// The number `digits / 10^places` with the sign, as a bound.
fn signed_bound(negative: bool, digits: u64, places: u32) -> Option<Dec>
    ensures { result ≡ as_bound (scaled (signed negative digits) places) }
{
    Dec::from_magnitude(negative, Magnitude { digits, places })
}

/// The number `digits * 10^raised / 10^lowered` with the sign, as a bound.
fn scaled_bound(negative: bool, digits: u64, raised: u64, lowered: u64) -> Option<Dec>
    requires few { digits < 10 ^ 18 }
    requires ended { digits % 10 ≡ 0 → digits ≡ 0 }
    ensures { result ≡ as_bound (scaled (signed negative (digits * 10 ^ raised)) lowered) }
{
    if digits == 0 {
        return signed_bound(negative, 0, 0);
    }
    if raised >= lowered {
        return signed_bound(negative, with_zeros(digits, raised - lowered)?, 0);
    }
    if lowered - raised > MOST_PLACES {
        return None;
    }
    signed_bound(negative, digits, (lowered - raised) as u32)
}

/// The number that all the digits write, times the power and divided by `10^(number of digits
/// after the point)`, with the sign, as a bound.
fn exact_bound(negative: bool, whole: &[u8], after_point: &[u8], power: Power) -> Option<Dec>
    requires whole { are_digits whole.now ≡ true }
    requires after_point { are_digits after_point.now ≡ true }
    requires room { length whole.now + length after_point.now < 2 ^ 63 }
    requires power { (power.raised < 1000) × (power.lowered < 1000) }
    ensures { result ≡ as_bound (scaled
        (signed negative (digits_value 10 (whole.now ++ after_point.now) * 10 ^ power.raised))
        (length after_point.now + power.lowered)) }
{
    let size = Significand::ZERO.append(whole)?.append(after_point)?;
    let raised = size.zeros + power.raised;
    let lowered = after_point.len() as u64 + power.lowered;
    scaled_bound(negative, size.digits, raised, lowered)
}

/// The bound that the text without its sign is.
fn parse_unsigned(negative: bool, text: &[u8]) -> Result<Dec, NumFault>
    ensures { (sign : Sign) → is_minus sign ≡ negative → result ≡ read (unsigned_literal sign text.now) }
{
    let (whole, after) = split_digits(text);
    let (after_point, rest) = split_point(after);
    if whole.is_empty() {
        return Err(NumFault::NotNumber);
    }
    let Some(power) = read_exponent(rest) else {
        return Err(NumFault::NotNumber);
    };
    exact_bound(negative, whole, after_point, power).ok_or(NumFault::NumberRange)
}

/// The bound that the text is: an optional sign, one or more digits, optionally a point and one or
/// more digits, and optionally `e` or `E`, a sign or none, and one to three digits.
///
/// # Errors
///
/// [`NumFault::NotNumber`] where the text is no literal, and [`NumFault::NumberRange`] where it is
/// one whose value is no bound.
pub fn parse(text: &[u8]) -> Result<Dec, NumFault>
    ensures exact { result ≡ parsed text.now }
    ensures value { IfOk result (λ b. IsLiteral text.now (value_of b)) }
    ensures not_number { (result ≡ Err NotNumber) ↔ ((x : ℚ) → IsLiteral text.now x → ⊥) }
    ensures number_range { (result ≡ Err NumberRange) ↔ IsOutOfRange text.now }
{
    let (negative, unsigned) = split_sign(text);
    parse_unsigned(negative, unsigned)
}
