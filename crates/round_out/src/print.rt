ghost use Rattle.std.specs.Prelude.{◌≡◌, ◌+◌, ◌/◌, ◌%◌, ◌^◌, ◌<◌, ◌++◌, decimal, replicate, IfOk, OnOk};
ghost use Rattle.line_text.specs.Characters.{digit_zero};
ghost use Rattle.decimal18.specs.Bound.{scaled};
ghost use Rattle.decimal18.specs.Text.{last_digits, sign_of, text_of};
ghost use Rattle.round_out.specs.Printed.{text_at, with_zeros};

use itoa::Buffer;
use line_text::{Bytes, OutOfMemory};
use std::alloc::Global;

// `-` for a number below 0.
fn sign(number: i128) -> &'static [u8]
    ensures { result.now ≡ sign_of number }
{
    if number < 0 { b"-" } else { b"" }
}

// The number that is left without so many digits at the end.
fn leading(size: u128, count: u8) -> u128
    ensures { result ≡ size / 10 ^ count }
{
    // 128 bits hold no more than 39 digits
    if count > 38 {
        return 0;
    }
    size / 10_u128.pow(count as u32)
}

// The digit at this place, counted from the last, as its character.
fn digit_at(size: u128, place: u8) -> u8
    ensures { result ≡ 48 + size / 10 ^ place % 10 }
{
    b'0' + (leading(size, place) % 10) as u8
}

// Puts a number without a sign at the end.
fn push_whole(text: &mut Bytes, size: u128) -> Result<(), OutOfMemory>
    ensures { OnOk result (text.new ≡ text.old ++ decimal size) }
{
    text.extend_from_slice(Buffer::new().format(size).as_bytes())
}

// Puts so many of the last digits at the end, with leading zeros where there are fewer.
fn push_last_digits(text: &mut Bytes, size: u128, count: u8) -> Result<(), OutOfMemory>
    ensures { OnOk result (text.new ≡ text.old ++ last_digits count size) }
{
    let mut place = count;
    while place > 0 {
        place -= 1;
        text.push(digit_at(size, place))?;
    }
    Ok(())
}

// Puts so many zeros at the end.
fn push_zeros(text: &mut Bytes, count: u8) -> Result<(), OutOfMemory>
    ensures { OnOk result (text.new ≡ text.old ++ replicate count digit_zero) }
{
    let mut left = count;
    while left > 0 {
        left -= 1;
        text.push(b'0')?;
    }
    Ok(())
}

// Puts a number with so many digits after the point at the end.
fn put_places(text: &mut Bytes, number: i128, places: u8) -> Result<(), OutOfMemory>
    requires { 0 < places }
    ensures { OnOk result (text.new ≡ text.old ++ text_of (scaled number places)) }
{
    let size = number.unsigned_abs();
    text.extend_from_slice(sign(number))?;
    push_whole(text, leading(size, places))?;
    text.push(b'.')?;
    push_last_digits(text, size, places)
}

// Puts a number followed by so many zeros at the end.
fn put_zeros(text: &mut Bytes, number: i128, zeros: u8) -> Result<(), OutOfMemory>
    ensures { OnOk result (text.new ≡ text.old ++ with_zeros number zeros) }
{
    if number == 0 {
        return text.extend_from_slice(b"0");
    }
    text.extend_from_slice(sign(number))?;
    push_whole(text, number.unsigned_abs())?;
    push_zeros(text, zeros)
}

/// Puts the text of `c` units of 10^`e` at the end: for an `e` below 0 a number with -`e` digits after the point, else
/// a whole number with `e` zeros at the end.
///
/// # Errors
///
/// [`OutOfMemory`] where there is no memory for the text.
pub fn put_at(text: &mut Bytes, c: i128, e: i8) -> Result<(), OutOfMemory>
    ensures { OnOk result (text.new ≡ text.old ++ text_at c e) }
{
    if e < 0 {
        return put_places(text, c, e.unsigned_abs());
    }
    put_zeros(text, c, e.unsigned_abs())
}

/// The text of `c` units of 10^`e`, as [`put_at`] puts it.
///
/// # Errors
///
/// [`OutOfMemory`] where there is no memory for the text.
pub fn print_at(alloc: Global, c: i128, e: i8) -> Result<Bytes, OutOfMemory>
    ensures { IfOk result (λ text. text ≡ text_at c e) }
{
    let mut text = Bytes::new(alloc)?;
    put_at(&mut text, c, e)?;
    Ok(text)
}
