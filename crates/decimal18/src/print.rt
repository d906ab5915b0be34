ghost use Rattle.std.specs.Prelude.{◌≡◌, ◌+◌, ◌/◌, ◌^◌, ◌<◌, ◌≤◌, ◌++◌, decimal, OnOk};
ghost use Rattle.decimal18.specs.Text.{sign_of, after_point, last_digits};

use crate::powers::short_power_of_ten;
use itoa::Buffer;
use line_text::{Bytes, OutOfMemory};

// As many zeros as a bound has places before its last eighteen.
static ZEROS: [u8; 18] = [b'0'; 18];

/// `-` for a number below 0.
pub fn sign(coefficient: i64) -> &'static [u8]
    ensures { result.now ≡ sign_of coefficient }
{
    if coefficient < 0 { b"-" } else { b"" }
}

/// Puts the digits at the end, and the point before so many of the last ones.
///
/// # Errors
///
/// [`OutOfMemory`] where there is no memory for them.
pub fn put_size(text: &mut Bytes, size: u64, places: u32) -> Result<(), OutOfMemory>
    requires digits { size < 10 ^ 18 }
    requires places { places ≤ 36 }
    ensures { OnOk result (text.new ≡ text.old ++ decimal (size / 10 ^ places) ++ after_point places size) }
{
    if places == 0 {
        return text.extend_from_slice(Buffer::new().format(size).as_bytes());
    }
    if places < 18 && size >= short_power_of_ten(places) {
        return put_split(text, size, places);
    }
    text.extend_from_slice(b"0.")?;
    put_last_digits(text, size, places)
}

// The same where there are digits before the point and after it.
fn put_split(text: &mut Bytes, size: u64, places: u32) -> Result<(), OutOfMemory>
    requires digits { size < 10 ^ 18 }
    requires places { 0 < places }
    requires whole { 10 ^ places ≤ size }
    ensures { OnOk result (text.new ≡ text.old ++ decimal (size / 10 ^ places) ++ after_point places size) }
{
    let mut buffer = Buffer::new();
    let digits = buffer.format(size).as_bytes();
    let (whole, rest) = digits.split_at(digits.len() - places as usize);
    text.extend_from_slice(whole)?;
    text.push(b'.')?;
    text.extend_from_slice(rest)
}

// Puts the digits at the end with zeros before them, so many in all.
fn put_last_digits(text: &mut Bytes, size: u64, places: u32) -> Result<(), OutOfMemory>
    requires digits { size < 10 ^ 18 }
    requires places { places ≤ 36 }
    requires below { size < 10 ^ places }
    ensures { OnOk result (text.new ≡ text.old ++ last_digits places size) }
{
    if places <= 18 {
        return put_digits(text, size, places);
    }
    text.extend_from_slice(&ZEROS[..places as usize - 18])?;
    put_digits(text, size, 18)
}

// The same of at most eighteen: those behind the 1 of the power above them.
fn put_digits(text: &mut Bytes, size: u64, places: u32) -> Result<(), OutOfMemory>
    requires places { places ≤ 18 }
    requires below { size < 10 ^ places }
    ensures { OnOk result (text.new ≡ text.old ++ last_digits places size) }
{
    let mut buffer = Buffer::new();
    let digits = buffer.format(short_power_of_ten(places) + size).as_bytes();
    let (_, last) = digits.split_at(1);
    text.extend_from_slice(last)
}
