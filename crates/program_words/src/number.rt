ghost use Rattle.std.specs.Prelude.{◌≡◌, ◌<◌, ◌≤◌, ◌^◌, length, true};
ghost use Rattle.std.specs.Str.Parse.{digits_value};
ghost use Rattle.program_words.specs.Numbers.{are_digits, number_of};

/// Whether each byte is a digit.
fn are_digits(text: &[u8]) -> bool
    ensures { result ≡ are_digits text.now }
{
    text.iter().all(|byte| byte.is_ascii_digit())
}

/// The number that these digits write, at most ten.
fn digits_value(digits: &[u8]) -> u64
    requires digits { are_digits digits.now ≡ true }
    requires few { length digits.now ≤ 10 }
    ensures is { result ≡ digits_value 10 digits.now }
    ensures below { result < 10 ^ length digits.now }
{
    let mut value = 0;
    for digit in digits {
        value = value * 10 + (*digit - b'0') as u64;
    }
    value
}

/// The number that a text writes with at least one digit and at most so many, from the least to the most.
pub(crate) fn number(text: &[u8], digits: usize, least: u32, most: u32) -> Option<u32>
    requires { digits ≤ 10 }
    ensures { result ≡ number_of digits least most text.now }
{
    if !are_digits(text) || text.is_empty() || text.len() > digits {
        return None;
    }
    let number = digits_value(text);
    if least as u64 <= number && number <= most as u64 {
        Some(number as u32)
    } else {
        None
    }
}
