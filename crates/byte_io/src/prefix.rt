//! The start of a list of bytes, copied into a piece.

ghost use Rattle.std.specs.Prelude.{◌≡◌, ◌+◌, ◌≤◌, ◌++◌, min, length, take, drop};

// Copies the start of `from` to the start of `to`: as many bytes as both have, and at most `most`.
fn copy_prefix(from: &[u8], most: usize, to: &mut [u8]) -> usize
    ensures length { result ≡ min (min (length from.now) most) (length to.new) }
    ensures prefix { take result to.new ≡ take result from.now }
{
    let count = from.len().min(most).min(to.len());
    to[..count].copy_from_slice(&from[..count]);
    count
}

// Copies the bytes from `at` on to the start of a piece.
pub(crate) fn give(bytes: &[u8], at: usize, most: usize, piece: &mut [u8]) -> usize
    requires { at ≤ length bytes.now }
    ensures length { result ≡ min (min (length (drop at bytes.now)) most) (length piece.new) }
    ensures taken { take (at + result) bytes.now ≡ take at bytes.now ++ take result piece.new }
    ensures left { drop at bytes.now ≡ take result piece.new ++ drop (at + result) bytes.now }
    ensures within { at + result ≤ length bytes.now }
{
    copy_prefix(&bytes[at..], most, piece)
}
