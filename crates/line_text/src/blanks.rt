//! The blanks of a text, and what is written in a line: what stands before its comment and its last blanks.

ghost use Rattle.std.specs.Prelude.{◌≡◌, ◌+◌, ◌≤◌, length, take, drop};
ghost use Rattle.std.specs.List.{prefix_len};
ghost use Rattle.line_text.specs.Blanks.{is_blank, written_len};
ghost use Rattle.line_text.specs.Words.{is_no_hash, without_comment, written_part};

use memchr::memchr;

/// Whether the byte is a blank, which may stand between words and tokens: a space or a tab.
pub fn is_blank(byte: u8) -> bool
    ensures { result ≡ is_blank byte }
{
    byte == b' ' || byte == b'\t'
}

/// The number of blanks at the start.
pub fn blanks_len(text: &[u8]) -> usize
    ensures is { result ≡ prefix_len is_blank text.now }
    ensures within { result ≤ length text.now }
{
    text.iter().take_while(|byte| is_blank(**byte)).count()
}

/// The text after so many bytes.
pub fn after(text: &[u8], len: usize) -> &[u8]
    requires { len ≤ length text.now }
    ensures is { result.now ≡ drop len text.now }
    ensures length { len + length result.now ≡ length text.now }
{
    &text[len..]
}

/// The text after the blanks at its start.
pub fn skip_blanks(text: &[u8]) -> &[u8]
    ensures is { result.now ≡ drop (prefix_len is_blank text.now) text.now }
    ensures within { length result.now ≤ length text.now }
{
    after(text, blanks_len(text))
}

/// The first bytes of the text, so many.
pub(crate) fn prefix(text: &[u8], len: usize) -> &[u8]
    requires { len ≤ length text.now }
    ensures is { result.now ≡ take len text.now }
    ensures length { length result.now ≡ len }
{
    &text[..len]
}

/// The number of bytes before the first `#`.
fn comment_start(line: &[u8]) -> usize
    ensures is { result ≡ prefix_len is_no_hash line.now }
    ensures within { result ≤ length line.now }
{
    memchr(b'#', line).unwrap_or(line.len())
}

/// The line before its comment, which begins with the first `#`.
fn without_comment(line: &[u8]) -> &[u8]
    ensures { result.now ≡ without_comment line.now }
{
    prefix(line, comment_start(line))
}

/// The length of the text without its last blanks.
pub fn written_len(text: &[u8]) -> usize
    ensures is { result ≡ written_len text.now }
    ensures within { result ≤ length text.now }
{
    let mut len = text.len();
    while len > 0 && is_blank(text[len - 1]) {
        len -= 1;
    }
    len
}

/// The line without its comment and its last blanks.
pub fn written_part(line: &[u8]) -> &[u8]
    ensures { result.now ≡ written_part line.now }
{
    let text = without_comment(line);
    prefix(text, written_len(text))
}
