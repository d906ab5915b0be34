ghost use Rattle.std.specs.Prelude.{◌≡◌, ◌<◌, ◌≤◌, ◌^◌, length};
ghost use Rattle.line_text.specs.Words.{word_len};

use crate::blanks::{after, blanks_len, is_blank, prefix};
use std::marker::Model;

/// A word of a line.
#[derive(Clone, Copy, Debug)]
pub struct Word<'a> {
    /// Its place in the line, counted from 0.
    pub place: usize,
    /// Its bytes.
    pub text: &'a [u8],
}

/// The words of a line that are still to come, which is without its comment and its last blanks. Contracts see
/// the line, and the place from which on they come.
#[derive(Drop)]
pub struct Words<'a> {
    line: &'a [u8],
    at: usize,
}

impl<'a> Model for Words<'a> {
    ghost use Rattle.std.specs.Prelude.{◌≤◌, length};
    ghost use Rattle.line_text.specs.Words.{Cursor};

    ghost Value = { Cursor };

    ghost view = { λ words. record { line = words.line.now; at = words.at } };

    ghost invariant = { λ words. words.at ≤ length words.line.now };
}

/// The length of the word at the start.
fn word_len(text: &[u8]) -> usize
    ensures is { result ≡ word_len text.now }
    ensures within { result ≤ length text.now }
{
    text.iter().take_while(|byte| !is_blank(**byte)).count()
}

impl<'a> Words<'a> {
    /// The words of the line from the place `at` on.
    pub fn from(line: &'a [u8], at: usize) -> Words<'a>
        requires { at ≤ length line.now }
        ensures { result ≡ record { line = line.now; at = at } }
    {
        Words { line, at }
    }

    /// The length of the line.
    pub fn end(&self) -> usize
        ensures is { result ≡ length self.now.line }
        ensures most { result < 2 ^ 63 }
    {
        self.line.len()
    }

    /// The place in the line from which on the words come.
    pub fn at(&self) -> usize
        ensures is { result ≡ self.now.at }
        ensures within { result ≤ length self.now.line }
    {
        self.at
    }

    /// The line.
    pub fn line(&self) -> &'a [u8]
        ensures { result.now ≡ self.now.line }
    {
        self.line
    }
}

impl<'a> Iterator for Words<'a> {
    ghost use Rattle.std.specs.Prelude.{length};
    ghost use Rattle.std.specs.Iterator.{at_most};
    ghost use Rattle.line_text.specs.Words.{GivesWord, words_left};

    type Item = Word<'a>;

    ghost next_gives = { GivesWord };

    ghost remaining = { λ words. at_most (length (words_left words)) };

    fn next(&mut self) -> Option<Word<'a>> {
        let rest = after(self.line, self.at);
        let blanks = blanks_len(rest);
        let rest = after(rest, blanks);
        if rest.is_empty() {
            return None;
        }
        let place = self.at + blanks;
        let text = prefix(rest, word_len(rest));
        self.at = place + text.len();
        Some(Word { place, text })
    }
}
