//! The degrees of freedom of an input: none stated, `dof` and a number or `inf`, or `rel` and a number of percent.

ghost use Rattle.std.specs.Prelude.{◌≡◌, ◌<◌, ◌≤◌, ◌^◌, true, length, Some, Ok, Err, IfOk, IfErr, IfSome};
ghost use Rattle.line_text.specs.Words.{words_left};
ghost use Rattle.type_b.specs.Shapes.{IsDegrees};
ghost use Rattle.row_text.specs.Parts.{any_word};
ghost use Rattle.row_text.specs.Givens.{whole_of, allowed, dof_of, rel_of, degrees_word};

use decimal18::{are_digits, digits_value};
use line_text::Words;
use sheet_rows::RowFault;
use type_b::{Dof, are_degrees};

const DOF: &[u8] = b"dof";

const REL: &[u8] = b"rel";

const INF: &[u8] = b"inf";

/// The most digits of a number of degrees of freedom.
const DOF_DIGITS: usize = 7;

/// The most digits of a number of percent.
const REL_DIGITS: usize = 2;

/// The number that the word writes with digits, at most `most`.
fn whole_of(word: &[u8], most: usize) -> Option<u32>
    requires { most ≤ 9 }
    ensures is { result ≡ whole_of most word.now }
    ensures below { IfSome result (λ n. n < 10 ^ most) }
{
    if are_digits(word) && word.len() <= most {
        Some(digits_value(word))
    } else {
        None
    }
}

/// The degrees of freedom, where an input may have them.
fn allowed(dof: Dof) -> Option<Dof>
    ensures is { result ≡ allowed (Some dof) }
    ensures allowed { IfSome result IsDegrees }
{
    if are_degrees(&dof) { Some(dof) } else { None }
}

/// What the word after `dof` says, if it is an allowed number or `inf`.
fn dof_of(word: &[u8]) -> Option<Dof>
    ensures is { result ≡ dof_of word.now }
    ensures allowed { IfSome result IsDegrees }
{
    if word == INF {
        return Some(Dof::Inf);
    }
    allowed(Dof::Whole(whole_of(word, DOF_DIGITS)?))
}

/// What the word after `rel` says, if it is an allowed number.
fn rel_of(word: &[u8]) -> Option<Dof>
    ensures is { result ≡ rel_of word.now }
    ensures allowed { IfSome result IsDegrees }
{
    allowed(Dof::Rel(whole_of(word, REL_DIGITS)? as u8))
}

/// The word after `dof`, which may be any.
fn read_dof(words: &mut Words<'_>) -> Result<Option<Dof>, RowFault>
    ensures ok { IfOk result (λ dof. any_word dof_of (length words.old.line) (words_left words.old)
        ≡ Ok (record { item = dof; rest = words_left words.new })) }
    ensures err { IfErr result (λ fault. any_word dof_of (length words.old.line) (words_left words.old) ≡ Err fault) }
    ensures allowed { IfOk result (λ dof. IfSome dof IsDegrees) }
{
    match words.next() {
        Some(word) => Ok(dof_of(word.text)),
        None => Err(RowFault::Syntax(words.end() + 1)),
    }
}

/// The word after `rel`, which may be any.
fn read_rel(words: &mut Words<'_>) -> Result<Option<Dof>, RowFault>
    ensures ok { IfOk result (λ dof. any_word rel_of (length words.old.line) (words_left words.old)
        ≡ Ok (record { item = dof; rest = words_left words.new })) }
    ensures err { IfErr result (λ fault. any_word rel_of (length words.old.line) (words_left words.old) ≡ Err fault) }
    ensures allowed { IfOk result (λ dof. IfSome dof IsDegrees) }
{
    match words.next() {
        Some(word) => Ok(rel_of(word.text)),
        None => Err(RowFault::Syntax(words.end() + 1)),
    }
}

/// The degrees of freedom, where they are some that an input may have: infinitely many where no word is left.
pub(crate) fn read_degrees(words: &mut Words<'_>) -> Result<Option<Dof>, RowFault>
    ensures ok { IfOk result (λ dof. degrees_word (length words.old.line) (words_left words.old)
        ≡ Ok (record { item = dof; rest = words_left words.new })) }
    ensures err { IfErr result (λ fault. degrees_word (length words.old.line) (words_left words.old) ≡ Err fault) }
    ensures allowed { IfOk result (λ dof. IfSome dof IsDegrees) }
{
    let Some(word) = words.next() else {
        return Ok(Some(Dof::Inf));
    };
    if word.text == DOF {
        return read_dof(words);
    }
    if word.text == REL {
        return read_rel(words);
    }
    Err(RowFault::Syntax(word.place + 1))
}
