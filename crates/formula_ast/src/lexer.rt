//! The tokens of a text, one by one: what stands at its start, and the rest.

ghost use Rattle.std.specs.Prelude.{◌≡◌, ◌<◌, ◌≤◌, ℕ, length};
ghost use Rattle.std.specs.List.{prefix_len};
ghost use Rattle.std.specs.Char.{is_ascii_digit};
ghost use Rattle.decimal18.specs.Literal.{parsed};
ghost use Rattle.formula_ast.specs.Reading.{opens_next};
ghost use Rattle.formula_ast.specs.Tokens.{goes_on_run, point_len, sign_len, exponent_len, literal_len, power_of, is_glued, bound_in, number_kind, name_kind, mark_kind, len_of, kind_of, tokens};
ghost use Rattle.line_text.specs.Blanks.{IsTight};
ghost use Rattle.formula_ast.specs.FirstTokens.{IsFirstToken, IsSmall};

use crate::name::{Name, begins_name, goes_on_name};
use crate::token::{Kind, Sign};
use decimal18::{Dec, parse};
use line_text::{after, skip_blanks};

/// The most digits of an exponent of a literal.
const EXPONENT_DIGITS: usize = 3;

/// A token: what it is, and how many bytes it has.
#[derive(Clone, Copy)]
pub struct Token {
    pub kind: Kind,
    pub len: usize,
}

/// Whether the byte may stand in a run of letters, digits, `_` and points.
fn goes_on_run(byte: u8) -> bool
    ensures { result ≡ goes_on_run byte }
{
    goes_on_name(byte) || byte == b'.'
}

/// The number of digits at the start.
fn digits_len(text: &[u8]) -> usize
    ensures is { result ≡ prefix_len is_ascii_digit text.now }
    ensures within { result ≤ length text.now }
{
    text.iter().take_while(|byte| byte.is_ascii_digit()).count()
}

/// The length of the run of letters, digits, `_` and points at the start.
fn run_len(text: &[u8]) -> usize
    ensures is { result ≡ prefix_len goes_on_run text.now }
    ensures within { result ≤ length text.now }
{
    text.iter().take_while(|byte| goes_on_run(**byte)).count()
}

/// The length of a point and the digits after it; 0 where there is no point or no digit after it.
fn point_len(text: &[u8]) -> usize
    ensures is { result ≡ point_len text.now }
    ensures within { result ≤ length text.now }
{
    let [b'.', after @ ..] = text else {
        return 0;
    };
    let digits = digits_len(after);
    if digits == 0 {
        return 0;
    }
    1 + digits
}

/// The length of the sign of an exponent, which it may lack.
fn sign_len(text: &[u8]) -> usize
    ensures is { result ≡ sign_len text.now }
    ensures within { result ≤ length text.now }
{
    match text {
        [b'+', ..] => 1,
        [b'-', ..] => 1,
        _ => 0,
    }
}

/// The length of the exponent of a literal; 0 where it has no digit.
fn exponent_len(text: &[u8]) -> usize
    ensures is { result ≡ exponent_len text.now }
    ensures within { result ≤ length text.now }
{
    let [letter, after @ ..] = text else {
        return 0;
    };
    if *letter != b'e' && *letter != b'E' {
        return 0;
    }
    let sign = sign_len(after);
    let digits = digits_len(&after[sign..]);
    if digits == 0 {
        return 0;
    }
    1 + sign + digits.min(EXPONENT_DIGITS)
}

/// The length of the longest unsigned literal at the start of a text that begins with a digit.
fn literal_len(text: &[u8]) -> usize
    ensures is { result ≡ literal_len text.now }
    ensures within { result ≤ length text.now }
{
    let whole = digits_len(text);
    let rest = &text[whole..];
    let point = point_len(rest);
    whole + point + exponent_len(&rest[point..])
}

/// Whether a literal is directly followed by a byte that may not follow it.
fn is_glued(after: &[u8]) -> bool
    ensures { result ≡ is_glued after.now }
{
    let [byte, ..] = after else {
        return false;
    };
    goes_on_run(*byte)
}

/// The exponent that the text is: a single digit from 1 to 9.
fn power_of(text: &[u8]) -> Option<u8>
    ensures { result ≡ power_of text.now }
{
    match text {
        [digit @ b'1'..=b'9'] => Some(*digit - b'0'),
        _ => None,
    }
}

/// The bound that the literal is.
fn bound_of(literal: &[u8]) -> Option<Dec>
    ensures { result ≡ bound_in (parsed literal.now) }
{
    match parse(literal) {
        Ok(bound) => Some(bound),
        Err(_) => None,
    }
}

/// What a literal is, with this text after it.
fn number_kind(literal: &[u8], after: &[u8]) -> Kind
    ensures { result ≡ number_kind literal.now after.now }
{
    if is_glued(after) {
        return Kind::Glued;
    }
    Kind::Number(bound_of(literal), power_of(literal))
}

/// What a run is that begins as a name.
fn name_kind(run: &[u8]) -> Kind
    ensures { result ≡ name_kind run.now }
{
    match Name::new(run) {
        Some(name) => Kind::Name(name),
        None => Kind::Wrong,
    }
}

/// What a byte is that begins neither a number nor a name.
fn mark_kind(byte: u8) -> Kind
    ensures { result ≡ mark_kind byte }
{
    match byte {
        b'+' => Kind::Joins(Sign::Plus),
        b'-' => Kind::Joins(Sign::Minus),
        b'*' => Kind::Joins(Sign::Times),
        b'/' => Kind::Joins(Sign::Over),
        b'^' => Kind::Hat,
        b'(' => Kind::Open,
        b')' => Kind::Close,
        _ => Kind::Wrong,
    }
}

/// The token that stands at the start.
fn first_token(text: &[u8]) -> Token
    requires { 0 < length text.now }
    ensures len { result.len ≡ len_of text.now }
    ensures kind { result.kind ≡ kind_of text.now }
    ensures within { result.len ≤ length text.now }
{
    let first = text[0];
    if first.is_ascii_digit() {
        let len = literal_len(text);
        let kind = number_kind(&text[..len], &text[len..]);
        return Token { kind, len };
    }
    if begins_name(first) {
        let len = run_len(text);
        let kind = name_kind(&text[..len]);
        return Token { kind, len };
    }
    Token {
        kind: mark_kind(first),
        len: 1,
    }
}

/// The token at the start of a text that begins with one, and the text after it and the blanks that
/// follow it.
pub fn split_token(text: &[u8]) -> (Token, &[u8])
    requires some { 0 < length text.now }
    requires tight { IsTight text.now }
    ensures first { IsFirstToken text.now result.0.len result.0.kind result.1.now }
    ensures tight { IsTight result.1.now }
    ensures small { IsSmall result.0.kind }
{
    let token = first_token(text);
    (token, skip_blanks(after(text, token.len)))
}

/// Whether the text begins with an open parenthesis.
pub fn opens(text: &[u8]) -> bool
    requires { IsTight text.now }
    ensures { (at : ℕ) → result ≡ opens_next (tokens text.now 0 at) }
{
    let [byte, ..] = text else {
        return false;
    };
    *byte == b'('
}
