use crate::name::Name;
use decimal18::Dec;

/// A binary operator, or the sign before a factor or an exponent.
#[derive(Clone, Copy, Debug, PartialEq, Eq)]
pub enum Sign {
    Plus,
    Minus,
    Times,
    Over,
}

/// What a token is.
#[derive(Clone, Copy, Debug)]
pub enum Kind {
    /// A number: its bound, where it is one, and its value as an exponent, where it is one.
    Number(Option<Dec>, Option<u8>),
    /// A name of a quantity.
    Name(Name),
    /// `+`, `-`, `*` or `/`.
    Joins(Sign),
    /// `^`.
    Hat,
    /// `(`.
    Open,
    /// `)`.
    Close,
    /// A number that is directly followed by a letter, a digit, `_` or a point.
    Glued,
    /// A byte that begins no token, or a run of name bytes that is no name.
    Wrong,
}
