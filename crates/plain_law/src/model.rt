use crate::Exact;

/// Why there is no number.
#[derive(Clone, Copy, Debug, PartialEq, Eq)]
pub enum Failure {
    /// A divisor is 0, or the base of a negative power; or a key that is used is no row, or uses itself.
    Undefined,
    /// 128 bits do not hold a number on the way.
    TooWide,
}

/// An expression over the rows of a model, each of which is named by its place.
#[derive(Drop)]
pub enum Expression {
    Num(Exact),
    Key(usize),
    Neg(Box<Expression>),
    Add(Box<Expression>, Box<Expression>),
    Sub(Box<Expression>, Box<Expression>),
    Mul(Box<Expression>, Box<Expression>),
    Div(Box<Expression>, Box<Expression>),
    Pow(Box<Expression>, i8),
}

/// What a quantity is: an input with its estimate (JCGM 100:2008, 4.1.4), or a formula.
#[derive(Drop)]
pub enum Body {
    Input(Exact),
    Formula(Expression),
}
