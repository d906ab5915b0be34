use crate::name::Name;
use decimal18::Dec;

/// A formula, the measurement function of a quantity (JCGM 100:2008, 4.1.1).
#[derive(Drop, Debug)]
pub enum Formula {
    /// A number.
    Num(Dec),
    /// The quantity of this name.
    Var(Name),
    /// The opposite of a formula.
    Neg(Box<Formula>),
    /// The sum of two.
    Add(Box<Formula>, Box<Formula>),
    /// The first less the second.
    Sub(Box<Formula>, Box<Formula>),
    /// The product of two.
    Mul(Box<Formula>, Box<Formula>),
    /// The first divided by the second.
    Div(Box<Formula>, Box<Formula>),
    /// A whole power, from -9 to 9 and not 0 where it was read.
    Pow(Box<Formula>, i8),
}
