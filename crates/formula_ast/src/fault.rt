use decimal18::NumFault;
use line_text::OutOfMemory;

/// Why a text is not read as a formula, with the place of the token that breaks a rule, counted from 0.
#[derive(Clone, Copy, Debug, PartialEq, Eq)]
pub enum FormulaFault {
    /// No formula goes on with this token, or the text ends too early.
    Syntax(usize),
    /// A name stands before a parenthesis.
    UnknownFunction(usize),
    /// An operand is a literal that is no bound.
    Number(NumFault, usize),
    /// An exponent is not a single digit from 1 to 9.
    BadPower(usize),
    /// More than 64 parentheses and prefix minuses are open.
    TooDeep(usize),
    /// The formula has more than 256 nodes.
    TooMany(usize),
    /// There was no memory for the formula.
    OutOfMemory,
}

impl From<OutOfMemory> for FormulaFault {
    ghost use Rattle.std.specs.Prelude.{◌≡◌};
    ghost use Rattle.formula_ast.specs.declared.fault.FormulaFault.{FormulaFault};

    ghost from_gives = { λ _ fault. fault ≡ FormulaFault.OutOfMemory };

    fn from(_: OutOfMemory) -> FormulaFault {
        FormulaFault::OutOfMemory
    }
}
