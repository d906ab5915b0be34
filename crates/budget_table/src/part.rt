use fixed_interval::Span;
use formula_ast::Name;

/// An input of a quantity, as its budget needs it.
#[derive(Clone, Copy, Debug)]
pub struct BudgetInput {
    /// The name of the input.
    pub name: Name,
    /// Its estimate, in its own unit.
    pub value: Span,
    /// The variance of its estimate, in the square of its unit.
    pub variance: Span,
    /// The sensitivity of the quantity to it, in the quantity's unit by its own.
    pub sens: Span,
}

/// What inputs that are not independent of one another, or one input alone, bring to the variance of a quantity.
#[derive(Clone, Copy, Debug)]
pub struct GroupPart {
    /// The name of the group.
    pub name: Name,
    /// How much it is, in the square of the quantity's unit.
    pub variance: Span,
}
