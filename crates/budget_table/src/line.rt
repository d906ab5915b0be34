use fixed_interval::Span;
use formula_ast::Name;

/// A line of the budget of a quantity.
#[derive(Clone, Copy, Debug)]
pub enum BudgetLine {
    /// An input.
    Input {
        /// The name of the input.
        name: Name,
        /// Its estimate, in its own unit.
        value: Span,
        /// The variance of its estimate, in the square of its unit.
        variance: Span,
        /// The sensitivity of the quantity to it, in the quantity's unit by its own.
        sens: Span,
        /// What it brings to the variance of the quantity, in the square of the quantity's unit: the square of the
        /// sensitivity times its own variance (JCGM 100:2008, 5.1.3).
        own: Span,
    },
    /// A group of inputs.
    Group {
        /// The name of the group.
        name: Name,
        /// What it brings to the variance of the quantity, in the square of the quantity's unit.
        variance: Span,
    },
}
