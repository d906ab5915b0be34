/// Why there is no budget.
#[derive(Clone, Copy, Debug, PartialEq, Eq)]
pub enum BudgetFault {
    /// What an input brings to the variance, or the square of the sensitivity to it, is out of the range of bounds.
    Overflow,
    /// There was no memory for the lines.
    OutOfMemory,
}
