//! Uncertainty budgets: what each input and each group of inputs brings to the variance of a quantity (JCGM 100:2008,
//! 5.1.3), as lines in order.
#![tactic(auto)]

mod fault;
mod laws;
mod line;
mod line_list;
mod part;
mod table;
#[cfg(test)]
mod tests;

pub use fault::BudgetFault;
pub use laws::{worked_budgets, worked_lines, worked_overflows};
pub use line::BudgetLine;
pub use line_list::BudgetLines;
pub use part::{BudgetInput, GroupPart};
pub use table::budget;
