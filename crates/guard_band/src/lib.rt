//! Statements of conformity with a guard band (ILAC-G8:09/2019, 4.2.2, 4.2.3), where spans of exact numbers settle them.
#![tactic(auto)]

mod conditions;
mod decide;
mod distances;
mod laws;
mod rule;
#[cfg(test)]
mod tests;

pub use decide::statement;
pub use laws::{one_answer, worked_answers, worked_rules, worked_spans, worked_statements};
pub use rule::{Condition, Form, Rule, Said};
