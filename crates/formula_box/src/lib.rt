//! Formulas over spans: the span of a formula's value, and that of its derivative by a name.
#![tactic(auto)]

mod defined;
mod differentiation;
mod evaluation;
mod factor;
mod fault;
mod laws;
mod names;
mod operations;
mod slope;
#[cfg(test)]
mod tests;
mod worked;

pub use defined::partial_where_defined;
pub use differentiation::partial;
pub use evaluation::eval;
pub use fault::EvalFault;
pub use laws::{differentiation_encloses, evaluation_encloses};
pub use names::Env;
pub use worked::{worked_derivatives, worked_faults, worked_uses, worked_values};
