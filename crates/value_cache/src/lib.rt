//! The values of quantities: the span of each, or the fault in its place, and the exact value of its
//! expanded formula, which the span encloses.
//!
//! The definitions in `specs/` are over any kind of key and over quantities in any order. They say what
//! the right evaluation of a quantity is for every body that finds one. [`Cache`] is such a body: it finds
//! the evaluations of a quantity and of all on which it depends, by numbers, each once.
#![tactic(auto)]

mod body;
mod cache;
mod evaluation;
mod laws;
mod through;

pub use body::Body;
pub use cache::Cache;
pub use evaluation::Evaluation;
pub use laws::{
    distinct_names_find_the_same, fresh_cells_are_evaluations, order_changes_nothing,
    unknown_has_no_value, values_are_enclosed, worked_columns,
};
pub use through::Through;
