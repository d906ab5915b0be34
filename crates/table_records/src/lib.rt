//! The text of a table block, comma-separated, read as the names of columns and rows of numbers.
#![tactic(auto)]

mod fault;
mod fields;
mod header;
mod laws;
mod records;
mod rows;
#[cfg(test)]
mod tests;

pub use fault::RecordsFault;
pub use laws::{worked_refusals, worked_tables};
pub use records::{Records, read_records};
