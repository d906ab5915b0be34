//! Scripts of any size that are generated from a number, to try the program and to time it.
#![tactic(auto)]

mod draws;
mod laws;
mod make;
#[cfg(test)]
mod tests;

pub use laws::{draws_are_below, worked_draws, worked_rows, worked_script};
pub use make::make_script;
