//! What the program is asked to do by the words that it is called with.
#![tactic(auto)]

mod asked;
mod number;
mod options;
mod read;
#[cfg(test)]
mod tests;
mod worked;

pub use asked::Asked;
pub use read::{OutOfMemory, read_words};
pub use worked::{worked_makings, worked_numbers, worked_refusals};
