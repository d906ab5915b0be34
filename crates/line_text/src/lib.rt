//! The text of a line: its bytes, its blanks, what stands before its comment, and its words, one by one.
#![tactic(auto)]

mod blanks;
mod byte_list;
#[cfg(test)]
mod tests;
mod words;

pub use blanks::{after, blanks_len, is_blank, skip_blanks, written_len, written_part};
pub use byte_list::Bytes;
pub use std::alloc::AllocError as OutOfMemory;
pub use words::{Word, Words};
