//! The lines and table blocks of a script: how a text is cut into them, the commands that they are, and the texts of
//! replies.
#![tactic(auto)]

mod block;
#[cfg(test)]
mod block_tests;
mod first;
mod item;
mod laws;
mod print;
mod print_budget;
mod print_fault;
mod print_result;
mod read;
mod read_block;
mod splitter;
#[cfg(test)]
mod tests;
mod verb;
mod words_after;
mod worked;

pub use item::Item;
pub use laws::{commands_are_never_out_of_memory, commands_are_regular};
pub use print::{print_reply, put_reply};
pub use read::read_command;
pub use splitter::Splitter;
pub use worked::{
    worked_blocks, worked_budgets, worked_commands, worked_decisions, worked_items, worked_limits,
    worked_moments, worked_queries, worked_query_refusals, worked_refusals, worked_replies,
    worked_reports,
};
