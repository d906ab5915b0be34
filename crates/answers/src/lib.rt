//! What is asked of a session, and what it answers: plain types.
#![tactic(auto)]

mod command;
mod fault;
mod reply;

pub use command::{Command, Edit, Query};
pub use fault::{AskFault, HistoryFault, LineFault, MarkFault};
pub use reply::{Answer, Reply};
