//! The session: a present sheet, the sheets to which undo and redo lead, and those that are kept under
//! names; and what a sheet answers to a query.
#![tactic(auto)]

mod answering;
mod asked;
mod budget;
mod budget_parts;
mod edits;
mod law;
#[cfg(test)]
mod law_tests;
mod laws;
mod session;
mod statement;
mod stop;
#[cfg(test)]
mod tests;
mod uncertainty;

pub use laws::{
    every_reply_is_sound, names_of_quantities_have_values, rebuilt_sheets_reply_alike,
    sheets_keep_standing,
};
pub use session::Session;
