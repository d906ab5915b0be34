//! Sheets, which are well-formed lists of regular rows, and their edits.
#![tactic(auto)]

mod correlations;
mod edits;
mod laws;
mod sheet;
#[cfg(test)]
mod tests;
mod users;
mod worked;

pub use laws::{
    adding_is_accepted_where_well_formed, edits_keep_sheets_standing,
    removing_is_accepted_where_well_formed, setting_is_accepted_where_well_formed,
    the_empty_sheet_stands,
};
pub use sheet::Sheet;
pub use worked::{worked_additions, worked_removals, worked_rules, worked_settings};
