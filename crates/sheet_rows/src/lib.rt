//! The rows of a sheet, when they are regular, and why a line gives none or a sheet is not edited.
#![tactic(auto)]

mod edit_fault;
mod fault;
mod row;
mod row_list;

pub use edit_fault::EditFault;
pub use fault::RowFault;
pub use row::{Row, column_name};
pub use row_list::RowList;
