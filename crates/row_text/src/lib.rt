//! How rows are read from a line and printed.
#![tactic(auto)]

mod parts;
mod print;
mod print_table;
mod read;
mod read_corr;
mod read_degrees;
mod read_given;
mod read_joint;
mod read_let;
mod read_readings;
mod read_shape;
#[cfg(test)]
mod read_tests;
mod read_tolerance;
mod reading_laws;
#[cfg(test)]
mod table_tests;
#[cfg(test)]
mod tolerance_tests;
mod worked;

pub use print::{print_row, put_row};
pub use read::{read_begun_row, read_row, read_row_words};
pub use read_joint::{TABLE, read_table, read_table_words};
pub use reading_laws::{printed_rows_are_read_again, rows_are_never_out_of_memory};
pub use worked::{
    worked_correlations, worked_degrees, worked_other_kinds, worked_readings, worked_refusals,
    worked_shapes, worked_tables, worked_texts, worked_tolerances,
};
