//! Rounded numbers (JCGM 100:2008, 7.2.6), where a span of values settles them.
#![tactic(auto)]

mod coefficient;
mod digits;
mod estimate;
mod laws;
mod outcome;
mod print;
mod report;
mod scale;
#[cfg(test)]
mod tests;
mod worked;

pub use coefficient::{CorrSaid, correlation};
pub use digits::{Rounded, two_digits};
pub use estimate::estimate_at;
pub use laws::{
    one_answer, texts_are_literals, worked_correlations, worked_digits, worked_estimates,
    worked_meanings, worked_texts,
};
pub use outcome::Reported;
pub use print::{print_at, put_at};
pub use report::{expanded, reported};
pub use worked::{
    worked_coefficients, worked_digits_of_spans, worked_expansions, worked_report_meanings,
    worked_reports, worked_signs, worked_small_estimates,
};
