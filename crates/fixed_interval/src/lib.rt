//! Spans: pairs of decimal numbers between which an exact number lies, and a counter of the steps
//! that make them.
#![tactic(auto)]

mod bounds;
mod corners;
mod counter;
#[cfg(test)]
mod edge_tests;
mod exact;
mod faults;
mod interval;
mod laws;
mod limits;
mod products;
#[cfg(test)]
mod tests;

pub use bounds::{greater, is_at_most, lesser};
pub use counter::Steps;
pub use faults::{ArithFault, Overflow, Truth};
pub use interval::{Span, add, ends, neg, plus, point, sub, with_term, zero};
pub use laws::{sums_enclose, worked_spans, worked_steps, worked_sums};
pub use limits::{at_most, cut, floor_at, ratio, share};
pub use products::{div, mul, pow, sqr};
