//! The law of propagation of uncertainty computed plainly, in exact fractions of 128 bits: a slow
//! program beside the definitions of `exact_law`, by which they are read against worked examples.
//!
//! A call answers `None`, or fails by [`Failure::TooWide`], where 128 bits do not hold a number on its
//! way. Every other answer is proved to be that of the definitions; that these two come only there is
//! not proved, and the tests show that the worked examples are held.
#![tactic(auto)]

mod covariances;
mod degrees;
#[cfg(test)]
mod digit_tests;
mod digits;
mod divisor;
mod evaluate;
mod fraction;
mod group;
mod interval_rule;
mod jet;
mod model;
mod place;
mod propagation;
mod rule;
mod sign;
#[cfg(test)]
mod tests;

pub use covariances::{covariance, joint, mean};
pub use degrees::{Degrees, Level, Share, effective, factor, inverse_degrees, whole_degrees};
pub use digits::{Digits, at_place, correlation, hundredths, two_digits};
pub use evaluate::{derivative, value};
pub use fraction::Exact;
pub use group::{Column, Group, Table};
pub use interval_rule::{Decision, Ends, Span, decide};
pub use model::{Body, Expression, Failure};
pub use propagation::{law, part_of};
pub use rule::{Form, Rule, Statement, stated};
