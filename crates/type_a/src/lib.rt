//! Joint readings of quantities, evaluated by statistics: the means, and the covariances of the means
//! (JCGM 100:2008, 4.2, 5.2.3, H.2).
#![tactic(auto)]

mod checks;
mod coefficients;
mod laws;
mod readings;
mod sums;
mod taken;
#[cfg(test)]
mod tests;

pub use laws::{worked_refusals, worked_spans};
pub use readings::{Readings, ReadingsFault};
