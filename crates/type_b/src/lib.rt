//! The uncertainty that an input is stated with, its variance and its degrees of freedom (JCGM 100:2008,
//! 4.3, G.4.2).
#![tactic(auto)]

mod laws;
mod normal;
mod shape;
#[cfg(test)]
mod tests;
mod variances;

pub use laws::{
    digits_tell_values, variance_is_the_square_of_the_deviation, worked_degrees, worked_deviations,
    worked_spans, worked_variances,
};
pub use shape::{Dof, MOST_DEGREES, MOST_PERCENT, Shape, ShapeFault, are_degrees, check};
pub use variances::{deviation, states_deviation, variance};
