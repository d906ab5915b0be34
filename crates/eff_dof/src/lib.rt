//! Effective degrees of freedom (JCGM 100:2008, G.4.1) from groups of inputs, or from parts of a variance, as far as spans
//! of these tell them.
#![tactic(auto)]

mod fault;
mod group_laws;
mod groups;
mod known;
mod laws;
mod least;
mod part;
mod range;
mod sum;
mod term;
#[cfg(test)]
mod tests;

pub use fault::DegreesFault;
pub use group_laws::{
    parts_have_the_variance, worked_group_degrees, worked_group_parts, worked_groups, worked_shares,
};
pub use groups::{degrees, degrees_of_group};
pub use known::effective;
pub use laws::{worked_degrees, worked_least, worked_parts, worked_terms};
pub use part::Part;
