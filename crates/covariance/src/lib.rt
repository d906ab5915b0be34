//! The variance of a quantity, and the covariance of two, by the law of propagation of uncertainty (JCGM
//! 100:2008, 5.1.2, 5.2.2): spans, from the spans of sensitivities and from groups of inputs.
#![tactic(auto)]

mod covariances;
mod gradient;
mod group;
mod group_list;
mod laws;
mod model_laws;
#[cfg(test)]
mod tests;
mod variances;

pub use covariances::covariance;
pub use gradient::Gradient;
pub use group::{Group, member_variance};
pub use group_list::GroupList;
pub use laws::{
    spans_enclose_the_law, worked_costs, worked_covariances, worked_groups_of_models,
    worked_renaming, worked_standard, worked_variances,
};
pub use model_laws::{
    covariances_are_enclosed, groups_have_the_inputs, parts_are_enclosed, renaming_changes_no_span,
    variances_are_enclosed,
};
pub use variances::{group_variance, meets, variance};
