//! The sensitivities of a quantity to all on which it depends, by one sweep from users to what they use.
#![tactic(auto)]

mod fault;
mod laws;
mod sweep;

pub use fault::GradFault;
pub use laws::{
    gradients_are_enclosed, renaming_changes_no_evaluation, renaming_changes_no_sensitivity,
    sensitivities_are_enclosed, worked_overflow, worked_premises, worked_sensitivities,
};
pub use sweep::gradient;
