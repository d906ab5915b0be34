//! The measurement model of a sheet (JCGM 100:2008, 4.1): its quantities, and the groups of its inputs over which the law
//! of propagation of uncertainty is a sum.
#![tactic(auto)]

mod groups;
mod laws;
mod numbering;
mod statements;
mod variances;

pub use groups::group_names;
pub use laws::{
    budgets_have_the_inputs_and_the_groups, groups_part_the_inputs, worked_groups, worked_names,
    worked_quantities,
};
pub use numbering::Numbered;
pub use variances::{InputVariance, VarianceList, input_variances};
