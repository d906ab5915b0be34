//! The graph of which quantity uses which: nodes in order, each with the nodes that it uses, by numbers.
//!
//! What depends on what is defined by what can be reached over these pairs (`specs/Reaching.antt`), with no
//! word of an order: the search is right in any graph.
#![tactic(auto)]

mod graph;
mod id;
mod id_list;
mod laws;
mod way;

pub use graph::Graph;
pub use id::Id;
pub use id_list::IdList;
pub use laws::{cones_are_lists, dependents_are_lists, users_are_those_that_use, worked_diamond};
