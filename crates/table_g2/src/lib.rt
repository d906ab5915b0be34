//! Coverage factors by effective degrees of freedom (JCGM 100:2008, G.4.1, Table G.2).
#![tactic(auto)]

mod factors;
mod known;
mod laws;
mod sayings;
mod settled;
mod table;
#[cfg(test)]
mod tests;
mod whole;

pub use factors::factor;
pub use known::{Level, Nu, TOLD_APART};
pub use laws::{
    whole_part_has_the_row, worked_conditions, worked_degrees, worked_points, worked_spans,
};
pub use sayings::{worked_meanings, worked_sayings};
pub use settled::{DofSaid, said};
