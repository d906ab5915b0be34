//! Decimal numbers of at most 18 digits, each sum of which is rounded down or up.
#![tactic(auto)]

mod arithmetic;
mod decimal;
mod direction;
#[cfg(test)]
mod edge_tests;
mod laws;
mod literal;
mod literal_laws;
#[cfg(test)]
mod literal_tests;
mod magnitude;
mod order;
mod powers;
mod print;
mod product;
mod quotient;
mod round;
mod sign;
mod significand;
mod sum;
#[cfg(test)]
mod tests;

pub use arithmetic::{
    add_down, add_up, div_down, div_up, mul_down, mul_up, ratio_down, ratio_up, sub_down, sub_up,
};
pub use decimal::Dec;
pub use laws::{
    down_is_greatest, one_canonical_form, order_is_that_of_values, up_is_least, worked_roundings,
    worked_texts,
};
pub use literal::{NumFault, are_digits, digits_value, parse};
pub use literal_laws::{
    digits_and_power_decide_bounds, printed_bounds_are_read_again, texts_spell_one_literal,
    worked_literals,
};
