//! Formulas: their grammar, how they are read from a text and printed, and the names in them.
#![tactic(auto)]

mod fault;
mod formula;
mod laws;
mod lexer;
mod machine;
mod name;
mod name_list;
mod parting;
mod print;
mod read;
mod rules;
#[cfg(test)]
mod tests;
mod token;
mod uses;
mod worked;

pub use fault::FormulaFault;
pub use formula::Formula;
pub use laws::{
    number_tokens_are_longest_literals, printed_text_is_read_again, reading_is_never_out_of_memory,
    reading_is_the_grammars, refusals_are_of_the_first_broken_rule,
    stages_are_the_prefixes_of_the_grammar, syntax_is_placed_at_the_first_wrong_token,
    what_is_read_has_exponents, what_spells_within_limits_is_read, worked_formulas,
};
pub use name::{Name, is_plain_name};
pub use name_list::NameList;
pub use parting::cut;
pub use print::{print_formula, put_formula};
pub use read::read_formula;
pub use uses::names;
pub use worked::{worked_prints, worked_readings, worked_refusals};
