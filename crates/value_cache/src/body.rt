use decimal18::Dec;
use dep_graph::IdList;
use formula_ast::{Formula, NameList};
use std::rc::Rc;
use type_a::Readings;

/// What a quantity is, where quantities are known by numbers.
#[derive(Drop, Debug)]
pub enum Body {
    /// An input, by its estimate.
    Point(Dec),
    /// The mean of a column of readings, by the column's place.
    Column(Rc<Readings>, usize),
    /// A formula over other quantities.
    Formula {
        /// The formula.
        formula: Rc<Formula>,
        /// The names in it, each once, in the order of first use.
        names: NameList,
        /// For each of these names the quantity for which it stands.
        ids: IdList,
    },
}
