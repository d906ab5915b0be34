use fixed_interval::ArithFault;

/// Why a formula has no span.
#[derive(Clone, Copy, Debug, PartialEq, Eq)]
pub enum EvalFault {
    /// An operation of the formula has no span.
    Arith(ArithFault),
    /// This use of a name, counted from 0 from the left, has no value.
    NoValue(usize),
}
