/// An end of a span would be below -(10^18 - 1) or above 10^18 - 1.
#[derive(Clone, Copy, Debug, PartialEq, Eq)]
pub struct Overflow;

/// Why a quotient or a power has no span.
#[derive(Clone, Copy, Debug, PartialEq, Eq)]
pub enum ArithFault {
    /// 0 lies in the span of the divisor.
    ZeroDivisor,
    /// An end would be below -(10^18 - 1) or above 10^18 - 1.
    Overflow,
}

/// The answer to a question about the numbers in two spans.
#[derive(Clone, Copy, Debug, PartialEq, Eq)]
pub enum Truth {
    /// It is so for all of them.
    Yes,
    /// It is so for none of them.
    No,
    /// The spans do not tell.
    Unsettled,
}
