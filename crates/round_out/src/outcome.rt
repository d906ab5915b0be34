use decimal18::Dec;

/// What spans of an estimate and of a variance tell of the estimate with its uncertainty, the root of the variance,
/// rounded to the place of the uncertainty's second digit (JCGM 100:2008, 7.2.6). Both are in the unit of the estimate.
#[derive(Clone, Copy, Debug, PartialEq, Eq)]
pub enum Reported {
    /// The uncertainty is 0, and the estimate is this number.
    Exact(Dec),
    /// They are rounded to these numbers of units of a decimal place.
    Rounded {
        /// The estimate, in units of 10^`e`.
        estimate: i128,
        /// The uncertainty in the same units, from 10 to 99.
        m: u8,
        /// The exponent of the power of ten that is the unit, from -19 to 8.
        e: i8,
    },
    /// The spans settle no digits of the uncertainty, or no estimate at their place.
    Unsettled,
}
