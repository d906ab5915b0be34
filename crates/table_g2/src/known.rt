use decimal18::Dec;

/// The level of confidence for which a coverage factor is asked: a column of Table G.2 of JCGM 100:2008.
#[derive(Clone, Copy, Debug, PartialEq, Eq)]
pub enum Level {
    /// 95 percent.
    L95,
    /// 95.45 percent, two standard deviations of a normal distribution.
    L9545,
    /// 99 percent.
    L99,
}

/// Effective degrees of freedom as far as they are known.
#[derive(Clone, Copy, Debug, PartialEq, Eq)]
pub enum Nu {
    /// There are none: the variance is 0.
    None,
    /// Infinitely many.
    Infinite,
    /// At least so many, and at most so many.
    Range {
        /// The lower end, which is at least 1.
        lo: Dec,
        /// The upper end; where it is missing they may be infinite.
        hi: Option<Dec>,
    },
}

/// From here on degrees of freedom are not told apart.
pub const TOLD_APART: i32 = 1_000_000_000;
