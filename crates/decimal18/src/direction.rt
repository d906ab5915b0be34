/// Where a number that is no bound is rounded to.
#[derive(Clone, Copy, Debug, PartialEq, Eq)]
pub enum Direction {
    /// To the greatest bound below it.
    Down,
    /// To the least bound above it.
    Up,
}
