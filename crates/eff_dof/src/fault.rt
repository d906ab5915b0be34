/// Why the effective degrees of freedom of a quantity are not found.
#[derive(Clone, Copy, Debug, PartialEq, Eq)]
pub enum DegreesFault {
    /// An operation on the way leaves the range of bounds.
    Overflow,
    /// There was no memory for the list of the parts.
    OutOfMemory,
}
