/// A read or a write that did not happen: nothing was taken or written, and the object's count of
/// faults rose (or stands at its last number, 2^64 - 1).
#[derive(Clone, Copy, Debug, PartialEq, Eq)]
pub struct Failed;
