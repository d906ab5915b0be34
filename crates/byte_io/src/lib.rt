//! The traits by which a program meets the outside, and their implementations.
//!
//! A [`Source`] gives bytes and a [`Sink`] takes them, piece by piece. Each accounts for its failures
//! by a count of faults: a call answers [`Failed`] only where the count rose. [`write_all`] writes until a sink
//! took all bytes.
//!
//! - [`MemorySource`] and [`MemorySink`]: bytes in memory, with calls that are to fail.
//! - [`SureSource`] and [`SureSink`]: bytes in memory, with calls that never fail.
//! - [`StdSource`] and [`StdSink`]: a reader and a writer of the standard library. They are the trusted
//!   edge and tell no content.
#![tactic(auto)]

mod failed;
mod memory_sink;
mod memory_source;
mod prefix;
mod schedule;
mod sink;
mod source;
mod std_sink;
mod std_source;
mod sure_sink;
mod sure_source;
mod writes;

pub use failed::Failed;
pub use memory_sink::MemorySink;
pub use memory_source::MemorySource;
pub use sink::Sink;
pub use source::Source;
pub use std::alloc::AllocError as OutOfMemory;
pub use std_sink::StdSink;
pub use std_source::StdSource;
pub use sure_sink::SureSink;
pub use sure_source::SureSource;
pub use writes::write_all;

#[cfg(test)]
mod tests;
