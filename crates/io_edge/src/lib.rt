//! The outside of the program: sources of bytes and sinks of bytes, each with a count of its faults.
//!
//! [`MemorySource`] and [`MemorySink`] work in memory and fail at the calls that they are told to,
//! [`SureSource`] and [`SureSink`] never fail, and [`StdSource`] and [`StdSink`] are standard input
//! and output.
#![tactic(auto)]

mod filling;
mod memory_sink;
mod memory_source;
mod plan;
mod standard;
mod sure;
#[cfg(test)]
mod tests;
mod traits;

pub use memory_sink::MemorySink;
pub use memory_source::MemorySource;
pub use standard::{StdSink, StdSource};
pub use sure::{SureSink, SureSource};
pub use traits::{Failed, Sink, Source};
