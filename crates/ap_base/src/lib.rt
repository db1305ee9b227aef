//! The outside: sources and sinks that count their faults, the statuses, and the budget of a run.
#![tactic(auto)]

mod budget;
mod fakes;
mod files;
mod mem_sink;
mod mem_source;
mod outside;
mod reading;
mod status;
mod writing;

pub use budget::Budget;
pub use files::{FileSink, FileSource, OutSink};
pub use mem_sink::MemSink;
pub use mem_source::{MemSource, NamedBytes};
pub use outside::{Failed, Sink, Source};
pub use reading::{MAX_BYTES, ReadFault, read_all};
pub use status::Status;
pub use writing::write_all;

#[cfg(test)]
mod tests;
