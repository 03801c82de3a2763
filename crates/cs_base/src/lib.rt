//! Bytes in and bytes out, at the edge of the program.
//!
//! What it is for: every crate above reads from a [`Source`] and writes to a [`Sink`], so that no other crate touches
//! a file or a terminal, and so that a call can say what it read, what it wrote and why it gave up.
//!
//! What contracts see: a source as the bytes that are left, where it tells them, and a count of faults; a sink as the
//! bytes written, where it tells them, and a count of faults. A count never falls. `MemSource` and `MemSink` tell
//! their bytes, and which of their calls fail is stated; `StdSource` tells nothing but its count, and `StdSink` the bytes
//! that its writer tells.
//!
//! What it promises: a call answers `Failed` only where the count of that source or sink rose in the call, and then it
//! took or appended nothing. [`read_all`] gives all bytes, and [`write_whole`] appends all of them or says that it didn't.
//!
//! What it stands on: nothing but std. That `StdSource` passes on the real bytes is trusted.
#![tactic(auto)]

mod failed;
mod memory_sink;
mod memory_source;
mod reading;
mod sink;
mod source;
mod status;
mod std_sink;
mod std_source;
#[cfg(test)]
mod tests;
mod words;
mod writing;

// Where bytes come from.
pub use memory_source::MemSource;
pub use source::Source;
pub use std_source::StdSource;

// Where bytes go.
pub use memory_sink::MemSink;
pub use sink::Sink;
pub use std_sink::StdSink;

// All bytes at once.
pub use reading::{ReadFault, Whole, read_all};
pub use writing::write_whole;

// What failed, what the program was told, and how it ends.
pub use failed::Failed;
pub use status::Status;
pub use words::Words;
