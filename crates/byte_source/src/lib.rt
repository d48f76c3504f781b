//! A source of bytes as a trait, with a source in memory and the standard input.
//!
//! Callers see a source as a `SourceState` (`specs/Sources.antt`): the bytes that are left, if they are observable, and
//! how often it has failed. They are observable in memory, and not in streams. A source is read only while the sink
//! that belongs to it holds nothing back, so no reader waits for an answer that was written and not sent. Below:
//! `sky_io` for sinks and counts. There are no requests and no scripts here.
#![tactic(auto)]

pub mod mem_source;
pub mod read_source;
pub mod source;

pub use mem_source::MemSource;
pub use read_source::{InSource, ReadSource};
pub use source::{Next, Source};
