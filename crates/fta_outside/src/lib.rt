//! The outside of the tool: where its files come from, where its text goes, and the reports that a caller hands in.
//!
//! A trait for each says what a read gives, what a write adds and what a report took, as far as that can be known, and
//! counts the faults.
//! `MemoryFiles` and `MemorySink` tell everything; `DiskFiles` and `StdSink` adapt the real files and streams, count
//! their faults, and tell nothing of what they hold.
#![tactic(auto)]

mod counts;
mod disk;
mod error;
mod faults;
mod lines;
mod memory;
mod outside;
mod report;
mod steps;
mod stream;

pub use counts::FamilyCounts;
pub use disk::DiskFiles;
pub use error::WriteError;
pub use lines::{Lines, write_lines};
pub use memory::{MemoryFiles, MemorySink};
pub use outside::{FileError, Files, Sink, SinkFailed, write_all};
pub use report::{Report, ReportFailed};
pub use steps::Steps;
pub use stream::StdSink;
