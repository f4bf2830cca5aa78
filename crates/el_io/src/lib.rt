//! The outside: files, sinks and gates, as traits with a written meaning.
//!
//! Each trait has ghost members, which say what an object of it is: what it holds, what was written to
//! it, how often it failed. A count never falls; it stands still at 2^64 - 1, its last value.
#![tactic(auto)]

mod files;
mod gate;
mod host;
mod memory_files;
mod memory_sink;
mod sink;

pub use files::{FileFail, Files, Got};
pub use gate::{Gate, Open};
pub use host::{HostFiles, HostSink};
pub use memory_files::MemFiles;
pub use memory_sink::MemSink;
pub use sink::{Sink, SinkFail, WriteFault, write_all};
