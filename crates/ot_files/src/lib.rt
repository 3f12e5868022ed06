//! The outside of the program: files by name and an output, each with a count of its faults,
//! so that every answer that names a fault is tied to one.
#![tactic(auto)]

mod access;
mod calls;
mod lines;
mod mem_files;
mod mem_sink;
mod output;
mod replacing;
mod std_files;
mod std_sink;
mod sure_files;
mod sure_sink;

pub use access::{FileError, Files};
pub use lines::write_line;
pub use mem_files::MemFiles;
pub use mem_sink::MemSink;
pub use output::{Sink, SinkError};
pub use std_files::{FileFault, StdFiles};
pub use std_sink::StdSink;
pub use sure_files::SureFiles;
pub use sure_sink::SureSink;
