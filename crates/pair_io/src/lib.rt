//! The outside of the program: files that are read whole, and a sink that takes bytes. The program is
//! generic over both. `MemFiles` and `MemSink` lie in memory, `RealFiles` and `RealSink` stand over the
//! files and the standard output of std.
#![tactic(auto)]

mod files;
mod mem_files;
mod mem_sink;
mod real_files;
mod real_sink;
mod sink;

pub use files::{Files, FilesError};
pub use mem_files::MemFiles;
pub use mem_sink::MemSink;
pub use real_files::{Opener, RealFiles, StdOpener};
pub use real_sink::RealSink;
pub use sink::{Failed, Sink};
