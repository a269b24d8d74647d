//! The outside of the mesher: files and an output, with counts of the faults that they made.
//!
//! `Folder` and `Sink` say what a program may rely on. `read_all`, `write_file` and `write_all`
//! work over any of them. `RealFolder` and `RealSink` are the system's files and its standard
//! output, `MemFolder` and `MemSink` are made for tests.
#![tactic(auto)]

mod folder;
mod mem_file;
mod mem_folder;
mod mem_place;
mod mem_sink;
mod read;
mod real_folder;
mod real_sink;
mod sink;
#[cfg(test)]
mod tests;
mod write;

pub use folder::{Failed, Folder, OpenIssue};
pub use mem_file::{CallKind, MemFail, MemFile};
pub use mem_folder::MemFolder;
pub use mem_sink::MemSink;
pub use read::{ReadIssue, read_all};
pub use real_folder::RealFolder;
pub use real_sink::RealSink;
pub use sink::Sink;
pub use write::{write_all, write_file};
