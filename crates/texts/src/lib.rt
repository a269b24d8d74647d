//! Bytes appended to a text.
#![tactic(auto)]

mod write;

pub use write::{put, put_number};
