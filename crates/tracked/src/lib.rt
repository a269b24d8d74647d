//! The tracked faces of a mesh: keys in the order in which they were made, each in or out. Those that
//! are in, in rising order, are the tracked faces. An index gives the keys at a point.
#![tactic(auto)]

mod index;
mod table;
#[cfg(test)]
mod tests;

pub use table::{Added, Tracked};
