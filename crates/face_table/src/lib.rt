//! Counts of oriented faces, and whether the faces of a list of tetrahedra pair.
#![tactic(auto)]

mod pairs;
mod table;
#[cfg(test)]
mod tests;

pub use pairs::{Paired, pairing};
pub use table::FaceTable;
