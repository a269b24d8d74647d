//! Judges a mesh file and a report against a soup, without trusting who made them (`verify`).
//!
//! The mesh of a file keeps the file's numbers: point n is the node of number n, moved into the box,
//! and a number that no node has stands for the origin, which no tetrahedron has.
#![tactic(auto)]

mod coverings;
mod fault;
mod header;
mod judgement;
mod laws;
mod points;
mod regions;
#[cfg(test)]
mod tests;
mod tets;
mod tracked;
mod triangle_lines;

pub use fault::{Fault, Finding};
pub use judgement::verify;
pub use laws::{one_finding_law, sound_law, written_law};
