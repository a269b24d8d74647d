//! The pieces of a tetrahedron that is split at some of its edges in turn, written out for each set of
//! edges that can lie between two sides of a surface.
#![tactic(auto)]

mod list;
mod table;
#[cfg(test)]
mod tests;

pub use list::PieceList;
pub use table::{pieces, two_sided};
