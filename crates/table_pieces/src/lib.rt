//! The pieces of a tetrahedron that a list of cuts splits it into, all at once from the table of the set
//! of its edges that are cut.
#![tactic(auto)]

mod corners;
mod labels;
mod making;
#[cfg(test)]
mod tests;

pub use making::push_pieces;
