//! The background mesh: the box cut into cubes, and each cube into the six tetrahedra of Kuhn's
//! subdivision.
#![tactic(auto)]

mod subdivision;
#[cfg(test)]
mod tests;

pub use subdivision::lattice;
