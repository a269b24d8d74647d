//! The mesh of a placed soup: the background lattice, every triangle of the soup in turn, tries within a
//! budget, the same once more for what was rolled back, and the certificates of the tracked faces. `specs/`
//! says what that mesh and what is told of it are.
#![tactic(auto)]

mod coverings;
mod laws;
mod mesh;
mod parts;
#[cfg(test)]
mod tests;
mod turns;

pub use laws::one_mesh_law;
pub use mesh::{Meshed, mesh_soup};
