//! Points, triangles, tetrahedra and oriented faces on a grid of whole numbers, and the definitions
//! that everything above speaks of: `specs/` has volume, faces, tiling, distance, planes, energy and
//! regions.
#![tactic(auto)]

mod boxes;
mod determinants;
mod limits;
mod memory;
mod shapes;
#[cfg(test)]
mod tests;

pub use boxes::sides;
pub use determinants::{det, sq_dist};
pub use limits::{LARGEST_SIDE, MOST_EPSILON, MOST_INPUT, MOST_MADE, MOST_POINTS};
pub use memory::Memory;
pub use shapes::{Face, Point, Tet, Tri};
