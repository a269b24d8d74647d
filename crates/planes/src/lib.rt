//! Planes of triangles and of their sides: on which side of a plane a point lies, which points lie so
//! close to it that they count as on it, and where a segment crosses it.
#![tactic(auto)]

mod mean;
mod plane;
#[cfg(test)]
mod tests;
mod triangle;

pub use plane::Plane;
pub use triangle::{plane_of, side_plane};
