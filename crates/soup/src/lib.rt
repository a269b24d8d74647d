//! Input soups of triangles, and their placement in a box of the grid. `specs/` defines the box: its
//! side, its shift and the placed triangles.
#![tactic(auto)]

mod measure;
mod moves;
mod placing;
mod range;
mod raw;
mod sides;
mod terrain;

pub use placing::{PlaceIssue, place};
pub use raw::{Raw, Soup};
pub use terrain::height_field;

#[cfg(test)]
mod tests;
