//! Cutting a store's mesh by a triangle: the phases that cut the edges which the cutting rule wants, the
//! first tetrahedron with an edge that is wanted still, and the faces of the triangle's section.
#![tactic(auto)]

mod first;
mod phases;
mod sections;
mod touching;
mod wanted;

pub use first::{first_wanted, first_wanted_among};
pub use phases::{phase, phase_among, refine_among, wanted_cuts};
pub use sections::{section, section_among};
pub use touching::{Touched, Touching, find_touching};
pub use wanted::corner_points;
