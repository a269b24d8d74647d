//! The cutting rule for one triangle: which edges of a tetrahedron a phase wants, in which plane it cuts
//! them, and which faces of a tetrahedron are in the triangle's section. It looks at points alone, and
//! serves every way to keep a mesh.
#![tactic(auto)]

mod bounds;
mod cuts;
mod edge;
mod section;
mod signs;
mod spread;
mod touch;
mod triangle;
mod wanted;

pub use bounds::Bounds;
pub use cuts::cut_between;
pub use edge::{Edge, sort_edges_once};
pub use section::{may_have_section, push_section, sort_faces_once};
pub use touch::Touch;
pub use triangle::CuttingTriangle;
pub use wanted::{push_along, push_crossed, push_wanted};
