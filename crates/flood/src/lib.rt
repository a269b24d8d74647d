//! Regions of a mesh: a tetrahedron is outside where it can be reached, through faces that are not
//! tracked, from a tetrahedron with a loose face.
//!
//! A half-face is an oriented face of one tetrahedron: half-face h is face h % 4 of tetrahedron
//! h / 4. Half-faces with the same corners lie on one facet. `facets` numbers the facets and lists
//! the half-faces of each, `conditions` tells which facets are tracked and which are loose, and
//! `flood` reaches the tetrahedra from facet to facet.
#![tactic(auto)]

mod conditions;
mod facets;
mod flood;
mod regions;
#[cfg(test)]
mod tests;

pub use regions::outside;
