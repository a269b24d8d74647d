//! The points of a mesh, and its tetrahedra in numbered slots, of which the live ones in rising order
//! are the mesh's list. A slot is killed and revived in place, so that what changed can be undone.
#![tactic(auto)]

mod bins;
mod extents;
mod levels;
mod meeting;
mod place;
mod placing;
mod point_lists;
mod search;
mod slot;
mod slots;
mod sorting;

pub use slot::Slot;
pub use slots::Slots;
pub use sorting::rise;
