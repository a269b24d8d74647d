//! The pieces of a tetrahedron or of a tracked face that a list of cuts splits it into, one cut after
//! the other.
#![tactic(auto)]

mod simplex;
mod splitting;

pub use simplex::Simplex;
pub use splitting::{is_touched, split};
