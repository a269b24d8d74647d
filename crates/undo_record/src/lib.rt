//! A record of the changes of a mesh, from which they are undone, the last one first.
#![tactic(auto)]

mod mark;
mod undo;

pub use mark::Mark;
pub use undo::Undo;
