//! A mesh with transactions: every change is marked, and is undone from its mark. After a refused
//! change the mesh is the one at the begin of the transaction.
#![tactic(auto)]

mod filling;
mod issue;
mod listing;
mod planning;
mod splitting;
mod store;
mod swapping;
mod touching;
mod undoing;

pub use issue::StoreIssue;
pub use store::Store;
pub use swapping::{first_across, first_at_face, outside_corner};
