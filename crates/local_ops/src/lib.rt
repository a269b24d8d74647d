//! Local operations on the mesh of a store: which tries can be made, and what becomes of one. A try that
//! is refused leaves the mesh as it was.
#![tactic(auto)]

mod apart;
mod attempts;
mod before;
mod candidates;
mod changing;
mod covering;
mod foreseeing;
mod judging;
mod measures;
mod moving;
mod refusals;
mod sides;
mod single;
mod smoothing;
mod surface;
mod swapping;
#[cfg(test)]
mod tests;
mod worsening;

pub use attempts::{attempt, attempt_on_once};
pub use candidates::is_candidate;
