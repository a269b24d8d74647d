//! The operations on meshes written plainly, over whole lists and with no index, for tests and for
//! whoever wants to see what an operation means. Each equals its definition.
#![tactic(auto)]

mod after;
mod attempting;
mod before;
mod cutting;
mod defects;
mod inserting;
mod judging;
mod order;
mod points;
mod refining;
mod results;
mod swaps;
mod targets;
#[cfg(test)]
mod tests;
mod wanted;

pub use attempting::{PlainTry, attempt_plain};
pub use inserting::{PlainInsert, insert_plain};
pub use refining::refine_plain;
