//! Reads and writes OFF texts. `specs/` says what the words of a text are and what they say, or which
//! refusal comes first, and which text a soup is written as.
#![tactic(auto)]

mod body;
mod coordinate;
mod field;
mod issue;
mod laws;
mod number;
mod read;
mod rounding;
mod scan;
mod spelling;
mod write;

pub use issue::{OffIssue, OffKind};
pub use laws::read_back_law;
pub use read::read_off;
pub use write::write_off;

#[cfg(test)]
mod tests;
