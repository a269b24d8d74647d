//! Lines that are printed to an output, and the statuses that a run ends with.
#![tactic(auto)]

mod output;
pub mod status;

pub use output::{say, say_name, say_three, say_two};
