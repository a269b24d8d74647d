//! The command that checks files: a mesh and its report are read and judged for a soup, and one line tells
//! what was found. It trusts nothing of who made them.
#![tactic(auto)]

mod case;
mod command;
mod finding;

pub use command::check;
