//! The program as a function of its words, its files and its output.
#![tactic(auto)]

mod height_field;
mod meshing;
mod program;
#[cfg(test)]
mod tests;

pub use program::run;
