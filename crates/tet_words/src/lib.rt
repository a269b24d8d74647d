//! The words of the command line: the job that they ask for, or the first fault in them. The commands,
//! their options and what each word means are defined in `specs/`.
#![tactic(auto)]

mod commands;
mod fault;
mod job;
mod names;
mod numbers;
mod parsing;
mod sorting;
#[cfg(test)]
mod tests;

pub use fault::{WordFault, WordsIssue};
pub use job::{CheckJob, DemoJob, Job, MeshJob};
pub use parsing::parse;
