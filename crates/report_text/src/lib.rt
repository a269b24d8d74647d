//! The text of a report: what became of each triangle and of each try, and the certificates of the
//! tracked faces.
#![tactic(auto)]

mod issue;
mod kinds;
mod laws;
mod put_lines;
mod put_words;
mod read_cert;
mod read_head;
mod read_journal;
mod read_kinds;
mod read_lists;
mod read_outcome;
mod read_second;
mod read_words;
mod report;
#[cfg(test)]
mod tests;
mod whole;
mod write;

pub use issue::ReportIssue;
pub use laws::{one_report_law, plain_law};
pub use report::{Covering, Report, Second};
pub use whole::read_report;
pub use write::write_report;
