//! The input files of a run: a soup, and for a check a mesh and its report. Each is read, and then its
//! text; the first that does not serve says why, and with which line and status the run ends. `specs/`
//! says what files give one after the other.
#![tactic(auto)]

mod issue;
mod placing;
mod reading;
mod refusing;

pub use issue::InputIssue;
pub use placing::{place_soup, read_soup};
pub use reading::{read_mesh, read_raw, read_report};
pub use refusing::refuse;
