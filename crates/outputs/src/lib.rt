//! What a run writes: the files of a mesh, of its report and of its kept part, and the line that sums it
//! up. `specs/` says what they hold, and what the writes leave.
#![tactic(auto)]

mod laws;
mod mesh_files;
mod output;
mod request;
mod summary;

pub use laws::one_output_law;
pub use mesh_files::{make, out_file};
pub use output::{OutFile, Texts, write_texts};
pub use request::{Asked, Names};
