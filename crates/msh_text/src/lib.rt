//! The text of a mesh file, in the ASCII form 2.2 of Gmsh: what the file of a mesh holds (`msh_of`)
//! and its bytes (`write_msh`). A tetrahedron's physical tag is 1 where it is kept and 2 where it is
//! outside, and a tracked face's is 3.
#![tactic(auto)]

mod elements;
mod file_mesh;
mod issue;
mod kept;
mod laws;
mod marks;
mod of_lists;
mod read;
#[cfg(test)]
mod tests;
mod whole;
mod write;

pub use file_mesh::{MshMesh, MshNode, MshTet};
pub use issue::MshIssue;
pub use laws::{one_text_law, plain_law};
pub use of_lists::msh_of;
pub use whole::read_msh;
pub use write::{write_kept, write_msh};
