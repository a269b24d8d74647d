//! Meshes as lists, the edges to cut them by, certificates, and what became of triangles and tries.
//! `specs/` defines the background lattice, refinement, the insertion of a triangle, tries with their
//! results and verdicts, and journals. `laws` states what holds of these definitions alone.
#![tactic(auto)]

mod cert;
mod cut;
mod laws;
mod lists;
mod outcome;
mod tries;

pub use cert::Cert;
pub use cut::Cut;
pub use laws::{
    all_outside_law, cover_law, gone_law, hull_law, inside_law, interior_face_law, journal_law,
    prefix_law, refinement_law, rim_star_law, star_law, stays_sound_law, tiling_law, tries_law,
    turns_law, verdict_law,
};
pub use lists::Lists;
pub use outcome::{Again, Defect, Outcome};
pub use tries::{End, Journal, Try, TryLine, Verdict, Why};
