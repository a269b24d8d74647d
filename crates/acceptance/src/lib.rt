//! What the mesher makes is accepted by the check: laws about finished runs, and no code. The files of a
//! run keep the rules of their texts, no fault is found in them, and so it is with what was written of
//! them in a folder.
#![tactic(auto)]

mod laws;

pub use laws::{accepted_law, few_tracked_law, found_good_law, off_the_box_law};
