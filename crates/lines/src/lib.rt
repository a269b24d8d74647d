//! Fields of texts that are read exactly: text that is always the same, and numbers in their one
//! spelling. What is due in a text, field after field, is a form (`specs/`): a reader answers what the
//! text says by its form, or where the text breaks it.
#![tactic(auto)]

mod decimals;
mod digits;
mod fixed;
mod line;
mod stop;
mod write;

pub use decimals::read_coordinate;
pub use digits::read_number;
pub use fixed::{read_fixed, read_lines, strip_text};
pub use line::line_at;
pub use stop::Stop;
pub use write::put_coordinate;
