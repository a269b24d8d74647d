//! Owned containers that contracts see as what they hold: a `Vec` as its list, a `String` as its
//! bytes. A struct with such fields is in clauses a record of plain lists and numbers, and two values
//! are equal where the records are.
#![tactic(auto)]

mod list;
mod text;

pub use list::Items;
pub use text::Text;
