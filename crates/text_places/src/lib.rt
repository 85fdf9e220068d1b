//! The place of a byte in a text, as a person looks for it: by line and column, with the line itself and a caret below the byte.
#![tactic(auto)]

mod columns;
mod lines;
mod mark;
mod places;
mod table;

pub use places::{line_and_column, place_text};
pub use table::LineTable;
