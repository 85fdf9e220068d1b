//! The lines of refusals: one each, with the file, the line and the column, the code and its name.
#![tactic(auto)]

mod gathering;
mod line;
mod text;

pub use text::{MOST_REFUSALS, group_text};
