//! The FMEA sheet of a model: a line for each event, with what it is, its rate, and what it makes hold alone, as comma-separated values.
#![tactic(auto)]

mod cells;
mod entries;
mod fields;
mod laws;
mod places;
mod sheet_lines;

pub use laws::{reached_alone, reads_back};
pub use sheet_lines::SheetLines;
