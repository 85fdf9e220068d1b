//! The lines of the review of a model, each with where that stands which it names.
#![tactic(auto)]

mod line;
mod lines;
mod spots;

pub use line::ReviewLine;
pub use lines::review_lines;
