//! The text of the review of a model: a line for each finding, with the place of what it names.
#![tactic(auto)]

mod text;

pub use text::review_text;
