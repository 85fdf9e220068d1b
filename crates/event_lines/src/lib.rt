//! The text on the events of a model: a line for each, with its kind, its rate, and where it is declared.
#![tactic(auto)]

mod text;

pub use text::{events_text, file_word};
