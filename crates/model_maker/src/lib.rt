//! A model made from a number, to try the tool on: pairs of parts, of each of which one fails.
#![tactic(auto)]

mod text;

pub use text::model_text;
