//! What the lines of a review say of a model: laws, which no program calls.
#![tactic(auto)]

mod laws;

pub use laws::{nothing_comes_of_silent_facts, nothing_comes_of_silent_lines};
