//! Requirements on the targets of a model, as a text has them: groups of parts and of events, and sentences on what may make a
//! target hold.
#![tactic(auto)]

mod number;
mod reading;
mod sentence;
mod words;

pub use reading::{Fault, Group, GroupKind, Requirement, Requirements, requirements_of};
pub use sentence::Sentence;
pub use words::PlacedWord;
