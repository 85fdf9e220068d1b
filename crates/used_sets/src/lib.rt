//! The written sets that the items of a component use, and what is refused of their names.
#![tactic(auto)]

mod conditions;
mod faults;
mod items;
mod sets;

pub use faults::note_used_sets;
