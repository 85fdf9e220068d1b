//! Merged gates: a tree in which gates of one input and equal gates are gone, and a gate with one parent of its own kind is
//! joined to that.
#![tactic(auto)]

mod checks;
mod counting;
mod events;
mod folding;
mod gates;
mod inputs;
mod joining;
mod merging;
mod ordering;
mod parents;
mod shapes;

pub use merging::merged;
