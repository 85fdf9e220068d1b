//! Refusals of a group that are noted, part after part: the first of them, and as many as there is room for.
#![tactic(auto)]

mod refusals;

pub use refusals::Refusals;
