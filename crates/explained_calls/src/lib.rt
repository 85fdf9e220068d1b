//! `explain` with the words of another call behind it: why that call is refused.
#![tactic(auto)]

mod call;
mod closed;
mod explanation;
mod named;
mod near;
mod unplaced;

pub use call::run_explained;
