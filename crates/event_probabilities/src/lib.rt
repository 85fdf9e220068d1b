//! What the rates of a model say of the probabilities of its events: bounds, in decimals that are rounded outward.
#![tactic(auto)]

mod finding;
mod lambda;
mod numbers;
mod rating;

pub use finding::Found;
pub use rating::{EventRate, event_rate};
