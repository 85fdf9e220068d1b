//! By which further names the events of a component are rated: a state to which an event alone leads, and what stands for that state.
#![tactic(auto)]

mod key;
mod keys;
mod lone;
mod names;
mod texts;

pub use key::RateKey;
pub use keys::rate_keys;
