//! The first minimal cut set that the sentence of a requirement forbids, found by the engine with the least orders that serve.
#![tactic(auto)]

mod families;
mod forbidden;
mod found;
mod judged;
mod searching;

pub use forbidden::first_forbidden;
pub use found::FoundFamily;
pub use judged::Judged;
