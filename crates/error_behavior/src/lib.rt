//! The error behavior of a component: its events, where its transitions lead, and what its outgoing conditions send.
#![tactic(auto)]

mod behavior;
mod events;
mod steps;
mod transitions;
mod triggers;

pub use behavior::{ErrorBehavior, Texts, behavior_of};
pub use steps::{Emission, Origin, Step};
