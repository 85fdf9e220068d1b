//! Phases: what passes a step of a command, and how it ends where nothing does; and how a run ends.
#![tactic(auto)]

mod status;

pub use status::Status;
