//! Derivations: why a set of events makes a fact hold, step by step, and a check of them that trusts no maker.
#![tactic(auto)]

mod by_rounds;
mod checking;
mod derivation;
mod gathering;
mod given;
mod laws;
mod marks;
mod once;
mod ordering;
mod reading;
mod text;
mod uses;
mod writing;

pub use by_rounds::derive;
pub use checking::check_derivation;
pub use derivation::{Derivation, Finding, Firing};
pub use laws::{confirmed, one_derivation, one_reading};
pub use text::{read_steps, step_place};
pub use writing::{write_derivation, write_step};
