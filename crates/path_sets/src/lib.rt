//! The minimal path sets of a target: the smallest sets of events whose absence keeps it from holding.
//!
//! They are the minimal cut sets of the dual, in which `and` and `or` are exchanged. Only a system in which no fact reaches
//! itself has a dual of this form, so of others the gates of the target's tree are taken, in which feedback is unrolled.
#![tactic(auto)]

mod duals;
mod families;
mod gate_systems;
mod laws;
mod targets;

pub use duals::dual;
pub use families::{PathFamily, paths};
pub use gate_systems::gate_system;
pub use laws::{
    absent_events, constant_listing, dual_law, gate_paths, listed_cuts, needed_events,
    one_path_listing, one_path_refusal, path_law,
};
pub use targets::target_paths;
