//! Bindings that a profile reads, and that name what is not there.
#![tactic(auto)]

mod places;
mod stray;

pub use stray::{StrayBinding, stray_bindings};
