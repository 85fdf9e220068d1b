//! What facts depend on: the reach of some facts, and the slice of a target, which is the reach of one.
//!
//! A marking goes from the facts to what occurs in their formulas and on; each fact's formula is looked at once, so the
//! time goes with the formulas that are reached.
#![tactic(auto)]

mod marking;
mod parts;
mod reaching;
mod slicing;
mod ways;

pub use parts::{Reach, Slice};
pub use reaching::{reach, reach_by, small_reach};
pub use slicing::slice;
pub use ways::Ways;
