//! The probability of a target: what is known of its events, and bounds of how probable it is.
#![tactic(auto)]

mod bounds;
mod known;
mod told;

pub use bounds::{TargetBounds, target_bounds};
pub use known::{all_known, bounds_in, found_in, numeral_of};
pub use told::zeros;
