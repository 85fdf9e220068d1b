//! Bounds of the probability of a target by its smallest minimal cut sets, where all of them are too many: at least how often one of
//! these occurs, and at most how often one of these or more events than they have.
#![tactic(auto)]

mod bounds;
mod laws;
mod many;
mod target;
mod to_order;

pub use laws::small_or_many;
pub use target::target_bounds_to_order;
pub use to_order::bounds_to_order;
