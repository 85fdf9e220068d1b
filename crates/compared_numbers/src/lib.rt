//! Numbers that texts have, compared exactly: with 1, with nothing, and with decimals that are parts of a whole.
#![tactic(auto)]

mod compared;
mod powers;

pub use compared::{is_at_most, is_limit, is_time};
