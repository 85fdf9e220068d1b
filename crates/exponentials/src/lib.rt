//! Bounds of 1 - e^(-x), the probability that an exponential distribution gives, in decimals that are rounded outward.
//!
//! No real number and no float comes up: what is said is said of the fractions that are no less, and of those that are no more, than what
//! the partial sums of the series come to.
#![tactic(auto)]

mod halving;
mod series;
mod span;

pub use halving::{Chance, chance_of};
pub use span::Span;
