//! Verdicts on requirements over the probability of a target: whether its upper bound is at most a number.
#![tactic(auto)]

mod judging;
mod laws;
mod verdict;

pub use judging::{early_probability, late_probability};
pub use laws::met_is_kept;
pub use verdict::ProbabilityVerdict;
