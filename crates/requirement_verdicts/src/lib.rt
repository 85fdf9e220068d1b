//! Verdicts on requirements over the sets of error events that make a target hold: what each means, by what holds under sets of events, and
//! which it is, where the first minimal cut set is known that the sentence forbids.
#![tactic(auto)]

mod judging;
mod laws;
mod stale;
mod verdict;

pub use judging::{early_verdict, late_verdict};
pub use laws::{grows, kept_by_minimal_sets, one_verdict};
pub use verdict::Verdict;
