//! What is told of requirements: the verdict on each over a system, the lines that tell them, and whether all are met.
#![tactic(auto)]

mod found;
mod judgement;
mod judging;
mod lines;
mod requiring;
mod ruling;
mod tap;
mod told;

pub use judgement::Judgement;
pub use lines::verdicts_text;
pub use requiring::require;
pub use ruling::{Mark, Ruling};
pub use told::{LineForm, RequirementFault, Told};
