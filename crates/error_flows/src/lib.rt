//! The error flows of a component: what its sources and paths mean, what its sinks take, and what is refused of them.
#![tactic(auto)]

mod flows;
mod meaning;

pub use flows::flows_of;
pub use meaning::{FlowMeaning, Flows};
