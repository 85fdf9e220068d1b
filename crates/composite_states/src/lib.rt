//! The composite error states of a component: in which states of the components below, and on what comes in, it is in a state of
//! its own.
#![tactic(auto)]

mod below;
mod clauses;
mod laws;
mod meaning;

pub use below::StatesBelow;
pub use clauses::clauses_of;
pub use laws::covers_state;
pub use meaning::ClauseMeaning;
