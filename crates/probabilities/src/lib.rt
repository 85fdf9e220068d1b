//! Bounds of the probability of a family of sets of events: at least and at most how often the events that occur contain one
//! of its sets, where the events are independent.
#![tactic(auto)]

mod families;
mod importance;
mod laws;
mod rates;
mod steps;

pub use families::family_bounds;
pub use importance::{Importance, event_importance};
pub use laws::{all_outcomes, by_cases, ends, grows, lower_step, upper_step};
pub use rates::{Bounds, Rate};
