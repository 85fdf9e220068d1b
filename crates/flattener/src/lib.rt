//! A model as a system of facts and events: each fact with the formula that makes it hold.
#![tactic(auto)]

mod causes;
mod counts;
mod exits;
mod facts;
mod flat;
mod kind;
mod kinds;
mod laws;
mod numbers;
mod rows;
mod site;

pub use flat::flatten;
pub use laws::models_are_systems;
