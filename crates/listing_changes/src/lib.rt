//! What changed between the minimal cut sets of a target in two systems, by the names of the events.
//!
//! The sets of the one system are gone through one after the other. Each is translated into the numbers of the events of the other one,
//! by a table that is made once, and looked up in the diagram of the other's sets.
#![tactic(auto)]

mod changing;
mod comparison;
mod containing;
mod cuts;
mod laws;
mod lines;
mod numbers;
mod side;
mod telling;

pub use changing::changes;
pub use laws::{one_text, told_sets};
pub use side::Side;
