//! The error machine of a component, and its states.
#![tactic(auto)]

mod laws;
mod machines;
mod states;

pub use laws::events_by_first;
pub use machines::{MachineId, UsedMachine, find_machine, machine_at};
pub use states::{Events, States, states_of};
