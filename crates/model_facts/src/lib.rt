//! The facts and the events of a model, in order, with their numbers and their names.
#![tactic(auto)]

mod assembly;
mod event_list;
mod events;
mod fact_list;
mod facts;
mod keys;
mod laws;
mod linked;
mod lists;
mod named;
mod names;
mod sides;
mod universe;

pub use assembly::{Assembly, points_of_models};
pub use events::EventTable;
pub use facts::FactTable;
pub use keys::{EventKey, EventKind, FactKey, FactKind};
pub use laws::{
    event_names_are_plain, event_names_differ, fact_names_are_plain, fact_names_differ,
};
pub use named::are_named;
pub use names::{event_key, event_name, fact_name, point_name, state_name};
pub use universe::universe_of;
