//! The model of a root in packages, phase by phase: its components, their error models, its links, and its system.
#![tactic(auto)]

mod events;
mod flat;
mod kinds;
mod review;
mod system;

pub use events::EventModel;
pub use flat::{FlatModel, FromAssembly, assembled, noted_alone};
pub use review::ReviewedModel;
