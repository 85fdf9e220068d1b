//! The hazards of a model (EMV2, ARP4761, MILSTD882: `Hazards`, `Severity`, `Likelihood`): what each record says, and of which facts and events.
#![tactic(auto)]

mod associations;
mod hazard;
mod hazards;
mod keys;
mod meaning;
mod numbers;
mod rows;
mod site;
mod target;
mod whole;

pub use hazard::Hazard;
pub use hazards::hazards_of;
