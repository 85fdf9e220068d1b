//! The names of requirements, resolved over a model: targets as numbers of facts, groups and exceptions as sets of events, or the first
//! word that names nothing.
#![tactic(auto)]

mod first;
mod groups;
mod laws;
mod mistake;
mod model;
mod named;
mod names;
mod resolving;
mod sets;
mod wrong;

pub use laws::{first_is_first, named_fit};
pub use mistake::{Mistake, NameFault, WrongWord};
pub use model::ModelNames;
pub use named::{NamedRequirement, NamedSentence, SetSentence};
pub use resolving::resolved;
pub use sets::set_named;
