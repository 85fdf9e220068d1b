//! Facts with their formulas over events and facts, and which facts hold under a set of events.
#![tactic(auto)]

mod bits;
mod checks;
mod copies;
mod formula;
mod laws;
mod places;
mod rounds;
mod system;

pub use bits::{Bits, Numbers};
pub use checks::{Named, Names, is_system, names_differ};
pub use copies::copied_events;
pub use formula::{EventInfo, FactInfo, Formula};
pub use laws::{
    changed_table, checked_table, computed_listing, cover, join, one_listing, table_of_rounds,
};
pub use system::FaultSystem;
