//! What the values of properties of hazards say (EMV2, ARP4761, MILSTD882: `Hazards`, `Severity`, `Likelihood`): the records of hazards, and the text of
//! a value.
#![tactic(auto)]

mod field;
mod item;
mod laws;
mod record;
mod text;

pub use laws::{list_reads, value_reads};
pub use record::{HazardRecord, records_of};
pub use text::text_of;
