//! The rates of the events of a model (EMV2: `OccurrenceDistribution`): for each event the association that counts, and what it gives;
//! and the rates that are said of no event.
#![tactic(auto)]

mod kinds;
mod rates;
mod table;
mod unused;

pub use rates::{rated_of, rates_of};
pub use unused::{UnusedRate, unused_rates};
