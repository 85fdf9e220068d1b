//! Rates of events, whose numbers are texts of a model that are passed on unchanged.
#![tactic(auto)]

mod field;
mod laws;
mod rate;

pub use laws::value_reads;
pub use rate::{Rate, RateKind, conservative_rates, gives_rate, rate_of, rate_word};
