//! The rates of the events of a tree in Galileo text, with numbers as AADL writes them.
#![tactic(auto)]

mod numeral;
mod rates;

pub use rates::rates_of;
