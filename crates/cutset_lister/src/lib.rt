//! The sets of a family in listing order, one after the other, from any place on, and the texts of sets.
#![tactic(auto)]

mod laws;
mod moves;
mod parts;
mod path;
mod tokens;
mod walk;

pub use laws::{one_set, stays_started};
pub use tokens::{read_token, write_quoted, write_token};
pub use walk::Listing;
