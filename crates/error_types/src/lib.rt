//! Error types: which types a written set denotes, and which types are below which.
#![tactic(auto)]

mod denoted;
mod endings;
mod hierarchy;
mod memory;
mod needs;
mod noerror;
mod reach;
mod reading;
mod row;
mod settle;
mod table;
mod trip;
mod walk;

pub use reading::Reading;
pub use table::TypeTable;
