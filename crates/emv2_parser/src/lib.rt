//! The error model annex (EMV2) of AADL: its text read into the syntax types, by this project's grammar.
#![tactic(auto)]

mod behavior;
mod grammar;
mod machines;
mod propagations;

pub use grammar::{clause_inside, library_after};
