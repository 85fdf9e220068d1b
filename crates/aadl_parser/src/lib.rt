//! The core text of AADL: the units of a file read into the syntax types, by this project's grammar.
//!
//! The error model annexes of a file are read by `emv2_parser`, from the same tokens and in the same pass.
#![tactic(auto)]

mod aliases;
mod annexes;
mod classifiers;
mod connections;
mod features;
mod names;
mod nesting;
mod packages;
mod runs;
mod subcomponents;
mod text;
mod words;

pub use text::{one_file, units};
