//! Profiles: how the text of a model is read.
#![tactic(auto)]

mod profile;

pub use profile::Profile;
