//! What `help`, `version` and `explain` write.
#![tactic(auto)]

mod commands;
mod explained;
mod explanations;
mod texts;
mod usage;

pub use explained::{codes_are_explained, explain_text};
pub use texts::{help_text, program_text, version_text};
pub use usage::{before_sign, name_in, push_usage};
