//! The error models of the components of an instance, and what is refused of them. Components of one classifier share theirs.
#![tactic(auto)]

mod machines;
mod model;
mod models;
mod sets;
mod tree;

pub use machines::machines_of;
pub use model::ErrorModel;
pub use models::models_of;
pub use sets::test_sets;
