//! The instance of a root classifier: its components in preorder, and the effective classifiers that they have.
#![tactic(auto)]

mod draft;
mod instance;
mod kinds;
mod laws;
mod occurrence;
mod path;
mod preorder;
mod steps;

pub use instance::Instance;
pub use kinds::Kind;
pub use laws::{components_are_in_order, components_are_reached, parents_come_first, paths_differ};
pub use occurrence::{Meant, Part, parts_of};
pub use path::{Component, Path};
