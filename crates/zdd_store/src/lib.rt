//! The store of shared diagrams: zero-suppressed decision diagrams over numbers of events, each node once.
//!
//! A number of the store stands for a family of sets, and contracts see a store as the list of the families of its
//! numbers. Equal families have equal numbers, and the family of a number never changes.
#![tactic(auto)]

mod answers;
mod id;
mod question;
mod shapes;
mod store;

pub use id::{Id, Node};
pub use question::{Operation, Question};
pub use shapes::Shape;
pub use store::Store;
