//! Bindings of components, connections and functions, as `properties` sections and braces behind members state them.
#![tactic(auto)]

mod binding;
mod braces;
mod laws;
mod piece;

pub use binding::{add_bindings, piece_binding};
pub use braces::add_braced;
pub use laws::{binding_reads, pieces_are_all};
pub use piece::{behind_brace, section_pieces};
