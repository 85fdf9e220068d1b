//! Error type libraries: what the libraries of all packages declare, and which item of theirs a name of an error type means.
#![tactic(auto)]

mod course;
mod declarations;
mod id;
mod known;
mod laws;
mod library;
mod numbers;
mod scope;
mod search;
mod type_name;

pub use declarations::Declarations;
pub use id::ItemId;
pub use laws::types_print_apart;
pub use library::{Library, add_named, note_unknown};
pub use numbers::{is_type, types_by};
pub use scope::Scope;
pub use type_name::TypeName;
