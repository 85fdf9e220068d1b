//! Packages and their classifiers by name: what a package name or a reference to a classifier means where it stands.
#![tactic(auto)]

mod id;
mod index;
mod package;
mod table;
mod words;

pub use id::ClassifierId;
pub use index::Index;
pub use package::Package;
pub use table::add;
pub use words::Words;
