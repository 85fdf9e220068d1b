//! Answers on a system of facts and events, as text: a page of minimal cut sets or of minimal path sets, a tree, what reports say.
#![tactic(auto)]

mod answers;
mod chances;
mod cut_sets;
mod derivation_laws;
mod derivations_text;
mod drawn;
mod form;
mod fronts;
mod galileo;
mod galileo_laws;
mod path_pages;
mod probable;
mod reports;
mod target;
mod trees;

pub use answers::{cuts, paths, report, tree};
pub use chances::{ProbabilityForm, probability};
pub use cut_sets::{find_slice, page_writer};
pub use derivation_laws::{accepts_why, holds_where_accepted};
pub use derivations_text::{confirmed, why};
pub use drawn::draw;
pub use form::{TreeForm, TreeFormat, TreeText};
pub use galileo::{tree_paths, tree_sets};
pub use galileo_laws::lists_the_written_tree;
pub use probable::tree_probability;
pub use reports::names_of;
pub use target::find_target;
