//! Static fault trees as Galileo texts, and what it means that such a text is true for a set of basic events.
#![tactic(auto)]

mod laws;
mod lines;
mod tree_lines;

pub use laws::{gates_differ, one_text, text_truth};
pub use lines::gate_name;
pub use tree_lines::TreeLines;
