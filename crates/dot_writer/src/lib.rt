//! Static fault trees as pictures, in the language of Graphviz (DOT).
#![tactic(auto)]

mod boxes;
mod dot_lines;
mod gates;
mod laws;
mod leaves;
mod parts;
mod sheet;
mod shown;
mod usages;
mod words;

pub use dot_lines::DotLines;
pub use laws::one_tree;
pub use leaves::is_mark;
pub use sheet::Title;
