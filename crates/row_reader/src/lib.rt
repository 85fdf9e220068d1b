//! What the program `rows` reads, tries and prints, but for the tool itself: files of rows, the texts that stand in them, the tokens
//! and values that the readers of text make of a text, and what a Galileo text comes to. It is no part of the tool.
#![tactic(auto)]

mod condition_value;
mod core_value;
mod error_value;
mod expand;
mod files;
mod galileo;
mod reading;
mod report;
mod row;
mod sheet;
mod text;
mod value;

pub use expand::{Texts, cut, number_of};
pub use files::run_files;
pub use row::{Row, has_key, head_and_body};
pub use sheet::Tool;
pub use text::Text;
