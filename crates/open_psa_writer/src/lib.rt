//! Static fault trees as texts of the Open-PSA Model Exchange Format, and what it means that such a text is true for a set of basic
//! events.
#![tactic(auto)]

mod gates;
mod laws;
mod names;
mod numbers;
mod parts;
mod tree_lines;

pub use laws::{based_worth, may_be_written, mef_reads_back, mef_truth, one_mef};
pub use tree_lines::{MefLines, Place};
