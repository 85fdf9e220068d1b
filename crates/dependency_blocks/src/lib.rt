//! Blocks of facts that depend on one another.
//!
//! A search along paths proposes them, and linear tests decide; nothing of the search is trusted. Where the tests say
//! no, plain reach finds them.
#![tactic(auto)]

mod block_table;
mod checks;
mod finder;
mod finding;
mod ranking;

pub use block_table::Blocks;
pub use finding::{all_blocks, all_facts, blocks};
