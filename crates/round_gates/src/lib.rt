//! The static fault tree of a target whose facts may feed each other: each block of facts is unrolled into stages, each
//! stage of a fact is a tree of nodes, and simplification leaves the gates that are needed.
#![tactic(auto)]

mod building;
mod constants;
mod formulas;
mod joining;
mod laws;
mod limits;
mod node;
mod reaching;
mod staging;
mod tree;
mod unrolling;
mod walking;

pub use formulas::{gate_formula, input_formula, kind_formula};
pub use laws::{constant_targets, gate_formulas, last_stage, made_well, one_tree, tree_truth};
pub use node::GateKind;
pub use staging::staged;
pub use tree::{Gate, GateAnswer, Input, Tree};
