ghost use Rattle.std.specs.Prelude.{◌≡◌};

use crate::node::GateKind;
use plain_values::{List, Refusal};
use std::alloc::{AllocError, AllocFailed};

/// An input of a gate.
#[derive(Clone, Copy)]
pub enum Input {
    /// The event of this number.
    Event(u32),
    /// The gate at this position of the tree.
    Gate(u32),
}

/// A gate: the fact, the stage of it, counted from 1, and the place in its formula, counted in preorder from 0, where it
/// stands, and its inputs in order, none of them twice.
#[derive(Drop)]
pub struct Gate {
    pub fact: u32,
    pub stage: u32,
    pub place: u32,
    pub kind: GateKind,
    pub inputs: List<Input>,
}

/// A tree: the position of its top gate, its gates by fact, stage and place, and the numbers of its events, rising.
#[derive(Drop)]
pub struct Tree {
    pub top: u32,
    pub gates: List<Gate>,
    pub events: List<u32>,
}

/// Why there is no tree.
#[derive(Drop)]
pub enum GateAnswer {
    /// The target always holds, or never.
    Constant(bool),
    /// The tree might be too large.
    Refused(Refusal),
    /// Memory was refused.
    Memory,
}

impl From<AllocError> for GateAnswer {
    ghost use Rattle.round_gates.specs.declared.tree.GateAnswer.TheVariants.{Memory};

    ghost from_gives = { λ _ answer. answer ≡ Memory };

    fn from(_error: AllocError) -> GateAnswer {
        GateAnswer::Memory
    }
}

impl<T: Drop> From<AllocFailed<T>> for GateAnswer {
    ghost use Rattle.round_gates.specs.declared.tree.GateAnswer.TheVariants.{Memory};

    ghost from_gives = { λ _ answer. answer ≡ Memory };

    fn from(_error: AllocFailed<T>) -> GateAnswer {
        GateAnswer::Memory
    }
}
