//! Laws of the definitions alone: the contract of each function is the law, and its body is empty.

ghost use Rattle.std.specs.Prelude.{◌≡◌, ◌<◌, ◌↔◌, ℕ, Bool, true};
ghost use Rattle.std.specs.List.{AllByRecursion, list_any};
ghost use Rattle.plain_values.specs.declared.refusal.Refusal.{Refusal};
ghost use Rattle.fault_system.specs.Truth.{NumberSet, in_range, member, occurs, occurs_event, truth};
ghost use Rattle.fault_system.specs.Systems.{System, IsSystem, Holds, holds_of};
ghost use Rattle.dependency_blocks.specs.Blocks.{BlockNumbers, number_of, size_of};
ghost use Rattle.round_gates.specs.declared.tree.Gate.{Gate};
ghost use Rattle.round_gates.specs.declared.tree.Tree.{Tree};
ghost use Rattle.round_gates.specs.Formulas.{gate_formula};
ghost use Rattle.round_gates.specs.Stages.{in_block};
ghost use Rattle.round_gates.specs.inner.Stages.{stage_truth};
ghost use Rattle.round_gates.specs.Staged.{IsConstant};
ghost use Rattle.round_gates.specs.Targets.{HasLargeTree, IsConstantly, IsTreeFor};
ghost use Rattle.round_gates.specs.inner.Targets.{IsWellMade, IsWithin};
ghost use Rattle.round_gates.specs.Trees.{has_gate, is_event};
ghost use Rattle.round_gates.specs.inner.Trees.{TreeHolds, gate_true};

/// The last stage of a fact is true exactly where the fact holds: of a block of facts, however they feed each other, as
/// many stages are enough as there are facts in the block.
pub fn last_stage()
    ensures { (system : System) (numbers : BlockNumbers) (events : NumberSet) (block fact : ℕ) → block < 4294967295
        → number_of numbers fact ≡ block
        → member (stage_truth system events (in_block numbers block) (size_of numbers block)) fact ≡ member (holds_of system events) fact }
{}

/// A target is constantly true exactly where it holds under no event, and constantly false exactly where it does not hold
/// under all events; it is not both.
pub fn constant_targets()
    ensures means { (system : System) (target : ℕ) (is : Bool) → IsConstant system target is ↔ IsConstantly system target is }
    ensures one { (system : System) (target : ℕ) (a b : Bool) → IsConstant system target a → IsConstant system target b → a ≡ b }
{}

/// Each tree of a target is well made.
pub fn made_well()
    ensures { (system : System) (target : ℕ) (tree : Tree) → IsSystem system → IsTreeFor system target tree → IsWellMade system tree }
{}

/// A tree of a target is true for a set of events exactly where the target holds under it.
pub fn tree_truth()
    ensures { (system : System) (target : ℕ) (tree : Tree) (events : NumberSet) → IsSystem system → IsTreeFor system target tree
        → TreeHolds tree events ↔ Holds system events target }
{}

/// A target has one tree at most, however its blocks are numbered, and none where the tree is refused.
pub fn one_tree()
    ensures one { (system : System) (target : ℕ) (a b : Tree) → IsSystem system → IsTreeFor system target a → IsTreeFor system target b → a ≡ b }
    ensures none { (system : System) (target : ℕ) (tree : Tree) (refusal : Refusal) → IsSystem system → IsTreeFor system target tree → HasLargeTree system target refusal → ⊥ }
{}

/// The formula of a gate says what the gate says: it is true where the gate is, the gates and the events that are inputs
/// occur in it, and it is in range where the inputs are.
pub fn gate_formulas()
    ensures truth { (events facts : NumberSet) (gate : Gate) → truth events facts (gate_formula gate) ≡ gate_true events facts gate }
    ensures gates { (n : ℕ) (gate : Gate) → occurs n (gate_formula gate) ≡ has_gate gate.inputs n }
    ensures events { (n : ℕ) (gate : Gate) → occurs_event n (gate_formula gate) ≡ list_any (is_event n) gate.inputs }
    ensures range { (gates events : ℕ) (gate : Gate) → AllByRecursion (IsWithin events gates) gate.inputs
        → in_range gates events (gate_formula gate) ≡ true }
{}
