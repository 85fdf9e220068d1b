//! The tree of a target.

ghost use Rattle.std.specs.Prelude.{◌≡◌, ◌<◌, ◌≤◌, ◌^◌, ◌↔◌, [], true, IfErr, IfOk, OnOk, length};
ghost use Rattle.fault_system.specs.Truth.{NumberSet};
ghost use Rattle.std.specs.List.{AllByRecursion};
ghost use Rattle.fault_system.specs.Systems.{Holds};
ghost use Rattle.backward_slice.specs.Slices.{IsSlice};
ghost use Rattle.dependency_blocks.specs.Blocks.{IsBlocks, number_of};
ghost use Rattle.round_gates.specs.inner.Lines.{InOrder, IsKnown, has_line};
ghost use Rattle.round_gates.specs.Stages.{IsGateOf};
ghost use Rattle.round_gates.specs.Staged.{IsVarying, all_places, most_places};
ghost use Rattle.round_gates.specs.inner.Staged.{IsGateAnswer};
ghost use Rattle.round_gates.specs.Targets.{IsTreeFor};
ghost use Rattle.round_gates.specs.inner.Targets.{HasNoTree, IsWellMade};
ghost use Rattle.round_gates.specs.Trees.{IsGateTree, IsTree, IsTreeOf, event_tree};
ghost use Rattle.round_gates.specs.inner.Trees.{TreeHolds};

use crate::building::tree_of;
use crate::constants::constant;
use crate::limits::{are_few, block_size};
use crate::node::{GateKey, GateKind, Line, Node};
use crate::reaching::{places_of, reached_in_order};
use crate::tree::{Gate, GateAnswer, Input, Tree};
use crate::unrolling::{Unrolling, unroll};
use crate::walking::node_in;
use backward_slice::Slice;
use dependency_blocks::Blocks;
use fault_system::FaultSystem;
use plain_values::{Code, List, Mem, Refusal};
use std::alloc::{AllocError, Global};

/// The tree of an event: an `or` gate at the last stage of the target with this one input.
fn event_tree(alloc: Global, blocks: &Blocks, target: u32, event: u32) -> Mem<Tree>
    requires { number_of blocks.now target < 4294967295 }
    ensures { IfOk result (λ tree. tree ≡ event_tree blocks.now target event) }
{
    let mut inputs = List::new(alloc);
    inputs.push(Input::Event(event))?;
    let mut gates = List::new(alloc);
    gates.push(Gate {
        fact: target,
        stage: block_size(blocks, target),
        place: 0,
        kind: GateKind::Or,
        inputs,
    })?;
    let mut events = List::new(alloc);
    events.push(event)?;
    Ok(Tree {
        top: 0,
        gates,
        events,
    })
}

/// The tree whose top gate has a name.
fn gate_tree(
    alloc: Global,
    system: &FaultSystem,
    blocks: &Blocks,
    lines: &[Line],
    top: GateKey,
) -> Mem<Tree>
    requires few { length lines.now < 2 ^ 32 }
    requires gates { AllByRecursion (IsGateOf system.now blocks.now) lines.now }
    requires ordered { InOrder (length system.now.events) [] lines.now }
    requires top { has_line lines.now top ≡ true }
    ensures { IfOk result (IsGateTree system.now blocks.now top) }
{
    let places = places_of(alloc, lines)?;
    let keys = reached_in_order(alloc, lines, &places, top)?;
    if keys.len() > 4_294_967_295 {
        return Err(AllocError);
    }
    tree_of(alloc, system.events(), lines, &places, &keys, top)
}

/// The tree of a node of a target.
fn node_tree(
    alloc: Global,
    system: &FaultSystem,
    blocks: &Blocks,
    target: u32,
    lines: &[Line],
    node: Node,
) -> Mem<Tree>
    requires inside { number_of blocks.now target < 4294967295 }
    requires few { length lines.now < 2 ^ 32 }
    requires gates { AllByRecursion (IsGateOf system.now blocks.now) lines.now }
    requires ordered { InOrder (length system.now.events) [] lines.now }
    requires known { IsKnown (length system.now.events) lines.now node }
    ensures { IfOk result (λ tree. IsTreeOf system.now blocks.now target tree node) }
{
    match node {
        Node::Gate(top) => gate_tree(alloc, system, blocks, lines, top),
        Node::Basic(event) => event_tree(alloc, blocks, target, event),
        // A constant target has no tree, and is not asked for one.
        Node::Always | Node::Never => Err(AllocError),
    }
}

/// The tree of a target whose stages have not too many places.
fn whole_tree(alloc: Global, system: &FaultSystem, slice: &Slice, blocks: &Blocks) -> Mem<Tree>
    requires slice { IsSlice system.now slice.now.target slice.now }
    requires blocks { IsBlocks system.now slice.now.facts blocks.now }
    requires few { all_places system.now blocks.now slice.now.facts ≤ most_places }
    ensures { IfOk result (IsTree system.now blocks.now slice.now.target) }
{
    let Unrolling { nodes, lines } = unroll(alloc, system, slice, blocks)?;
    let lines = List::of(lines)?;
    let node = node_in(nodes.as_slice(), slice.target);
    node_tree(alloc, system, blocks, slice.target, lines.items(), node)
}

/// The tree of the target of a slice.
///
/// The slice is one of the system, and the blocks are those of the slice. There is no tree of a target that always holds
/// or never. It is refused where the target is not constant and all stages of the slice's facts have over 16,000,000 places.
pub fn staged(
    alloc: Global,
    system: &FaultSystem,
    slice: &Slice,
    blocks: &Blocks,
) -> Result<Tree, GateAnswer>
    requires slice { IsSlice system.now slice.now.target slice.now }
    requires blocks { IsBlocks system.now slice.now.facts blocks.now }
    ensures tree { IfOk result (IsTree system.now blocks.now slice.now.target) }
    ensures truth { IfOk result (λ tree. (events : NumberSet) → TreeHolds tree events ↔ Holds system.now events slice.now.target) }
    ensures varying { OnOk result (IsVarying system.now slice.now.target) }
    ensures few { OnOk result (all_places system.now blocks.now slice.now.facts ≤ most_places) }
    ensures target { IfOk result (IsTreeFor system.now slice.now.target) }
    ensures made { IfOk result (IsWellMade system.now) }
    ensures answer { IfErr result (IsGateAnswer system.now blocks.now slice.now.target slice.now.facts) }
    ensures none { IfErr result (HasNoTree system.now slice.now.target) }
{
    let _facts = system.facts();
    if let Some(always) = constant(alloc, system, slice.target)? {
        return Err(GateAnswer::Constant(always));
    }
    if !are_few(system, blocks, slice.facts.items()) {
        return Err(GateAnswer::Refused(Refusal::of_words(Code::TooManyGates)));
    }
    let tree = whole_tree(alloc, system, slice, blocks)?;
    Ok(tree)
}
