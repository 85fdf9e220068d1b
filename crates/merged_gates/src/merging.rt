//! The merged tree of a tree.

ghost use Rattle.std.specs.Prelude.{◌≡◌, ◌<◌, ◌^◌, ◌↔◌, ℕ, IfOk, OnOk, IsTrue, length};
ghost use Rattle.fault_system.specs.Truth.{NumberSet};
ghost use Rattle.round_gates.specs.inner.Targets.{IsWellMade};
ghost use Rattle.round_gates.specs.inner.Trees.{TreeHolds};
ghost use Rattle.merged_gates.specs.inner.Merged.{AllStay};
ghost use Rattle.merged_gates.specs.Merged.{IsReached, IsSettled};
ghost use Rattle.merged_gates.specs.inner.Solutions.{AreStands, IsSolution, KeepsGates, KeepsTop, Solves};
ghost use Rattle.merged_gates.specs.inner.Tests.{IsMerging, IsRanked};

use crate::checks::{Merge, is_tested};
use crate::events::{events_in, numbers_of};
use crate::folding::fold_all;
use crate::gates::{copies_of, stand_of, themselves};
use crate::joining::join_all;
use crate::ordering::{all_later, number_at, parents_first, ranks_of, uses_in};
use crate::parents::reached;
use fault_system::{Bits, FaultSystem};
use plain_values::{List, Mem};
use round_gates::{Gate, Input, Tree};
use std::alloc::{AllocError, Global};

/// The position of the gate that stands for the top, which is itself where an event stands for it.
fn top_after(stands: &[Input], top: u32) -> u32
    ensures { (events set : NumberSet) → AreStands events set stands.now → set result ≡ set top }
{
    match stand_of(stands, Input::Gate(top)) {
        Input::Gate(n) => n,
        Input::Event(_) => top,
    }
}

/// Folds the gates, each of which has an input that stands for it, and says which gate is the top then.
fn fold_with(alloc: Global, gates: &mut [Gate], stands: &mut [Input], top: u32) -> Mem<u32>
    requires { length gates.old < 2 ^ 32 }
    ensures { IfOk result (λ next. (events set : NumberSet) → Solves events set gates.old stands.old
        → IsSolution events set gates.new × (set next ≡ set top)) }
{
    let order = parents_first(alloc, gates)?;
    fold_all(alloc, gates, stands, order.as_slice())?;
    Ok(top_after(stands, top))
}

/// Folds the gates, and says which gate is the top then.
fn fold(alloc: Global, gates: &mut [Gate], top: u32) -> Mem<u32>
    requires { length gates.old < 2 ^ 32 }
    ensures { IfOk result (λ next. KeepsTop gates.old top gates.new next) }
{
    let mut stands = themselves(alloc, gates.len() as u32)?;
    fold_with(alloc, gates, stands.as_mut_slice(), top)
}

// Whether a set has a number.
fn is_some(marks: &Bits) -> bool {
    for n in 0..marks.size() {
        if marks.has(n) {
            return true;
        }
    }
    false
}

/// Joins the gates that are reached from the top, and says whether there were any to join.
fn join(alloc: Global, gates: &mut [Gate], top: u32) -> Mem<bool>
    requires { length gates.old < 2 ^ 32 }
    ensures { OnOk result (KeepsGates gates.old gates.new) }
{
    let order = parents_first(alloc, gates)?;
    let inside = reached(alloc, gates, order.as_slice(), top)?;
    let uses = uses_in(alloc, gates, &inside)?;
    let mut gone = Bits::new(alloc, gates.len() as u32)?;
    join_all(
        alloc,
        gates,
        order.as_slice(),
        uses.as_slice(),
        &inside,
        &mut gone,
    )?;
    Ok(is_some(&gone))
}

/// Which gate is the top after gates were folded and joined, and whether there were any to join.
#[derive(Clone, Copy)]
struct Joined {
    top: u32,
    more: bool,
}

/// Folds and joins the gates once.
fn turn(alloc: Global, gates: &mut [Gate], top: u32) -> Mem<Joined>
    requires { length gates.old < 2 ^ 32 }
    ensures { IfOk result (λ joined. KeepsTop gates.old top gates.new joined.top) }
{
    let next = fold(alloc, gates, top)?;
    let more = join(alloc, gates, next)?;
    Ok(Joined { top: next, more })
}

/// Folds and joins the gates until there are none to join, and says which gate is the top then.
fn merge_all(alloc: Global, gates: &mut [Gate], top: u32) -> Mem<u32>
    requires { length gates.old < 2 ^ 32 }
    ensures { IfOk result (λ next. KeepsTop gates.old top gates.new next) }
{
    let mut next = top;
    for _turn in 0..gates.len() {
        let joined = turn(alloc, gates, next)?;
        next = joined.top;
        if !joined.more {
            return Ok(next);
        }
    }
    Ok(next)
}

// For each of these numbers its place.
fn places_of(alloc: Global, numbers: &[u32], count: usize) -> Mem<Vec<u32>> {
    let mut places = vec![in alloc; 0; count]?;
    let mut place: u32 = 0;
    for n in numbers {
        let number = *n as usize;
        if number < places.len() {
            places[number] = place;
        }
        place = place.saturating_add(1);
    }
    Ok(places)
}

// Inputs by new positions.
fn placed_inputs(alloc: Global, places: &[u32], inputs: &[Input]) -> Mem<List<Input>> {
    let mut list = Vec::with_capacity(alloc, inputs.len())?;
    for input in inputs {
        match *input {
            Input::Event(n) => list.push(Input::Event(n))?,
            Input::Gate(n) => list.push(Input::Gate(number_at(places, n)))?,
        }
    }
    List::of(list)
}

// A gate by new positions.
fn placed_gate(alloc: Global, places: &[u32], gate: &Gate) -> Mem<Gate> {
    Ok(Gate {
        fact: gate.fact,
        stage: gate.stage,
        place: gate.place,
        kind: gate.kind,
        inputs: placed_inputs(alloc, places, gate.inputs.items())?,
    })
}

// The gates at some positions, by new ones.
fn placed_gates(alloc: Global, gates: &[Gate], from: &[u32], places: &[u32]) -> Mem<List<Gate>> {
    let mut list = Vec::with_capacity(alloc, from.len())?;
    for n in from {
        if (*n as usize) < gates.len() {
            list.push(placed_gate(alloc, places, &gates[*n as usize])?)?;
        }
    }
    List::of(list)
}

/// The tree of the gates that are reached from one; want of memory where a test of it fails.
fn finished(
    alloc: Global,
    system: &FaultSystem,
    written: &Tree,
    gates: &[Gate],
    top: u32,
) -> Mem<Tree>
    requires { length gates.now < 2 ^ 32 }
    ensures { IfOk result (λ tree. IsMerging system.now written.now.gates gates.now top tree) }
{
    let order = parents_first(alloc, gates)?;
    let inside = reached(alloc, gates, order.as_slice(), top)?;
    let from = numbers_of(alloc, &inside)?;
    let numbers = from.items();
    let places = places_of(alloc, numbers, gates.len())?;
    let left = placed_gates(alloc, gates, numbers, places.as_slice())?;
    let kept = left.items();
    let events = events_in(alloc, system.events(), kept)?;
    let before = written.gates.items();
    let tree = Tree {
        top: number_at(places.as_slice(), top),
        gates: left,
        events,
    };
    let merge = Merge {
        system,
        written: before,
        gates,
        from: numbers,
        tree: &tree,
    };
    let tested = is_tested(alloc, &merge, top)?;
    if tested {
        return Ok(tree);
    }
    Err(AllocError)
}

/// Whether the top of a tree is a gate, and the gates have ranks by which each comes before its inputs.
fn is_ranked(alloc: Global, tree: &Tree) -> Mem<bool>
    ensures { IfOk result (λ yes. IsTrue yes → IsRanked tree.now) }
{
    let gates = tree.gates.items();
    let order = parents_first(alloc, gates)?;
    let ranks = ranks_of(alloc, order.as_slice(), gates.len())?;
    let (top, count) = (tree.top, tree.gates.len_u32());
    let numbers = ranks.as_slice();
    if top < count {
        return Ok(all_later(gates, numbers));
    }
    Ok(false)
}

/// What is left of the gates of a tree, and which gate is the top.
#[derive(Drop)]
struct Left {
    gates: Vec<Gate>,
    top: u32,
}

/// The gates of a tree, merged.
fn left_of(alloc: Global, tree: &Tree) -> Mem<Left>
    ensures top { IfOk result (λ left. KeepsTop tree.now.gates tree.now.top left.gates.items left.top) }
    ensures few { IfOk result (λ left. length left.gates.items < 2 ^ 32) }
{
    let mut gates = copies_of(alloc, tree.gates.items())?;
    let top = merge_all(alloc, gates.as_mut_slice(), tree.top)?;
    Ok(Left { gates, top })
}

/// The merged tree of a tree: gates of one input and equal gates are gone, and a gate of one parent of its own kind is joined to
/// that. Where a gate that counts has an input that comes to another of its inputs, a gate of one input stays, so that both count.
///
/// The time goes with the inputs of all gates, sorted, for each time that joined gates make others equal.
pub fn merged(alloc: Global, system: &FaultSystem, tree: &Tree) -> Mem<Tree>
    ensures made { IfOk result (λ merged. IsWellMade system.now merged) }
    ensures gates { IfOk result (λ merged. AllStay tree.now merged) }
    ensures truth { IfOk result (λ merged. (events : NumberSet) → TreeHolds merged events ↔ TreeHolds tree.now events) }
    ensures reached { IfOk result (λ merged. IsReached merged) }
    ensures settled { IfOk result (λ merged. IsSettled merged) }
{
    let ranked = is_ranked(alloc, tree)?;
    if ranked {
        let left = left_of(alloc, tree)?;
        return finished(alloc, system, tree, left.gates.as_slice(), left.top);
    }
    Err(AllocError)
}
