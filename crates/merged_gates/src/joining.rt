//! A pass in which the inputs of a gate with one parent of its own kind go to the parent.

ghost use Rattle.std.specs.Prelude.{◌≡◌, ◌∷◌, ◌++◌, [], ℕ, IfOk, IfSome, OnOk, map};
ghost use Rattle.fault_system.specs.Truth.{NumberSet};
ghost use Rattle.round_gates.specs.Truths.{kind_true};
ghost use Rattle.round_gates.specs.inner.Trees.{input_true};
ghost use Rattle.merged_gates.specs.inner.Solutions.{IsJoin, IsSolution, KeepsGates};

use crate::gates::{joins, put};
use crate::inputs::sorted_once;
use fault_system::Bits;
use plain_values::Mem;
use round_gates::{Gate, GateKind, Input};
use std::alloc::Global;

/// The inputs of a gate of this kind.
fn inner_at(gates: &[Gate], kind: GateKind, n: u32) -> Option<&[Input]>
    ensures { IfSome result (λ inner. (events set : NumberSet) → IsSolution events set gates.now
        → kind_true kind (map (input_true events set) inner.now) ≡ set n) }
{
    match gates.get(n as usize) {
        Some(gate) if joins(kind, gate.kind) => Some(gate.inputs.items()),
        _ => None,
    }
}

// Whether a gate is an input of one gate alone.
fn has_one_parent(uses: &[u32], n: u32) -> bool {
    match uses.get(n as usize) {
        Some(count) => *count == 1,
        None => false,
    }
}

/// The inputs of an input that is a gate of this kind with one parent.
fn inner_of<'g>(
    gates: &'g [Gate],
    uses: &[u32],
    kind: GateKind,
    input: Input,
) -> Option<&'g [Input]>
    ensures { IfSome result (λ inner. (events set : NumberSet) → IsSolution events set gates.now
        → kind_true kind (map (input_true events set) inner.now) ≡ input_true events set input) }
{
    match input {
        Input::Gate(n) if has_one_parent(uses, n) => inner_at(gates, kind, n),
        _ => None,
    }
}

// Marks a gate whose inputs went to its parent.
fn mark_gone(gone: &mut Bits, input: Input) {
    if let Input::Gate(n) = input {
        if n < gone.size() {
            gone.put(n);
        }
    }
}

/// Puts an input to the others, or its own inputs to those that are still to be looked at.
fn expand(
    gates: &[Gate],
    uses: &[u32],
    kind: GateKind,
    input: Input,
    gone: &mut Bits,
    list: &mut Vec<Input>,
    left: &mut Vec<Input>,
) -> Mem<()>
    requires { IsJoin kind }
    ensures { OnOk result ((events set : NumberSet) → IsSolution events set gates.now
        → kind_true kind (map (input_true events set) (list.new.items ++ left.new.items))
        ≡ kind_true kind (map (input_true events set) (list.old.items ++ (left.old.items ++ input ∷ [])))) }
{
    match inner_of(gates, uses, kind, input) {
        Some(inner) => {
            mark_gone(gone, input);
            left.extend_from_slice(inner)?;
        }
        None => list.push(input)?,
    }
    Ok(())
}

/// The inputs of a gate, with those of gates of its kind that have one parent in their place.
fn expanded(
    alloc: Global,
    gates: &[Gate],
    uses: &[u32],
    kind: GateKind,
    inputs: &[Input],
    gone: &mut Bits,
) -> Mem<Vec<Input>>
    requires { IsJoin kind }
    ensures { IfOk result (λ list. (events set : NumberSet) → IsSolution events set gates.now
        → kind_true kind (map (input_true events set) list.items) ≡ kind_true kind (map (input_true events set) inputs.now)) }
{
    let mut list = Vec::new(alloc);
    let mut left = Vec::from_slice(alloc, inputs)?;
    for _step in 0..usize::MAX {
        match left.pop() {
            Some(input) => expand(gates, uses, kind, input, gone, &mut list, &mut left)?,
            None => break,
        }
    }
    list.extend_from_slice(left.as_slice())?;
    Ok(list)
}

/// Joins to a gate of a kind what can be joined.
fn join_kind(
    alloc: Global,
    gates: &mut [Gate],
    uses: &[u32],
    gone: &mut Bits,
    n: u32,
    kind: GateKind,
) -> Mem<()>
    requires { IsJoin kind }
    ensures { OnOk result (KeepsGates gates.old gates.new) }
{
    let Some(inputs) = inner_at(gates, kind, n) else {
        return Ok(());
    };
    let list = expanded(alloc, gates, uses, kind, inputs, gone)?;
    let ordered = sorted_once(alloc, list)?;
    put(gates, n, kind, ordered);
    Ok(())
}

/// Joins to a gate of a set what can be joined.
fn join_gate(
    alloc: Global,
    gates: &mut [Gate],
    uses: &[u32],
    inside: &Bits,
    gone: &mut Bits,
    n: u32,
) -> Mem<()>
    ensures { OnOk result (KeepsGates gates.old gates.new) }
{
    let place = n as usize;
    if place >= gates.len() || gone.has(n) || !inside.has(n) {
        return Ok(());
    }
    match gates[place].kind {
        GateKind::And => join_kind(alloc, gates, uses, gone, n, GateKind::And),
        GateKind::Or => join_kind(alloc, gates, uses, gone, n, GateKind::Or),
        GateKind::AtLeast(_) => Ok(()),
    }
}

/// Joins gates of a set in an order, each before its inputs, and marks those that went to their parents.
pub(crate) fn join_all(
    alloc: Global,
    gates: &mut [Gate],
    order: &[u32],
    uses: &[u32],
    inside: &Bits,
    gone: &mut Bits,
) -> Mem<()>
    ensures { OnOk result (KeepsGates gates.old gates.new) }
{
    for n in order {
        join_gate(alloc, gates, uses, inside, gone, *n)?;
    }
    Ok(())
}
