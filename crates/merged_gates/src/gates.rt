//! Gates that are given other inputs, and what stands for a gate.

ghost use Rattle.std.specs.Prelude.{◌≡◌, ◌∷◌, [], ℕ, IfOk, IfSome, IsTrue, Some, map, slice_get};
ghost use Rattle.fault_system.specs.Truth.{NumberSet};
ghost use Rattle.round_gates.specs.Truths.{kind_true};
ghost use Rattle.round_gates.specs.inner.Trees.{gate_true, input_true};
ghost use Rattle.round_gates.specs.declared.tree.Input.{Input as AnInput};
ghost use Rattle.round_gates.specs.declared.tree.Input.TheVariants as inputs;
ghost use Rattle.merged_gates.specs.Merged.{counts, joins};
ghost use Rattle.merged_gates.specs.inner.Solutions.{IsSolution, stand_of};

use crate::inputs::same_inputs;
use plain_values::{List, Mem};
use round_gates::{Gate, GateKind, Input};
use std::alloc::Global;

/// Whether two kinds are the same.
pub(crate) fn same_kind(a: GateKind, b: GateKind) -> bool
    ensures { IsTrue result → a ≡ b }
{
    match (a, b) {
        (GateKind::And, GateKind::And) => true,
        (GateKind::Or, GateKind::Or) => true,
        (GateKind::AtLeast(m), GateKind::AtLeast(n)) => m == n,
        _ => false,
    }
}

/// Whether a gate of one kind may be joined to a gate of another.
pub(crate) fn joins(a: GateKind, b: GateKind) -> bool
    ensures { result ≡ joins a b }
{
    match (a, b) {
        (GateKind::And, GateKind::And) => true,
        (GateKind::Or, GateKind::Or) => true,
        _ => false,
    }
}

/// Whether a gate counts its inputs.
pub(crate) fn counts(kind: GateKind) -> bool
    ensures { result ≡ counts kind }
{
    match kind {
        GateKind::AtLeast(_) => true,
        _ => false,
    }
}

/// Whether two gates have one kind and the same inputs.
pub(crate) fn same_gate(a: &Gate, b: &Gate) -> bool
    ensures kind { IsTrue result → a.now.kind ≡ b.now.kind }
    ensures inputs { IsTrue result → a.now.inputs ≡ b.now.inputs }
{
    same_kind(a.kind, b.kind) && same_inputs(a.inputs.items(), b.inputs.items())
}

/// A copy of a gate.
fn copy_of(alloc: Global, gate: &Gate) -> Mem<Gate>
    ensures { IfOk result (λ copy. copy ≡ gate.now) }
{
    let inputs = List::of(Vec::from_slice(alloc, gate.inputs.items())?)?;
    Ok(Gate {
        fact: gate.fact,
        stage: gate.stage,
        place: gate.place,
        kind: gate.kind,
        inputs,
    })
}

/// Copies of gates.
pub(crate) fn copies_of(alloc: Global, gates: &[Gate]) -> Mem<Vec<Gate>>
    ensures { IfOk result (λ copies. copies.items ≡ gates.now) }
{
    let mut copies = Vec::with_capacity(alloc, gates.len())?;
    for gate in gates {
        copies.push(copy_of(alloc, gate)?)?;
    }
    Ok(copies)
}

/// Gives a gate another kind and other inputs.
pub(crate) fn put(gates: &mut [Gate], n: u32, kind: GateKind, inputs: List<Input>)
    ensures { (events set : NumberSet) → IsSolution events set gates.old
        → kind_true kind (map (input_true events set) inputs) ≡ set n → IsSolution events set gates.new }
{
    let place = n as usize;
    if place < gates.len() {
        gates[place].kind = kind;
        gates[place].inputs = inputs;
    }
}

/// What stands for an input.
pub(crate) fn stand_of(stands: &[Input], input: Input) -> Input
    ensures { result ≡ stand_of stands.now input }
{
    match input {
        Input::Event(n) => Input::Event(n),
        Input::Gate(n) => stand_at(stands, n),
    }
}

fn stand_at(stands: &[Input], n: u32) -> Input
    ensures { result ≡ stand_of stands.now (inputs.Gate n) }
{
    match stands.get(n as usize) {
        Some(input) => *input,
        None => Input::Gate(n),
    }
}

/// What stands for each of some inputs.
pub(crate) fn stands_for(alloc: Global, stands: &[Input], inputs: &[Input]) -> Mem<Vec<Input>>
    ensures { IfOk result (λ list. list.items ≡ map (stand_of stands.now) inputs.now) }
{
    let mut list = Vec::with_capacity(alloc, inputs.len())?;
    for input in inputs {
        list.push(stand_of(stands, *input))?;
    }
    Ok(list)
}

/// The gates themselves, as inputs.
pub(crate) fn themselves(alloc: Global, count: u32) -> Mem<Vec<Input>>
    ensures { IfOk result (λ stands. (n : ℕ) (input : AnInput) → slice_get stands.items n ≡ Some input → input ≡ inputs.Gate n) }
{
    let mut stands = Vec::with_capacity(alloc, count as usize)?;
    for n in 0..count {
        stands.push(Input::Gate(n))?;
    }
    Ok(stands)
}
