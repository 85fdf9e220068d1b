//! Parents of gates, gates that are reached from one, and gates that are counted beside their input.

ghost use Rattle.std.specs.Prelude.{◌≡◌, ◌<◌, ◌^◌, ◌∷◌, ◌||◌, ◌⊎◌, [], ℕ, IfOk, IsTrue, Some, length, slice_get, true};
ghost use Rattle.fault_system.specs.Truth.{member};
ghost use Rattle.round_gates.specs.Trees.{has_gate, is_gate};
ghost use Rattle.round_gates.specs.declared.tree.Input.{Input as AnInput};
ghost use Rattle.merged_gates.specs.Merged.{has_input};
ghost use Rattle.merged_gates.specs.inner.Tests.{AreCounted, AreParents, AreReachedFrom, CountsBoth, IsParent};

use crate::gates::counts;
use crate::inputs::same_input;
use fault_system::Bits;
use plain_values::Mem;
use round_gates::{Gate, Input};
use std::alloc::Global;

/// Notes a parent of an input; where one is noted and is to be kept it stays.
fn note_parent(parents: &mut [Option<u32>], n: u32, input: Input, keep: bool)
    ensures { (m p : ℕ) → slice_get parents.new m ≡ Some (Some p)
        → (slice_get parents.old m ≡ Some (Some p)) ⊎ ((p ≡ n) × (is_gate m input ≡ true)) }
{
    if let Input::Gate(m) = input {
        let place = m as usize;
        if place < parents.len() {
            if keep && parents[place].is_some() {
                return;
            }
            parents[place] = Some(n);
        }
    }
}

fn note_parents(parents: &mut [Option<u32>], n: u32, inputs: &[Input], keep: bool)
    ensures { (m p : ℕ) → slice_get parents.new m ≡ Some (Some p)
        → (slice_get parents.old m ≡ Some (Some p)) ⊎ ((p ≡ n) × (has_gate inputs.now m ≡ true)) }
{
    for input in inputs {
        note_parent(parents, n, *input, keep);
    }
}

/// For each gate one that has it as an input, the first or the last.
pub(crate) fn parents_of(alloc: Global, gates: &[Gate], first: bool) -> Mem<Vec<Option<u32>>>
    requires { length gates.now < 2 ^ 32 }
    ensures { IfOk result (λ parents. AreParents gates.now parents.items) }
{
    let mut parents = vec![in alloc; None; gates.len()]?;
    for (n, gate) in gates.iter().enumerate() {
        note_parents(parents.as_mut_slice(), n as u32, gate.inputs.items(), first);
    }
    Ok(parents)
}

/// Whether a gate has another parent than this, by one of its parents.
pub(crate) fn has_other(parents: &[Option<u32>], n: u32, m: u32) -> bool
    ensures { IsTrue result → IsParent parents.now n m }
{
    match parents.get(m as usize) {
        Some(Some(p)) => *p != n,
        _ => false,
    }
}

fn mark_input(marks: &mut Bits, input: Input)
    ensures size { length marks.new ≡ length marks.old }
    ensures marks { (n : ℕ) → member marks.new n ≡ true → member marks.old n || is_gate n input ≡ true }
{
    if let Input::Gate(n) = input {
        if n < marks.size() {
            marks.put(n);
        }
    }
}

fn mark_inputs(marks: &mut Bits, inputs: &[Input])
    ensures size { length marks.new ≡ length marks.old }
    ensures marks { (n : ℕ) → member marks.new n ≡ true → member marks.old n || has_gate inputs.now n ≡ true }
{
    for input in inputs {
        mark_input(marks, *input);
    }
}

/// Marks the inputs of a gate that is marked.
fn mark_from(gates: &[Gate], marks: &mut Bits, n: u32)
    ensures { (top : ℕ) → AreReachedFrom gates.now top marks.old → AreReachedFrom gates.now top marks.new }
{
    let place = n as usize;
    if marks.has(n) && place < gates.len() {
        mark_inputs(marks, gates[place].inputs.items());
    }
}

/// Gates that are reached from one; all of them, if each gate of the order comes before its inputs.
pub(crate) fn reached(alloc: Global, gates: &[Gate], order: &[u32], top: u32) -> Mem<Bits>
    requires { length gates.now < 2 ^ 32 }
    ensures { IfOk result (λ marks. AreReachedFrom gates.now top marks) }
{
    let mut marks = Bits::new(alloc, gates.len() as u32)?;
    if top < marks.size() {
        marks.put(top);
    }
    for n in order {
        mark_from(gates, &mut marks, *n);
    }
    Ok(marks)
}

fn has_input(inputs: &[Input], input: Input) -> bool
    ensures { result ≡ has_input inputs.now input }
{
    for other in inputs {
        if same_input(*other, input) {
            return true;
        }
    }
    false
}

/// Whether a gate has one input, and that is one of some inputs.
fn is_beside(gate: &Gate, inputs: &[Input]) -> bool
    ensures { IsTrue result → (input : AnInput) → gate.now.inputs ≡ input ∷ [] → has_input inputs.now input ≡ true }
{
    let own = gate.inputs.items();
    own.len() == 1 && has_input(inputs, own[0])
}

fn mark_beside(gates: &[Gate], marks: &mut Bits, inputs: &[Input], input: Input)
    ensures { (n : ℕ) → member marks.new n ≡ true → (member marks.old n ≡ true) ⊎ CountsBoth gates.now inputs.now n (is_gate n input) }
{
    if let Input::Gate(n) = input {
        let place = n as usize;
        if place < gates.len() && n < marks.size() && is_beside(&gates[place], inputs) {
            marks.put(n);
        }
    }
}

/// Marks the gates of one input among some inputs whose input is one of these too.
fn mark_all_beside(gates: &[Gate], marks: &mut Bits, inputs: &[Input])
    ensures { (n : ℕ) → member marks.new n ≡ true → (member marks.old n ≡ true) ⊎ CountsBoth gates.now inputs.now n (has_gate inputs.now n) }
{
    for input in inputs {
        mark_beside(gates, marks, inputs, *input);
    }
}

/// Gates of one input that a gate counts beside it.
pub(crate) fn counted(alloc: Global, gates: &[Gate]) -> Mem<Bits>
    requires { length gates.now < 2 ^ 32 }
    ensures { IfOk result (λ marks. AreCounted gates.now marks) }
{
    let mut marks = Bits::new(alloc, gates.len() as u32)?;
    for gate in gates {
        if counts(gate.kind) {
            mark_all_beside(gates, &mut marks, gate.inputs.items());
        }
    }
    Ok(marks)
}
