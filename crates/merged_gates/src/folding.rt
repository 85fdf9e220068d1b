//! A pass in which each gate gets as inputs what stands for its inputs. For a gate of one input that input stands, and for a
//! gate that is equal to an earlier one the earlier one.

ghost use Rattle.std.specs.Prelude.{◌≡◌, ◌<◌, ◌^◌, ℕ, IfOk, IfSome, OnOk, length, map};
ghost use Rattle.fault_system.specs.Truth.{NumberSet};
ghost use Rattle.round_gates.specs.Truths.{kind_true};
ghost use Rattle.round_gates.specs.inner.Trees.{gate_true, input_true};
ghost use Rattle.merged_gates.specs.inner.Solutions.{AreStands, HasSameInputs, IsJoin, IsSolution, Keeps, Solves, stand_of};

use crate::counting::{Copies, fold_counting};
use crate::gates::{put, same_gate, stands_for};
use crate::inputs::sorted_once;
use crate::shapes::shape_of;
use plain_values::{List, Mem};
use round_gates::{Gate, GateKind, Input};
use std::alloc::Global;
use std::collections::HashMap;

/// An earlier gate of the table with this kind and these inputs; where there is none, this one goes there.
fn earlier(
    alloc: Global,
    table: &mut HashMap<Vec<u8>, u32>,
    gates: &[Gate],
    n: u32,
) -> Mem<Option<u32>> {
    let place = n as usize;
    if place >= gates.len() {
        return Ok(None);
    }
    let shape = shape_of(alloc, &gates[place])?;
    if let Some(found) = table.get(&shape) {
        return Ok(Some(*found));
    }
    table.insert(shape, n)?;
    Ok(None)
}

/// The kind of a gate with these inputs: an `or` where there is one.
fn kind_with(kind: GateKind, inputs: &[Input]) -> GateKind
    requires { IsJoin kind }
    ensures { (events set : NumberSet) → kind_true result (map (input_true events set) inputs.now)
        ≡ kind_true kind (map (input_true events set) inputs.now) }
{
    if inputs.len() == 1 {
        GateKind::Or
    } else {
        kind
    }
}

/// Gives a gate that does not count what stands for its inputs.
fn fold_join(
    alloc: Global,
    gates: &mut [Gate],
    stands: &[Input],
    n: u32,
    kind: GateKind,
    inputs: &[Input],
) -> Mem<()>
    requires { IsJoin kind }
    ensures { OnOk result ((events set : NumberSet) → Solves events set gates.old stands.now
        → kind_true kind (map (input_true events set) inputs.now) ≡ set n → Solves events set gates.new stands.now) }
{
    let all = stands_for(alloc, stands, inputs)?;
    let list = sorted_once(alloc, all)?;
    let other = kind_with(kind, list.items());
    put(gates, n, other, list);
    Ok(())
}

/// The one input of an `or`.
fn only_of(gate: &Gate) -> Option<Input>
    ensures { IfSome result (λ input. (events set : NumberSet) → input_true events set input ≡ gate_true events set gate.now) }
{
    match gate.kind {
        GateKind::Or if gate.inputs.items().len() == 1 => Some(gate.inputs.items()[0]),
        _ => None,
    }
}

/// The gate itself, or one that is equal to it, if that is so.
fn equal_to(gates: &[Gate], n: u32, other: u32) -> Option<Input>
    ensures { IfSome result (λ input. (events set : NumberSet) → IsSolution events set gates.now → input_true events set input ≡ set n) }
{
    let (own, place) = (n as usize, other as usize);
    if own < gates.len() && place < gates.len() && same_gate(&gates[own], &gates[place]) {
        return Some(Input::Gate(other));
    }
    None
}

/// What stands for a gate: its one input, or the earlier gate that is equal to it.
fn stand_for(gates: &[Gate], n: u32, found: Option<u32>) -> Option<Input>
    ensures { IfSome result (λ input. (events set : NumberSet) → IsSolution events set gates.now → input_true events set input ≡ set n) }
{
    if let Some(input) = only_at(gates, n) {
        return Some(input);
    }
    match found {
        Some(other) => equal_to(gates, n, other),
        None => None,
    }
}

/// The one input of the gate at a position.
fn only_at(gates: &[Gate], n: u32) -> Option<Input>
    ensures { IfSome result (λ input. (events set : NumberSet) → IsSolution events set gates.now → input_true events set input ≡ set n) }
{
    match gates.get(n as usize) {
        Some(gate) => only_of(gate),
        None => None,
    }
}

/// Notes what stands for a gate.
fn note(stands: &mut [Input], n: u32, stand: Option<Input>)
    ensures { (events set : NumberSet) → AreStands events set stands.old → IfSome stand (λ input. input_true events set input ≡ set n)
        → AreStands events set stands.new }
{
    if let Some(input) = stand {
        let place = n as usize;
        if place < stands.len() {
            stands[place] = input;
        }
    }
}

/// Gives a gate what stands for its inputs.
fn fold_inputs(
    alloc: Global,
    gates: &mut [Gate],
    stands: &[Input],
    copies: &mut Copies,
    n: u32,
) -> Mem<()>
    ensures { OnOk result (Keeps gates.old stands.now gates.new stands.now) }
{
    let place = n as usize;
    if place >= gates.len() {
        return Ok(());
    }
    let inputs = Vec::from_slice(alloc, gates[place].inputs.items())?;
    match gates[place].kind {
        GateKind::AtLeast(least) => {
            fold_counting(alloc, gates, stands, copies, n, least, inputs)?;
            Ok(())
        }
        GateKind::And => {
            fold_join(alloc, gates, stands, n, GateKind::And, inputs.as_slice())?;
            Ok(())
        }
        GateKind::Or => {
            fold_join(alloc, gates, stands, n, GateKind::Or, inputs.as_slice())?;
            Ok(())
        }
    }
}

/// What is known of gates while they are folded.
#[derive(Drop)]
struct Folding {
    // the first gate of a kind and some inputs
    table: HashMap<Vec<u8>, u32>,
    copies: Copies,
}

/// Gives a gate what stands for its inputs, and notes what stands for it.
fn fold_gate(
    alloc: Global,
    gates: &mut [Gate],
    stands: &mut [Input],
    folding: &mut Folding,
    n: u32,
) -> Mem<()>
    ensures { OnOk result (Keeps gates.old stands.old gates.new stands.new) }
{
    fold_inputs(alloc, gates, stands, &mut folding.copies, n)?;
    let found = earlier(alloc, &mut folding.table, gates, n)?;
    let stand = stand_for(gates, n, found);
    note(stands, n, stand);
    Ok(())
}

/// Folds gates in an order, from its end.
pub(crate) fn fold_all(
    alloc: Global,
    gates: &mut [Gate],
    stands: &mut [Input],
    order: &[u32],
) -> Mem<()>
    requires { length gates.old < 2 ^ 32 }
    ensures { OnOk result (Keeps gates.old stands.old gates.new stands.new) }
{
    let mut folding = Folding {
        table: HashMap::new(alloc),
        copies: Copies::new(alloc, gates.len() as u32)?,
    };
    let count = order.len();
    for done in 0..count {
        fold_gate(alloc, gates, stands, &mut folding, order[count - 1 - done])?;
    }
    Ok(())
}
