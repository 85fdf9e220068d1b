//! Gates in an order in which each comes before its inputs, and the test of it.

ghost use Rattle.std.specs.Prelude.{◌≡◌, ◌<◌, ◌^◌, IsTrue, Some, length, slice_get};
ghost use Rattle.round_gates.specs.declared.tree.Gate.{Gate as AGate};
ghost use Rattle.std.specs.List.{AllByRecursion};
ghost use Rattle.merged_gates.specs.inner.Tests.{AllLater, IsLater, number_at};

use fault_system::Bits;
use plain_values::Mem;
use round_gates::{Gate, Input};
use std::alloc::Global;

// Counts an input.
fn count_input(uses: &mut [u32], input: Input) {
    if let Input::Gate(n) = input {
        let n = n as usize;
        if n < uses.len() {
            uses[n] = uses[n].saturating_add(1);
        }
    }
}

fn count_inputs(uses: &mut [u32], inputs: &[Input]) {
    for input in inputs {
        count_input(uses, *input);
    }
}

/// Of how many gates each gate is an input.
fn uses_of(alloc: Global, gates: &[Gate]) -> Mem<Vec<u32>> {
    let mut uses = vec![in alloc; 0; gates.len()]?;
    for gate in gates {
        count_inputs(uses.as_mut_slice(), gate.inputs.items());
    }
    Ok(uses)
}

/// Of how many gates of a set each gate is an input.
pub(crate) fn uses_in(alloc: Global, gates: &[Gate], inside: &Bits) -> Mem<Vec<u32>> {
    let mut uses = vec![in alloc; 0; gates.len()]?;
    for n in 0..inside.size() {
        if inside.has(n) && (n as usize) < gates.len() {
            count_inputs(uses.as_mut_slice(), gates[n as usize].inputs.items());
        }
    }
    Ok(uses)
}

// The positions of the gates that are no inputs.
fn unused(alloc: Global, uses: &[u32]) -> Mem<Vec<u32>> {
    let mut order = Vec::with_capacity(alloc, uses.len())?;
    let mut n: u32 = 0;
    for count in uses {
        if *count == 0 {
            order.push(n)?;
        }
        n = n.saturating_add(1);
    }
    Ok(order)
}

// Takes a use away; a gate without any goes behind the others.
fn release(left: &mut [u32], order: &mut Vec<u32>, input: Input) -> Mem<()> {
    if let Input::Gate(n) = input {
        let place = n as usize;
        if place < left.len() {
            let uses = left[place];
            left[place] = uses.saturating_sub(1);
            if uses == 1 {
                order.push(n)?;
            }
        }
    }
    Ok(())
}

fn release_all(left: &mut [u32], order: &mut Vec<u32>, inputs: &[Input]) -> Mem<()> {
    for input in inputs {
        release(left, order, *input)?;
    }
    Ok(())
}

// Releases the inputs of the gate at a place of the order.
fn visit(gates: &[Gate], left: &mut [u32], order: &mut Vec<u32>, place: usize) -> Mem<()> {
    if place < order.len() {
        let n = order[place] as usize;
        if n < gates.len() {
            release_all(left, order, gates[n].inputs.items())?;
        }
    }
    Ok(())
}

/// The positions of gates, each before those of its inputs, where no gate leads back to itself.
pub(crate) fn parents_first(alloc: Global, gates: &[Gate]) -> Mem<Vec<u32>> {
    let mut left = uses_of(alloc, gates)?;
    let mut order = unused(alloc, left.as_slice())?;
    for place in 0..gates.len() {
        visit(gates, left.as_mut_slice(), &mut order, place)?;
    }
    Ok(order)
}

/// The place of each gate in an order, counted from 1.
pub(crate) fn ranks_of(alloc: Global, order: &[u32], count: usize) -> Mem<Vec<u32>> {
    let mut ranks = vec![in alloc; 0; count]?;
    let mut rank: u32 = 0;
    for n in order {
        let place = *n as usize;
        rank = rank.saturating_add(1);
        if place < ranks.len() {
            ranks[place] = rank;
        }
    }
    Ok(ranks)
}

/// The number at a place of a list, and 0 behind its end.
pub(crate) fn number_at(numbers: &[u32], n: u32) -> u32
    ensures { result ≡ number_at numbers.now n }
{
    match numbers.get(n as usize) {
        Some(number) => *number,
        None => 0,
    }
}

fn is_later(ranks: &[u32], own: u32, input: Input) -> bool
    ensures { IsTrue result → IsLater ranks.now own input }
{
    match input {
        Input::Event(_) => true,
        Input::Gate(n) => own < number_at(ranks, n),
    }
}

fn are_later(ranks: &[u32], own: u32, inputs: &[Input]) -> bool
    ensures { IsTrue result → AllByRecursion (IsLater ranks.now own) inputs.now }
{
    for input in inputs {
        if !is_later(ranks, own, *input) {
            return false;
        }
    }
    true
}

fn later_at(gates: &[Gate], ranks: &[u32], n: u32) -> bool
    ensures { IsTrue result → (gate : AGate) → slice_get gates.now n ≡ Some gate
        → AllByRecursion (IsLater ranks.now (number_at ranks.now n)) gate.inputs }
{
    match gates.get(n as usize) {
        Some(gate) => are_later(ranks, number_at(ranks, n), gate.inputs.items()),
        None => true,
    }
}

/// Whether the inputs of each gate have greater ranks.
pub(crate) fn all_later(gates: &[Gate], ranks: &[u32]) -> bool
    requires { length gates.now < 2 ^ 32 }
    ensures { IsTrue result → AllLater gates.now ranks.now }
{
    if ranks.len() > gates.len() {
        return false;
    }
    for n in 0..gates.len() as u32 {
        if !later_at(gates, ranks, n) {
            return false;
        }
    }
    true
}
