//! How gates are used: by none, by one or by several.

ghost use Rattle.std.specs.Prelude.{◌≡◌, ◌==◌, ◌<◌, ℕ, IfOk, length, replicate, slice_index_or};
ghost use Rattle.round_gates.specs.Trees.{has_gate, is_gate};
ghost use Rattle.dot_writer.specs.declared.usages.Usage.TheVariants.{Unused};
ghost use Rattle.dot_writer.specs.TreePicture.{usages_of};
ghost use Rattle.dot_writer.specs.inner.DotText.{noted, used_by};

use crate::gates::inputs_at;
use plain_values::{List, Mem};
use round_gates::{Gate, Input};
use std::alloc::Global;

/// How gates use a gate.
#[derive(Clone, Copy)]
pub enum Usage {
    /// None has it as an input.
    Unused,
    /// The gate at this position has it.
    Once(u32),
    /// Several have it; the first of them is at this position.
    Shared(u32),
}

/// How each gate is used.
pub(crate) fn usages_of(alloc: Global, gates: &List<Gate>) -> Mem<List<Usage>>
    ensures { IfOk result (λ usages. usages ≡ usages_of gates.now) }
{
    let mut usages = vec![in alloc; Usage::Unused; gates.len_u32() as usize]?;
    note_gates(usages.as_mut_slice(), gates);
    List::of(usages)
}

/// Notes of each gate that it has its inputs.
fn note_gates(usages: &mut [Usage], gates: &List<Gate>)
    requires { usages.old ≡ replicate (length gates.now) Unused }
    ensures { usages.new ≡ usages_of gates.now }
{
    for position in 0..gates.len_u32() {
        note_inputs(usages, position, inputs_at(gates.items(), position));
    }
}

/// Notes of a gate that it has these inputs.
fn note_inputs(usages: &mut [Usage], position: u32, inputs: &[Input])
    ensures len { length usages.new ≡ length usages.old }
    ensures usage { (n : ℕ) → n < length usages.old
        → slice_index_or usages.new n Unused ≡ noted position (has_gate inputs.now n) (slice_index_or usages.old n Unused) }
{
    for input in inputs {
        note_input(usages, position, *input);
    }
}

/// Notes of a gate that it has an input.
fn note_input(usages: &mut [Usage], position: u32, input: Input)
    ensures len { length usages.new ≡ length usages.old }
    ensures usage { (n : ℕ) → n < length usages.old
        → slice_index_or usages.new n Unused ≡ noted position (is_gate n input) (slice_index_or usages.old n Unused) }
{
    match input {
        Input::Event(_) => {}
        Input::Gate(number) => note_number(usages, position, number as usize),
    }
}

/// Notes of a gate that it has the gate of a number as an input.
fn note_number(usages: &mut [Usage], position: u32, number: usize)
    ensures len { length usages.new ≡ length usages.old }
    ensures usage { (n : ℕ) → n < length usages.old
        → slice_index_or usages.new n Unused ≡ noted position (number == n) (slice_index_or usages.old n Unused) }
{
    if number < usages.len() {
        usages[number] = used_by(position, usages[number]);
    }
}

/// How an input is used once a gate has it too.
fn used_by(gate: u32, usage: Usage) -> Usage
    ensures { result ≡ used_by gate usage }
{
    match usage {
        Usage::Unused => Usage::Once(gate),
        Usage::Once(first) => {
            if first == gate {
                Usage::Once(first)
            } else {
                Usage::Shared(first)
            }
        }
        Usage::Shared(first) => Usage::Shared(first),
    }
}
