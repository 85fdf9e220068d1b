//! Gates as formulas, where each gate of a tree is a fact by its position.

ghost use Rattle.std.specs.Prelude.{◌≡◌, IfOk, map};
ghost use Rattle.round_gates.specs.Formulas.{gate_formula, input_formula, kind_formula};

use crate::node::GateKind;
use crate::tree::{Gate, Input};
use fault_system::Formula;
use plain_values::{List, Mem};
use std::alloc::Global;

/// An input as a formula: its event, or its gate as a fact.
pub fn input_formula(input: Input) -> Formula
    ensures { result ≡ input_formula input }
{
    match input {
        Input::Event(number) => Formula::Event(number),
        Input::Gate(number) => Formula::Fact(number),
    }
}

/// A gate of a kind as a formula over its parts.
pub fn kind_formula(kind: GateKind, parts: List<Formula>) -> Formula
    ensures { result ≡ kind_formula kind parts }
{
    match kind {
        GateKind::And => Formula::And(parts),
        GateKind::Or => Formula::Or(parts),
        GateKind::AtLeast(least) => Formula::AtLeast(least, parts),
    }
}

/// A gate as a formula over its inputs.
pub fn gate_formula(alloc: Global, gate: &Gate) -> Mem<Formula>
    ensures { IfOk result (λ formula. formula ≡ gate_formula gate.now) }
{
    let parts = input_formulas(alloc, gate.inputs.items())?;
    Ok(kind_formula(gate.kind, parts))
}

fn input_formulas(alloc: Global, inputs: &[Input]) -> Mem<List<Formula>>
    ensures { IfOk result (λ made. made ≡ map input_formula inputs.now) }
{
    let mut made = List::new(alloc);
    for input in inputs {
        made.push(input_formula(*input))?;
    }
    Ok(made)
}
