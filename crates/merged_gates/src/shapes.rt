//! The kind and the inputs of a gate as a text, by which equal gates are found.

ghost use Rattle.std.specs.Prelude.{◌≡◌, ◌++◌, IfOk, IsTrue, OnOk, map};
ghost use Rattle.std.specs.List.{flat_map};
ghost use Rattle.fault_system.specs.Systems.{NamesDiffer};
ghost use Rattle.merged_gates.specs.inner.Tests.{input_text, kind_text, shape_text};

use fault_system::{Named, names_differ};
use plain_values::{List, Mem};
use round_gates::{Gate, GateKind, Input};
use std::alloc::Global;

fn push_input(text: &mut Vec<u8>, input: Input) -> Mem<()>
    ensures { OnOk result (text.new.items ≡ text.old.items ++ input_text input) }
{
    match input {
        Input::Event(n) => {
            text.push(0)?;
            text.extend_from_slice(&n.to_be_bytes())?;
        }
        Input::Gate(n) => {
            text.push(1)?;
            text.extend_from_slice(&n.to_be_bytes())?;
        }
    }
    Ok(())
}

fn push_inputs(text: &mut Vec<u8>, inputs: &[Input]) -> Mem<()>
    ensures { OnOk result (text.new.items ≡ text.old.items ++ flat_map input_text inputs.now) }
{
    for input in inputs {
        push_input(text, *input)?;
    }
    Ok(())
}

fn push_kind(text: &mut Vec<u8>, kind: GateKind) -> Mem<()>
    ensures { OnOk result (text.new.items ≡ text.old.items ++ kind_text kind) }
{
    match kind {
        GateKind::And => text.push(0)?,
        GateKind::Or => text.push(1)?,
        GateKind::AtLeast(least) => {
            text.push(2)?;
            text.extend_from_slice(&least.to_be_bytes())?;
        }
    }
    Ok(())
}

/// The kind and the inputs of a gate as a text.
pub(crate) fn shape_of(alloc: Global, gate: &Gate) -> Mem<Vec<u8>>
    ensures { IfOk result (λ text. text.items ≡ shape_text gate.now) }
{
    let mut text = Vec::new(alloc);
    push_kind(&mut text, gate.kind)?;
    push_inputs(&mut text, gate.inputs.items())?;
    Ok(text)
}

/// The text of a gate.
#[derive(Drop)]
struct Shape {
    text: List<u8>,
}

impl Named for Shape {
    ghost name_of = { λ shape. shape.text };

    fn name(&self) -> &[u8] {
        self.text.items()
    }
}

fn shapes_of(alloc: Global, gates: &[Gate]) -> Mem<Vec<Shape>>
    ensures { IfOk result (λ shapes. map (λ shape. shape.text) shapes.items ≡ map shape_text gates.now) }
{
    let mut shapes = Vec::with_capacity(alloc, gates.len())?;
    for gate in gates {
        shapes.push(Shape {
            text: List::of(shape_of(alloc, gate)?)?,
        })?;
    }
    Ok(shapes)
}

/// Whether no two gates have one kind and the same inputs.
pub(crate) fn all_differ(alloc: Global, gates: &[Gate]) -> Mem<bool>
    ensures { IfOk result (λ yes. IsTrue yes → NamesDiffer (map shape_text gates.now)) }
{
    let shapes = shapes_of(alloc, gates)?;
    names_differ(alloc, shapes.as_slice())
}
