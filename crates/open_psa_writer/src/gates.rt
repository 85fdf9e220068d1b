//! The definitions of gates.

ghost use Rattle.std.specs.Prelude.{◌≡◌, ◌++◌, OnOk, codes, decimal, map};
ghost use Rattle.std.specs.List.{flat_map};
ghost use Rattle.open_psa_writer.specs.Mef.{Over, close_text, formula_text, gate_text, input_text, label_text, open_text};
ghost use Rattle.round_gates.specs.declared.node.GateKind.TheVariants.{AtLeast};
ghost use Rattle.galileo_writer.specs.TreeText.{gate_name};
ghost use Rattle.open_psa_writer.specs.TreeMef.{gate_number, gate_parts, kind_parts, mef_gate, numbered, whole_formula};
ghost use Rattle.open_psa_writer.specs.inner.TreeMef.{group_text};

use crate::names::{push_label, push_number};
use crate::parts::{is_spread, push_only_part, push_part_rows};
use fault_system::FaultSystem;
use galileo_writer::gate_name;
use plain_values::Mem;
use round_gates::{Gate, GateKind, Input};
use std::alloc::Global;

/// The number in the text of the gate at a position.
pub(crate) fn gate_number(top: u32, at: u32) -> u64
    ensures { result ≡ gate_number top at }
{
    if at == top {
        1
    } else if at < top {
        u64::from(at) + 2
    } else {
        u64::from(at) + 1
    }
}

/// Adds a number between two texts.
pub(crate) fn push_element(line: &mut Vec<u8>, front: &[u8], number: u64, back: &[u8]) -> Mem<()>
    ensures { OnOk result (line.new.items ≡ line.old.items ++ (front.now ++ (decimal number ++ back.now))) }
{
    line.extend_from_slice(front)?;
    push_number(line, number)?;
    line.extend_from_slice(back)?;
    Ok(())
}

/// Adds an input.
pub(crate) fn push_input(line: &mut Vec<u8>, top: u32, input: Input) -> Mem<()>
    ensures { OnOk result (line.new.items ≡ line.old.items ++ input_text (numbered top input)) }
{
    match input {
        Input::Event(number) => push_element(
            line,
            b"<basic-event name=\"e",
            u64::from(number) + 1,
            b"\"/>\n",
        ),
        Input::Gate(number) => push_element(
            line,
            b"<gate name=\"g",
            gate_number(top, number),
            b"\"/>\n",
        ),
    }
}

/// Adds inputs.
fn push_inputs(line: &mut Vec<u8>, top: u32, inputs: &[Input]) -> Mem<()>
    ensures { OnOk result (line.new.items ≡ line.old.items ++ flat_map input_text (map (numbered top) inputs.now)) }
{
    for input in inputs {
        push_input(line, top, *input)?;
    }
    Ok(())
}

/// Adds what begins a gate that counts.
fn push_least(line: &mut Vec<u8>, least: u32) -> Mem<()>
    ensures { OnOk result (line.new.items ≡ line.old.items ++ open_text (AtLeast least)) }
{
    push_element(line, b"<atleast min=\"", u64::from(least), b"\">\n")
}

/// Adds what begins a gate of a kind.
fn push_open(line: &mut Vec<u8>, kind: GateKind) -> Mem<()>
    ensures { OnOk result (line.new.items ≡ line.old.items ++ open_text kind) }
{
    match kind {
        GateKind::And => {
            line.extend_from_slice(b"<and>\n")?;
            Ok(())
        }
        GateKind::Or => {
            line.extend_from_slice(b"<or>\n")?;
            Ok(())
        }
        GateKind::AtLeast(least) => push_least(line, least),
    }
}

/// Adds what ends a gate of a kind.
fn push_close(line: &mut Vec<u8>, kind: GateKind) -> Mem<()>
    ensures { OnOk result (line.new.items ≡ line.old.items ++ close_text kind) }
{
    match kind {
        GateKind::And => line.extend_from_slice(b"</and>\n")?,
        GateKind::Or => line.extend_from_slice(b"</or>\n")?,
        GateKind::AtLeast(_) => line.extend_from_slice(b"</atleast>\n")?,
    }
    Ok(())
}

/// Adds a kind over inputs: the only input, or the kind over all.
fn push_over(line: &mut Vec<u8>, top: u32, kind: GateKind, inputs: &[Input]) -> Mem<()>
    ensures { OnOk result (line.new.items ≡ line.old.items ++ formula_text (Over kind (map (numbered top) inputs.now))) }
{
    if inputs.len() == 1 {
        return push_inputs(line, top, inputs);
    }
    push_open(line, kind)?;
    push_inputs(line, top, inputs)?;
    push_close(line, kind)
}

/// Adds what makes a gate that counts true.
fn push_counted(line: &mut Vec<u8>, top: u32, number: u64, least: u32, inputs: &[Input]) -> Mem<()>
    ensures { OnOk result (line.new.items ≡ line.old.items ++ formula_text (whole_formula top number (AtLeast least) inputs.now)) }
{
    if is_spread(least, inputs) {
        push_only_part(line, number, u64::from(least), inputs.len() as u64)
    } else {
        push_over(line, top, GateKind::AtLeast(least), inputs)
    }
}

/// Adds what makes a gate of a kind true.
fn push_formula(
    line: &mut Vec<u8>,
    top: u32,
    number: u64,
    kind: GateKind,
    inputs: &[Input],
) -> Mem<()>
    ensures { OnOk result (line.new.items ≡ line.old.items ++ formula_text (whole_formula top number kind inputs.now)) }
{
    match kind {
        GateKind::And | GateKind::Or => push_over(line, top, kind, inputs),
        GateKind::AtLeast(least) => push_counted(line, top, number, least, inputs),
    }
}

/// Adds what makes the gate at a position true.
fn push_gate_formula(line: &mut Vec<u8>, top: u32, at: u32, gate: &Gate) -> Mem<()>
    ensures { OnOk result (line.new.items
        ≡ line.old.items ++ formula_text (whole_formula top (gate_number top at) gate.now.kind gate.now.inputs)) }
{
    push_formula(
        line,
        top,
        gate_number(top, at),
        gate.kind,
        gate.inputs.items(),
    )
}

/// Adds the element that tells the name of a gate.
fn push_gate_label(alloc: Global, line: &mut Vec<u8>, system: &FaultSystem, gate: &Gate) -> Mem<()>
    ensures { OnOk result (line.new.items ≡ line.old.items ++ label_text (gate_name system.now gate.now)) }
{
    let name = gate_name(alloc, system, gate)?;
    push_label(line, name.items())
}

/// Adds what begins the definition of the gate at a position.
fn push_gate_head(line: &mut Vec<u8>, top: u32, at: u32) -> Mem<()>
    ensures { OnOk result (line.new.items ≡ line.old.items ++ (codes "<define-gate name=\"g" ++ (decimal (gate_number top at) ++ codes "\">\n"))) }
{
    push_element(
        line,
        b"<define-gate name=\"g",
        gate_number(top, at),
        b"\">\n",
    )
}

/// Adds the definition of the gate at a position.
fn push_gate(
    alloc: Global,
    line: &mut Vec<u8>,
    system: &FaultSystem,
    top: u32,
    at: u32,
    gate: &Gate,
) -> Mem<()>
    ensures { OnOk result (line.new.items ≡ line.old.items ++ gate_text (mef_gate system.now top at gate.now)) }
{
    push_gate_head(line, top, at)?;
    push_gate_label(alloc, line, system, gate)?;
    push_gate_formula(line, top, at, gate)?;
    line.extend_from_slice(b"</define-gate>\n")?;
    Ok(())
}

/// Adds the auxiliary gates of a gate that counts.
fn push_counted_parts(
    line: &mut Vec<u8>,
    top: u32,
    number: u64,
    least: u32,
    inputs: &[Input],
) -> Mem<()>
    ensures { OnOk result (line.new.items ≡ line.old.items ++ flat_map gate_text (kind_parts top number (AtLeast least) inputs.now)) }
{
    if is_spread(least, inputs) {
        push_part_rows(line, top, number, inputs, least)
    } else {
        Ok(())
    }
}

/// Adds the auxiliary gates of a gate of a kind.
fn push_kind_parts(
    line: &mut Vec<u8>,
    top: u32,
    number: u64,
    kind: GateKind,
    inputs: &[Input],
) -> Mem<()>
    ensures { OnOk result (line.new.items ≡ line.old.items ++ flat_map gate_text (kind_parts top number kind inputs.now)) }
{
    match kind {
        GateKind::And | GateKind::Or => Ok(()),
        GateKind::AtLeast(least) => push_counted_parts(line, top, number, least, inputs),
    }
}

/// Adds the auxiliary gates of the gate at a position.
fn push_gate_parts(line: &mut Vec<u8>, top: u32, at: u32, gate: &Gate) -> Mem<()>
    ensures { OnOk result (line.new.items ≡ line.old.items ++ flat_map gate_text (gate_parts top at gate.now)) }
{
    push_kind_parts(
        line,
        top,
        gate_number(top, at),
        gate.kind,
        gate.inputs.items(),
    )
}

/// Adds the definition of the gate at a position, and those of its auxiliary gates.
pub(crate) fn push_group(
    alloc: Global,
    line: &mut Vec<u8>,
    system: &FaultSystem,
    top: u32,
    at: u32,
    gate: &Gate,
) -> Mem<()>
    ensures { OnOk result (line.new.items ≡ line.old.items ++ group_text system.now top at gate.now) }
{
    push_gate(alloc, line, system, top, at, gate)?;
    push_gate_parts(line, top, at, gate)
}
