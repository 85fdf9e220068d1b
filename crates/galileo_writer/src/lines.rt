//! The lines of gates and of events, one at a time.

ghost use Rattle.std.specs.Prelude.{◌≡◌, ◌++◌, IfOk, OnOk, decimal, map, option_copied, slice_get};
ghost use Rattle.galileo_writer.specs.Galileo.{inputs_text, kind_text, line_text, top_text};
ghost use Rattle.property_reader.specs.Rates.{rate_word};
ghost use Rattle.fault_system.specs.Systems.{event_name};
ghost use Rattle.galileo_writer.specs.TreeText.{event_line, gate_line, gate_name, input_name, name_at, rate_of};

use fault_system::FaultSystem;
use itoa::Buffer;
use plain_values::{List, Mem, Name};
use property_reader::{Rate, rate_word};
use round_gates::{Gate, GateKind, Input, Tree};
use std::alloc::Global;

fn push_number(line: &mut Vec<u8>, number: u64) -> Mem<()>
    ensures { OnOk result (line.new.items ≡ line.old.items ++ decimal number) }
{
    let mut buffer = Buffer::new();
    line.extend_from_slice(buffer.format(number).as_bytes())?;
    Ok(())
}

/// The name of a gate: its fact, `@`, its stage, `.` and its place.
pub fn gate_name(alloc: Global, system: &FaultSystem, gate: &Gate) -> Mem<Name>
    ensures { IfOk result (λ name. name ≡ gate_name system.now gate.now) }
{
    let mut name = Vec::new(alloc);
    push_gate_name(&mut name, system, gate)?;
    Ok(List::of(name)?)
}

/// Adds the name of a gate.
fn push_gate_name(line: &mut Vec<u8>, system: &FaultSystem, gate: &Gate) -> Mem<()>
    ensures { OnOk result (line.new.items ≡ line.old.items ++ gate_name system.now gate.now) }
{
    line.extend_from_slice(system.fact_name(gate.fact))?;
    line.push(b'@')?;
    push_number(line, u64::from(gate.stage))?;
    line.push(b'.')?;
    push_number(line, u64::from(gate.place))
}

/// The gate at a position.
fn gate_at(gates: &[Gate], number: u32) -> Option<&Gate>
    ensures { option_copied result ≡ slice_get gates.now number }
{
    gates.get(number as usize)
}

/// Adds the name of the gate at a position.
fn push_name_at(line: &mut Vec<u8>, system: &FaultSystem, gates: &[Gate], number: u32) -> Mem<()>
    ensures { OnOk result (line.new.items ≡ line.old.items ++ name_at system.now gates.now number) }
{
    match gate_at(gates, number) {
        Some(gate) => push_gate_name(line, system, gate),
        None => Ok(()),
    }
}

/// Adds the first line, which names the top.
pub(crate) fn push_top(line: &mut Vec<u8>, system: &FaultSystem, tree: &Tree) -> Mem<()>
    ensures { OnOk result (line.new.items ≡ line.old.items ++ top_text (name_at system.now tree.now.gates tree.now.top)) }
{
    line.extend_from_slice(b"toplevel \"")?;
    push_name_at(line, system, tree.gates.items(), tree.top)?;
    line.extend_from_slice(b"\";\n")?;
    Ok(())
}

/// Adds the name of an input.
fn push_input_name(
    line: &mut Vec<u8>,
    system: &FaultSystem,
    gates: &[Gate],
    input: Input,
) -> Mem<()>
    ensures { OnOk result (line.new.items ≡ line.old.items ++ input_name system.now gates.now input) }
{
    match input {
        Input::Event(number) => {
            line.extend_from_slice(system.event_name(number))?;
            Ok(())
        }
        Input::Gate(number) => push_name_at(line, system, gates, number),
    }
}

/// Adds the names of inputs in quotes, a blank before each.
fn push_inputs(
    line: &mut Vec<u8>,
    system: &FaultSystem,
    gates: &[Gate],
    inputs: &[Input],
) -> Mem<()>
    ensures { OnOk result (line.new.items ≡ line.old.items ++ inputs_text (map (input_name system.now gates.now) inputs.now)) }
{
    for input in inputs {
        line.extend_from_slice(b" \"")?;
        push_input_name(line, system, gates, *input)?;
        line.push(b'"')?;
    }
    Ok(())
}

/// Adds the word of a gate's kind: `and`, `or`, or how many of how many inputs.
fn push_kind(line: &mut Vec<u8>, kind: GateKind, count: usize) -> Mem<()>
    ensures { OnOk result (line.new.items ≡ line.old.items ++ kind_text kind count) }
{
    match kind {
        GateKind::And => {
            line.extend_from_slice(b"and")?;
            Ok(())
        }
        GateKind::Or => {
            line.extend_from_slice(b"or")?;
            Ok(())
        }
        GateKind::AtLeast(least) => {
            push_number(line, u64::from(least))?;
            line.extend_from_slice(b"of")?;
            push_number(line, count as u64)
        }
    }
}

/// Adds the line of a gate.
pub(crate) fn push_gate(
    line: &mut Vec<u8>,
    system: &FaultSystem,
    gates: &[Gate],
    gate: &Gate,
) -> Mem<()>
    ensures { OnOk result (line.new.items ≡ line.old.items ++ line_text (gate_line system.now gates.now gate.now)) }
{
    let inputs = gate.inputs.items();
    line.push(b'"')?;
    push_gate_name(line, system, gate)?;
    line.extend_from_slice(b"\" ")?;
    push_kind(line, gate.kind, inputs.len())?;
    push_inputs(line, system, gates, inputs)?;
    line.extend_from_slice(b";\n")?;
    Ok(())
}

/// Adds the rate of an event; one that has none has the conservative one.
fn push_rate(line: &mut Vec<u8>, rates: &[Rate], number: u32) -> Mem<()>
    ensures { OnOk result (line.new.items
        ≡ line.old.items ++ (rate_word (rate_of rates.now number).kind ++ (rate_of rates.now number).text)) }
{
    match rates.get(number as usize) {
        Some(rate) => {
            line.extend_from_slice(rate_word(rate.kind))?;
            line.extend_from_slice(rate.text.items())?;
            Ok(())
        }
        None => {
            line.extend_from_slice(b"prob=1")?;
            Ok(())
        }
    }
}

/// Adds the line of an event.
pub(crate) fn push_event(
    line: &mut Vec<u8>,
    system: &FaultSystem,
    rates: &[Rate],
    number: u32,
) -> Mem<()>
    ensures { OnOk result (line.new.items ≡ line.old.items ++ line_text (event_line system.now rates.now number)) }
{
    line.push(b'"')?;
    line.extend_from_slice(system.event_name(number))?;
    line.extend_from_slice(b"\" ")?;
    push_rate(line, rates, number)?;
    line.extend_from_slice(b";\n")?;
    Ok(())
}
