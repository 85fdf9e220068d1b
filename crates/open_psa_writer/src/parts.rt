//! The auxiliary gates of a gate that counts.

ghost use Rattle.std.specs.Prelude.{◌≡◌, ◌++◌, ◌+◌, ◌-◌, ◌<◌, ◌≤◌, ◌^◌, [], ◌∷◌, OnOk, codes, length, slice_index_or};
ghost use Rattle.std.specs.List.{flat_map, list_any};
ghost use Rattle.round_gates.specs.declared.node.GateKind.TheVariants.{And, Or};
ghost use Rattle.round_gates.specs.declared.tree.Input.TheVariants.{Event};
ghost use Rattle.open_psa_writer.specs.Mef.{Choice, Own, Over, Part, formula_text, gate_text, input_text, name_text};
ghost use Rattle.open_psa_writer.specs.TreeMef.{few_parts, is_any_gate, is_spread, numbered, part, part_formula, part_gate, part_row, part_rows};

use crate::gates::push_input;
use crate::names::push_number;
use plain_values::Mem;
use round_gates::Input;

/// The greatest number of auxiliary gates of a gate.
const MOST_PARTS: u64 = 1_000_000;

/// Whether an input is a gate.
fn is_any_gate(input: Input) -> bool
    ensures { result ≡ is_any_gate input }
{
    match input {
        Input::Event(_) => false,
        Input::Gate(_) => true,
    }
}

/// Whether a gate is among some inputs.
fn has_gate(inputs: &[Input]) -> bool
    ensures { result ≡ list_any is_any_gate inputs.now }
{
    inputs.iter().any(|input| is_any_gate(*input))
}

/// Whether a gate that asks for so many of so many inputs has few auxiliary gates.
fn are_few(least: u64, count: u64) -> bool
    requires { count < 2 ^ 63 }
    ensures { result ≡ few_parts least count }
{
    match least.checked_mul((count + 1).saturating_sub(least)) {
        Some(parts) => parts <= MOST_PARTS,
        None => false,
    }
}

/// Whether a gate that asks for so many of these inputs is written by auxiliary gates.
pub(crate) fn is_spread(least: u32, inputs: &[Input]) -> bool
    ensures { result ≡ is_spread least inputs.now }
{
    has_gate(inputs) && are_few(u64::from(least), inputs.len() as u64)
}

/// Adds the name of an auxiliary gate.
fn push_part_name(line: &mut Vec<u8>, number: u64, needed: u64, among: u64) -> Mem<()>
    ensures { OnOk result (line.new.items ≡ line.old.items ++ name_text (Part number needed among)) }
{
    push_number(line, number)?;
    line.extend_from_slice(b"_")?;
    push_number(line, needed)?;
    line.extend_from_slice(b"_")?;
    push_number(line, among)
}

/// Adds an auxiliary gate as an input.
fn push_part(line: &mut Vec<u8>, number: u64, needed: u64, among: u64) -> Mem<()>
    ensures { OnOk result (line.new.items ≡ line.old.items ++ input_text (part number needed among)) }
{
    line.extend_from_slice(b"<gate name=\"g")?;
    push_part_name(line, number, needed, among)?;
    line.extend_from_slice(b"\"/>\n")?;
    Ok(())
}

/// Adds an auxiliary gate as all that makes a gate true.
pub(crate) fn push_only_part(line: &mut Vec<u8>, number: u64, needed: u64, among: u64) -> Mem<()>
    ensures { OnOk result (line.new.items ≡ line.old.items ++ formula_text (Over Or (part number needed among ∷ []))) }
{
    push_part(line, number, needed, among)
}

/// Adds the last input as all that makes an auxiliary gate true.
fn push_last(line: &mut Vec<u8>, top: u32, first: Input) -> Mem<()>
    ensures { OnOk result (line.new.items ≡ line.old.items ++ formula_text (Over Or (numbered top first ∷ []))) }
{
    push_input(line, top, first)
}

/// Adds an input and an auxiliary gate.
fn push_pair(
    line: &mut Vec<u8>,
    top: u32,
    first: Input,
    number: u64,
    needed: u64,
    among: u64,
) -> Mem<()>
    ensures { OnOk result (line.new.items ≡ line.old.items ++ (input_text (numbered top first) ++ input_text (part number needed among))) }
{
    push_input(line, top, first)?;
    push_part(line, number, needed, among)
}

/// Adds `or` over an input and an auxiliary gate.
fn push_either(
    line: &mut Vec<u8>,
    top: u32,
    first: Input,
    number: u64,
    needed: u64,
    among: u64,
) -> Mem<()>
    ensures { OnOk result (line.new.items ≡ line.old.items ++ formula_text (Over Or (numbered top first ∷ part number needed among ∷ []))) }
{
    line.extend_from_slice(b"<or>\n")?;
    push_pair(line, top, first, number, needed, among)?;
    line.extend_from_slice(b"</or>\n")?;
    Ok(())
}

/// Adds `and` over an input and an auxiliary gate.
fn push_both(
    line: &mut Vec<u8>,
    top: u32,
    first: Input,
    number: u64,
    needed: u64,
    among: u64,
) -> Mem<()>
    ensures { OnOk result (line.new.items ≡ line.old.items ++ formula_text (Over And (numbered top first ∷ part number needed among ∷ []))) }
{
    line.extend_from_slice(b"<and>\n")?;
    push_pair(line, top, first, number, needed, among)?;
    line.extend_from_slice(b"</and>\n")?;
    Ok(())
}

/// Adds a choice: an input with an auxiliary gate that asks for one less, or one that asks for as many.
fn push_choice(
    line: &mut Vec<u8>,
    top: u32,
    first: Input,
    number: u64,
    needed: u64,
    among: u64,
) -> Mem<()>
    requires { 1 ≤ needed }
    ensures { OnOk result (line.new.items
        ≡ line.old.items ++ formula_text (Choice (numbered top first) (part number (needed - 1) among) (part number needed among))) }
{
    line.extend_from_slice(b"<or>\n<and>\n")?;
    push_pair(line, top, first, number, needed - 1, among)?;
    line.extend_from_slice(b"</and>\n")?;
    push_part(line, number, needed, among)?;
    line.extend_from_slice(b"</or>\n")?;
    Ok(())
}

/// Adds what makes an auxiliary gate true.
fn push_part_formula(
    line: &mut Vec<u8>,
    top: u32,
    number: u64,
    first: Input,
    needed: u64,
    among: u64,
) -> Mem<()>
    requires needed { 1 ≤ needed }
    requires among { 1 ≤ among }
    ensures { OnOk result (line.new.items ≡ line.old.items ++ formula_text (part_formula number (numbered top first) needed among)) }
{
    if among == 1 {
        push_last(line, top, first)
    } else if needed == 1 {
        push_either(line, top, first, number, needed, among - 1)
    } else if needed == among {
        push_both(line, top, first, number, needed - 1, among - 1)
    } else {
        push_choice(line, top, first, number, needed, among - 1)
    }
}

/// Adds what begins the definition of an auxiliary gate.
fn push_part_head(line: &mut Vec<u8>, number: u64, needed: u64, among: u64) -> Mem<()>
    ensures { OnOk result (line.new.items
        ≡ line.old.items ++ (codes "<define-gate name=\"g" ++ (name_text (Part number needed among) ++ codes "\">\n"))) }
{
    line.extend_from_slice(b"<define-gate name=\"g")?;
    push_part_name(line, number, needed, among)?;
    line.extend_from_slice(b"\">\n")?;
    Ok(())
}

/// The input from which on so many are left.
fn first_of(inputs: &[Input], among: usize) -> Input
    requires some { 1 ≤ among }
    requires inside { among ≤ length inputs.now }
    ensures { result ≡ slice_index_or inputs.now (length inputs.now - among) (Event 0) }
{
    inputs[inputs.len() - among]
}

/// Adds the definition of an auxiliary gate.
fn push_part_gate(
    line: &mut Vec<u8>,
    top: u32,
    number: u64,
    inputs: &[Input],
    needed: usize,
    among: usize,
) -> Mem<()>
    requires needed { 1 ≤ needed }
    requires some { 1 ≤ among }
    requires inside { among ≤ length inputs.now }
    ensures { OnOk result (line.new.items ≡ line.old.items ++ gate_text (part_gate top number inputs.now needed among)) }
{
    let first = first_of(inputs, among);
    push_part_head(line, number, needed as u64, among as u64)?;
    push_part_formula(line, top, number, first, needed as u64, among as u64)?;
    line.extend_from_slice(b"</define-gate>\n")?;
    Ok(())
}

/// Adds the auxiliary gates that ask for so many.
fn push_part_row(
    line: &mut Vec<u8>,
    top: u32,
    number: u64,
    inputs: &[Input],
    least: usize,
    needed: usize,
) -> Mem<()>
    requires some { 1 ≤ needed }
    requires inside { needed ≤ least }
    ensures { OnOk result (line.new.items ≡ line.old.items ++ flat_map gate_text (part_row top number inputs.now least needed)) }
{
    let width = (inputs.len() + 1).saturating_sub(least);
    for more in 0..width {
        push_part_gate(line, top, number, inputs, needed, needed + more)?;
    }
    Ok(())
}

/// Adds the auxiliary gates of a gate that asks for so many of these inputs.
pub(crate) fn push_part_rows(
    line: &mut Vec<u8>,
    top: u32,
    number: u64,
    inputs: &[Input],
    least: u32,
) -> Mem<()>
    ensures { OnOk result (line.new.items ≡ line.old.items ++ flat_map gate_text (part_rows top number inputs.now least)) }
{
    let all = least as usize;
    for row in 0..all {
        push_part_row(line, top, number, inputs, all, row + 1)?;
    }
    Ok(())
}
