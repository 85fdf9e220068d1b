//! A tree of the gates that are reached, by fact, stage and place.

ghost use Rattle.std.specs.Prelude.{◌≡◌, ◌<◌, ◌^◌, ◌||◌, [], ℕ, IfOk, length, map, filter, option_copied, slice_get};
ghost use Rattle.std.specs.HashMap.{get};
ghost use Rattle.std.specs.List.{list_any, range_with_len};
ghost use Rattle.fault_system.specs.Truth.{member};
ghost use Rattle.round_gates.specs.declared.node.GateKey.{GateKey as Key};
ghost use Rattle.round_gates.specs.contracts.node.GateKeyPartialEq.TheImpl.{eq-value as key_eq};
ghost use Rattle.round_gates.specs.inner.Reached.{first_line, place_from};
ghost use Rattle.round_gates.specs.Trees.{events_in, is_event};
ghost use Rattle.round_gates.specs.inner.Trees.{place_of, input_for, gate_with, gate_for, tree_of};

use crate::node::{GateKey, GateKind, Line, Node};
use crate::tree::{Gate, Input, Tree};
use fault_system::Bits;
use indexmap::IndexSet;
use plain_values::{List, Mem};
use std::alloc::Global;
use std::collections::HashMap;

/// The position of a name.
fn place_of(keys: &IndexSet<GateKey>, key: GateKey) -> u32
    requires { length keys.now.keys < 2 ^ 32 }
    ensures { result ≡ place_of keys.now.keys key }
{
    match keys.get_index_of(&key) {
        Some(place) => place as u32,
        None => 0,
    }
}

/// The input that a node is.
fn input_for(keys: &IndexSet<GateKey>, node: Node) -> Input
    requires { length keys.now.keys < 2 ^ 32 }
    ensures { result ≡ input_for keys.now.keys node }
{
    match node {
        Node::Basic(event) => Input::Event(event),
        Node::Gate(key) => Input::Gate(place_of(keys, key)),
        Node::Always | Node::Never => Input::Event(0),
    }
}

/// The inputs that nodes are.
fn inputs_for(alloc: Global, keys: &IndexSet<GateKey>, nodes: &[Node]) -> Mem<List<Input>>
    requires { length keys.now.keys < 2 ^ 32 }
    ensures { IfOk result (λ inputs. inputs ≡ map (input_for keys.now.keys) nodes.now) }
{
    let mut inputs = List::new(alloc);
    for node in nodes {
        inputs.push(input_for(keys, *node))?;
    }
    Ok(inputs)
}

fn gate_with(
    alloc: Global,
    keys: &IndexSet<GateKey>,
    key: GateKey,
    kind: GateKind,
    nodes: &[Node],
) -> Mem<Gate>
    requires { length keys.now.keys < 2 ^ 32 }
    ensures { IfOk result (λ gate. gate ≡ record {
      fact = key.fact;
      stage = key.stage;
      place = key.place;
      kind = kind;
      inputs = map (input_for keys.now.keys) nodes.now;
    }) }
{
    let inputs = inputs_for(alloc, keys, nodes)?;
    Ok(Gate {
        fact: key.fact,
        stage: key.stage,
        place: key.place,
        kind,
        inputs,
    })
}

/// The gate at a place.
fn line_at(lines: &[Line], place: u32) -> Option<&Line>
    ensures { option_copied result ≡ slice_get lines.now place }
{
    lines.get(place as usize)
}

/// The first gate of a name.
fn first_line<'a>(
    lines: &'a [Line],
    places: &HashMap<GateKey, u32>,
    key: GateKey,
) -> Option<&'a Line>
    requires { (other : Key) → get key_eq.it places.now other ≡ place_from 0 lines.now other }
    ensures { option_copied result ≡ first_line lines.now key }
{
    match places.get(&key) {
        Some(place) => line_at(lines, *place),
        None => None,
    }
}

/// The gate of a name.
fn gate_for(
    alloc: Global,
    lines: &[Line],
    places: &HashMap<GateKey, u32>,
    keys: &IndexSet<GateKey>,
    key: GateKey,
) -> Mem<Gate>
    requires few { length keys.now.keys < 2 ^ 32 }
    requires places { (other : Key) → get key_eq.it places.now other ≡ place_from 0 lines.now other }
    ensures { IfOk result (λ gate. gate ≡ gate_for lines.now keys.now.keys key) }
{
    match first_line(lines, places, key) {
        Some(line) => gate_with(alloc, keys, key, line.kind, line.inputs.items()),
        None => gate_with(alloc, keys, key, GateKind::Or, &[]),
    }
}

/// The gates of all names.
fn gates_for(
    alloc: Global,
    lines: &[Line],
    places: &HashMap<GateKey, u32>,
    keys: &IndexSet<GateKey>,
) -> Mem<List<Gate>>
    requires few { length keys.now.keys < 2 ^ 32 }
    requires places { (other : Key) → get key_eq.it places.now other ≡ place_from 0 lines.now other }
    ensures { IfOk result (λ gates. gates ≡ map (gate_for lines.now keys.now.keys) keys.now.keys) }
{
    let mut gates = List::new(alloc);
    for key in keys.as_slice() {
        gates.push(gate_for(alloc, lines, places, keys, *key)?)?;
    }
    Ok(gates)
}

/// Marks an event.
fn mark_event(marks: &mut Bits, input: Input)
    ensures size { length marks.new ≡ length marks.old }
    ensures marks { (n : ℕ) → n < length marks.old → member marks.new n ≡ member marks.old n || is_event n input }
{
    if let Input::Event(event) = input {
        if event < marks.size() {
            marks.put(event);
        }
    }
}

fn mark_events(marks: &mut Bits, inputs: &[Input])
    ensures size { length marks.new ≡ length marks.old }
    ensures marks { (n : ℕ) → n < length marks.old → member marks.new n ≡ member marks.old n || list_any (is_event n) inputs.now }
{
    for input in inputs {
        mark_event(marks, *input);
    }
}

fn mark_all(marks: &mut Bits, gates: &[Gate])
    ensures size { length marks.new ≡ length marks.old }
    ensures marks { (n : ℕ) → n < length marks.old → member marks.new n
        ≡ member marks.old n || list_any (λ gate. list_any (is_event n) gate.inputs) gates.now }
{
    for gate in gates {
        mark_events(marks, gate.inputs.items());
    }
}

/// The numbers of a set, rising.
fn numbers_of(alloc: Global, marks: &Bits) -> Mem<List<u32>>
    ensures { IfOk result (λ numbers. numbers ≡ filter (member marks.now) (range_with_len 0 (length marks.now))) }
{
    let mut numbers = List::new(alloc);
    for number in 0..marks.size() {
        numbers.push_if(number, marks.has(number))?;
    }
    Ok(numbers)
}

/// The numbers of the events that are inputs of some gates, of so many events.
fn events_in(alloc: Global, events: u32, gates: &[Gate]) -> Mem<List<u32>>
    ensures { IfOk result (λ numbers. numbers ≡ events_in events gates.now) }
{
    let mut marks = Bits::new(alloc, events)?;
    mark_all(&mut marks, gates);
    numbers_of(alloc, &marks)
}

/// The tree of these gates.
pub(crate) fn tree_of(
    alloc: Global,
    events: u32,
    lines: &[Line],
    places: &HashMap<GateKey, u32>,
    keys: &IndexSet<GateKey>,
    top: GateKey,
) -> Mem<Tree>
    requires few { length keys.now.keys < 2 ^ 32 }
    requires places { (other : Key) → get key_eq.it places.now other ≡ place_from 0 lines.now other }
    ensures { IfOk result (λ tree. tree ≡ tree_of events lines.now keys.now.keys top) }
{
    let gates = gates_for(alloc, lines, places, keys)?;
    let events = events_in(alloc, events, gates.items())?;
    Ok(Tree {
        top: place_of(keys, top),
        gates,
        events,
    })
}
