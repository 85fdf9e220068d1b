//! The gates that are reached from the last stage of a target, and no others.

ghost use Rattle.std.specs.Prelude.{◌≡◌, ◌<◌, ◌^◌, ◌||◌, ◌∷◌, [], IfOk, OnOk, length};
ghost use Rattle.std.specs.HashMap.{get};
ghost use Rattle.std.specs.List.{IsDistinct};
ghost use Rattle.round_gates.specs.Trees.{NamesRise};
ghost use Rattle.round_gates.specs.declared.node.GateKey.{GateKey as Key};
ghost use Rattle.round_gates.specs.contracts.node.GateKeyPartialEq.TheImpl.{eq-value as key_eq};
ghost use Rattle.round_gates.specs.Nodes.{has_node, same_key};
ghost use Rattle.round_gates.specs.inner.Reached.{AreBehind, AreReached, IsVisited, first_some, is_place, has_key, place_from, place_if};

use crate::node::{GateKey, Line, Node};
use indexmap::IndexSet;
use plain_values::Mem;
use std::alloc::Global;
use std::collections::HashMap;

/// Notes the place of a gate under its name, unless an earlier one has the name.
fn note_place(table: &mut HashMap<GateKey, u32>, key: GateKey, place: u32) -> Mem<()>
    ensures { OnOk result ((other : Key) → get key_eq.it table.new other
        ≡ first_some (get key_eq.it table.old other) (place_if key place other)) }
{
    if table.contains_key(&key) {
        return Ok(());
    }
    table.insert(key, place)?;
    Ok(())
}

/// The place of the first gate of each name.
pub(crate) fn places_of(alloc: Global, lines: &[Line]) -> Mem<HashMap<GateKey, u32>>
    requires { length lines.now < 2 ^ 32 }
    ensures { IfOk result (λ table. (key : Key) → get key_eq.it table key ≡ place_from 0 lines.now key) }
{
    let mut table = HashMap::new(alloc);
    for (place, line) in lines.iter().enumerate() {
        note_place(&mut table, line.key, place as u32)?;
    }
    Ok(table)
}

/// Adds the gates that are inputs.
fn add_inputs(keys: &mut IndexSet<GateKey>, inputs: &[Node]) -> Mem<()>
    ensures { OnOk result ((key : Key) → has_key keys.new.keys key
        ≡ has_key keys.old.keys key || has_node inputs.now (Node.Gate key)) }
{
    for input in inputs {
        add_input(keys, *input)?;
    }
    Ok(())
}

fn add_input(keys: &mut IndexSet<GateKey>, input: Node) -> Mem<()>
    ensures { OnOk result ((key : Key) → has_key keys.new.keys key
        ≡ has_key keys.old.keys key || has_node (input ∷ []) (Node.Gate key)) }
{
    match input {
        Node::Gate(key) => {
            keys.insert(key)?;
            Ok(())
        }
        _ => Ok(()),
    }
}

/// Whether a place is that of the first gate of a name.
fn is_first(places: &HashMap<GateKey, u32>, key: GateKey, place: u32) -> bool
    ensures { result ≡ is_place (get key_eq.it places.now key) place }
{
    match places.get(&key) {
        Some(found) => *found == place,
        None => false,
    }
}

/// Adds the inputs of a gate if it is reached.
fn visit(keys: &mut IndexSet<GateKey>, line: &Line, is_first: bool) -> Mem<()>
    ensures { OnOk result (IsVisited is_first line.now keys.old.keys keys.new.keys) }
{
    if is_first && keys.contains(&line.key) {
        add_inputs(keys, line.inputs.items())?;
    }
    Ok(())
}

/// The names of the gates that are reached from one, in a pass from the last gate to the first.
pub(crate) fn reached(
    alloc: Global,
    lines: &[Line],
    places: &HashMap<GateKey, u32>,
    top: GateKey,
) -> Mem<IndexSet<GateKey>>
    requires few { length lines.now < 2 ^ 32 }
    requires places { (key : Key) → get key_eq.it places.now key ≡ place_from 0 lines.now key }
    requires behind { AreBehind lines.now }
    ensures { IfOk result (λ keys. AreReached lines.now top keys.keys) }
{
    let mut keys = IndexSet::new(alloc);
    keys.insert(top)?;
    let count = lines.len();
    for done in 0..count {
        let place = count - 1 - done;
        let line = &lines[place];
        visit(&mut keys, line, is_first(places, line.key, place as u32))?;
    }
    Ok(keys)
}

/// The names of the gates that are reached from one, by fact, stage and place.
pub(crate) fn reached_in_order(
    alloc: Global,
    lines: &[Line],
    places: &HashMap<GateKey, u32>,
    top: GateKey,
) -> Mem<IndexSet<GateKey>>
    requires few { length lines.now < 2 ^ 32 }
    requires places { (key : Key) → get key_eq.it places.now key ≡ place_from 0 lines.now key }
    requires behind { AreBehind lines.now }
    ensures reached { IfOk result (λ keys. AreReached lines.now top keys.keys) }
    ensures distinct { IfOk result (λ keys. IsDistinct same_key keys.keys) }
    ensures rise { IfOk result (λ keys. NamesRise keys.keys) }
{
    let mut keys = reached(alloc, lines, places, top)?;
    keys.sort()?;
    Ok(keys)
}
