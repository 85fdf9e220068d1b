//! The system of a tree.

ghost use Rattle.std.specs.Prelude.{◌≡◌, ◌↔◌, ◌<◌, ◌++◌, ◌∷◌, [], IfOk, OnOk, length, map};
ghost use Rattle.fault_system.specs.Truth.{NumberSet};
ghost use Rattle.fault_system.specs.Systems.{Holds};
ghost use Rattle.galileo_writer.specs.Truth.{Tells};
ghost use Rattle.galileo_writer.specs.TreeText.{names_of};
ghost use Rattle.round_gates.specs.Formulas.{input_formula};
ghost use Rattle.galileo_reader.specs.inner.Trees.{IsNamedTree};
ghost use Rattle.galileo_reader.specs.TreeSystems.{event_info, gate_fact, system_of, target_of, top_facts};
ghost use Rattle.galileo_reader.specs.Truth.{event_name};
ghost use Rattle.galileo_reader.specs.inner.Truth.{tree_galileo};

use crate::tree::{NamedEvent, NamedGate, NamedTree};
use fault_system::{EventInfo, FactInfo, FaultSystem, Formula};
use plain_values::{List, Mem, Name, copied};
use round_gates::{GateKind, Input, input_formula, kind_formula};
use std::alloc::Global;

/// Inputs as formulas.
fn input_formulas(alloc: Global, inputs: &[Input]) -> Mem<List<Formula>>
    ensures { IfOk result (λ made. made ≡ map input_formula inputs.now) }
{
    let mut made = List::new(alloc);
    for input in inputs {
        made.push(input_formula(*input))?;
    }
    Ok(made)
}

/// A gate as a fact.
fn gate_fact(alloc: Global, gate: &NamedGate) -> Mem<FactInfo>
    ensures { IfOk result (λ fact. fact ≡ gate_fact gate.now) }
{
    let name = copied(alloc, gate.name.items())?;
    let parts = input_formulas(alloc, gate.inputs.items())?;
    Ok(FactInfo {
        name,
        owner: 0,
        formula: kind_formula(gate.kind, parts),
    })
}

/// The name of an event by its number.
fn event_name(alloc: Global, tree: &NamedTree, number: u32) -> Mem<Name>
    ensures { IfOk result (λ name. name ≡ event_name tree.now number) }
{
    match tree.events.items().get(number as usize) {
        Some(event) => copied(alloc, event.name.items()),
        None => Ok(List::new(alloc)),
    }
}

/// An event as a fact of its name: an `or` of it.
fn event_fact(alloc: Global, tree: &NamedTree, number: u32) -> Mem<FactInfo>
    ensures { IfOk result (λ fact. fact ∷ [] ≡ top_facts tree.now (Input.Event number)) }
{
    let name = event_name(alloc, tree, number)?;
    let parts = input_formulas(alloc, &[Input::Event(number)])?;
    Ok(FactInfo {
        name,
        owner: 0,
        formula: kind_formula(GateKind::Or, parts),
    })
}

/// Adds the fact of a top that is an event.
fn push_top(alloc: Global, tree: &NamedTree, facts: &mut List<FactInfo>) -> Mem<()>
    ensures { OnOk result (facts.new ≡ facts.old ++ top_facts tree.now tree.now.top) }
{
    match tree.top {
        Input::Gate(_) => Ok(()),
        Input::Event(number) => {
            facts.push(event_fact(alloc, tree, number)?)?;
            Ok(())
        }
    }
}

/// Gates as facts.
fn gate_facts(alloc: Global, gates: &[NamedGate]) -> Mem<List<FactInfo>>
    ensures { IfOk result (λ facts. facts ≡ map gate_fact gates.now) }
{
    let mut facts = List::new(alloc);
    for gate in gates {
        facts.push(gate_fact(alloc, gate)?)?;
    }
    Ok(facts)
}

fn event_info(alloc: Global, event: &NamedEvent) -> Mem<EventInfo>
    ensures { IfOk result (λ info. info ≡ event_info event.now) }
{
    Ok(EventInfo {
        name: copied(alloc, event.name.items())?,
        owner: 0,
        key: List::new(alloc),
    })
}

fn event_infos(alloc: Global, events: &[NamedEvent]) -> Mem<List<EventInfo>>
    ensures { IfOk result (λ infos. infos ≡ map event_info events.now) }
{
    let mut infos = List::new(alloc);
    for event in events {
        infos.push(event_info(alloc, event)?)?;
    }
    Ok(infos)
}

fn target_of(tree: &NamedTree) -> u32
    ensures { result ≡ target_of tree.now tree.now.top }
{
    match tree.top {
        Input::Gate(number) => number,
        Input::Event(_) => tree.gates.len_u32(),
    }
}

/// The facts of a tree.
fn facts_of(alloc: Global, tree: &NamedTree) -> Mem<List<FactInfo>>
    ensures { IfOk result (λ facts. facts ≡ map gate_fact tree.now.gates ++ top_facts tree.now tree.now.top) }
{
    let mut facts = gate_facts(alloc, tree.gates.items())?;
    push_top(alloc, tree, &mut facts)?;
    Ok(facts)
}

/// The system of a tree, and its target: the gates are its facts, in order, and the events its events. A top that is an event
/// is one more fact of its name, an `or` of the event.
///
/// The inputs and the top are among the nodes, and no two nodes have one name, as in each tree that [`read`](crate::read)
/// answers. The target holds under a set of events exactly where the tree, as a text, is true for their names.
pub fn to_system(alloc: Global, tree: &NamedTree) -> Mem<(FaultSystem, u32)>
    requires { IsNamedTree tree.now }
    ensures system { IfOk result (λ made. made.0 ≡ system_of tree.now) }
    ensures target { IfOk result (λ made. made.1 ≡ target_of tree.now tree.now.top) }
    ensures within { IfOk result (λ made. made.1 < length made.0.facts) }
    ensures truth { IfOk result (λ made. (events : NumberSet) → Tells (tree_galileo tree.now) (names_of made.0 events) ↔ Holds made.0 events made.1) }
{
    let facts = facts_of(alloc, tree)?;
    let events = event_infos(alloc, tree.events.items())?;
    Ok((FaultSystem::new(facts, events), target_of(tree)))
}
