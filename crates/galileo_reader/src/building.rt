//! The tree of lines.

ghost use Rattle.std.specs.Prelude.{◌≡◌, IfOk, map};
ghost use Rattle.galileo_reader.specs.Nodes.{event_in, events_of, gate_in, gate_place, gate_places, gates_of, input_of, tree_of};

use crate::nodes::Nodes;
use crate::statement::{PlacedName, Statement};
use crate::tree::{NamedEvent, NamedGate, NamedTree};
use plain_values::{List, Mem, copied};
use property_reader::Rate;
use round_gates::Input;
use std::alloc::Global;

/// The nodes that names name.
fn inputs_of(alloc: Global, nodes: &Nodes<'_>, names: &[PlacedName]) -> Mem<List<Input>>
    ensures { IfOk result (λ inputs. inputs ≡ map (input_of nodes.now) names.now) }
{
    let mut inputs = List::new(alloc);
    for name in names {
        inputs.push(nodes.input(name))?;
    }
    Ok(inputs)
}

/// The gate of a line.
fn gate_in(alloc: Global, nodes: &Nodes<'_>, line: &Statement) -> Mem<Option<NamedGate>>
    ensures { IfOk result (λ gate. gate ≡ gate_in nodes.now line.now) }
{
    match line {
        Statement::Gate(name, kind, _, inputs) => {
            let inputs = inputs_of(alloc, nodes, inputs.items())?;
            let name = copied(alloc, name.name.items())?;
            Ok(Some(NamedGate {
                name,
                kind: *kind,
                inputs,
            }))
        }
        _ => Ok(None),
    }
}

/// The gates of all lines.
fn gates_of(alloc: Global, nodes: &Nodes<'_>) -> Mem<List<NamedGate>>
    ensures { IfOk result (λ gates. gates ≡ gates_of nodes.now) }
{
    let mut gates = List::new(alloc);
    for line in nodes.lines() {
        gates.push_some(gate_in(alloc, nodes, line)?)?;
    }
    Ok(gates)
}

/// The basic event of a line.
fn event_in(alloc: Global, line: &Statement) -> Mem<Option<NamedEvent>>
    ensures { IfOk result (λ event. event ≡ event_in line.now) }
{
    match line {
        Statement::Event(name, rate) => {
            let text = copied(alloc, rate.text.items())?;
            let name = copied(alloc, name.name.items())?;
            Ok(Some(NamedEvent {
                name,
                rate: Rate {
                    kind: rate.kind,
                    text,
                },
            }))
        }
        _ => Ok(None),
    }
}

/// The basic events of all lines.
fn events_of(alloc: Global, lines: &[Statement]) -> Mem<List<NamedEvent>>
    ensures { IfOk result (λ events. events ≡ events_of lines.now) }
{
    let mut events = List::new(alloc);
    for line in lines {
        events.push_some(event_in(alloc, line)?)?;
    }
    Ok(events)
}

/// The tree of lines with this top.
pub(crate) fn tree_of(alloc: Global, nodes: &Nodes<'_>, top: &PlacedName) -> Mem<NamedTree>
    ensures { IfOk result (λ tree. tree ≡ tree_of nodes.now top.now) }
{
    let gates = gates_of(alloc, nodes)?;
    let events = events_of(alloc, nodes.lines())?;
    Ok(NamedTree {
        top: nodes.input(top),
        gates,
        events,
    })
}

fn gate_place(line: &Statement) -> Option<u32>
    ensures { result ≡ gate_place line.now }
{
    match line {
        Statement::Gate(name, _, _, _) => Some(name.at),
        _ => None,
    }
}

/// The places of the lines of gates.
pub(crate) fn gate_places(alloc: Global, lines: &[Statement]) -> Mem<List<u32>>
    ensures { IfOk result (λ places. places ≡ gate_places lines.now) }
{
    let mut places = List::new(alloc);
    for line in lines {
        places.push_some(gate_place(line))?;
    }
    Ok(places)
}
