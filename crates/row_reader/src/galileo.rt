//! What a Galileo text comes to.

ghost use Rattle.galileo_reader.specs.inner.Trees.{IsNamedTree};

use crate::text::Text;
use fault_system::FaultSystem;
use galileo_reader::{Flaw, GalileoFault, NamedTree, read, to_system};
use plain_listing::plain_listing;
use plain_values::Mem;
use property_reader::RateKind;
use round_gates::{GateKind, Input};
use std::alloc::Global;

/// What a row wants of a text.
#[derive(Clone, Copy)]
pub(crate) enum Wanted {
    /// The tree that it is.
    Tree,
    /// The minimal cut sets of its top.
    Sets,
    /// What is wrong with it.
    Flaw,
}

/// Writes what a text comes to: the tree or its minimal cut sets, or what is wrong with it.
pub(crate) fn put_galileo(alloc: Global, wanted: Wanted, text: &[u8], out: &mut Text) {
    if text.len() > 4_194_304 {
        return out.refuse("a text of more than 4194304 bytes is not read");
    }
    match read(alloc, text, false) {
        Ok(tree) => put_value(alloc, wanted, &tree, out),
        Err(GalileoFault::Refused(flaw)) => put_flaw(flaw, out),
        Err(GalileoFault::Memory) => out.refuse("memory is wanting"),
    }
}

fn put_value(alloc: Global, wanted: Wanted, tree: &NamedTree, out: &mut Text)
    requires { IsNamedTree tree.now }
{
    match wanted {
        Wanted::Sets => {
            if put_sets(alloc, tree, out).is_err() {
                out.refuse("memory is wanting");
            }
        }
        Wanted::Tree | Wanted::Flaw => put_tree(tree, out),
    }
}

fn put_flaw(flaw: Flaw, out: &mut Text) {
    match flaw {
        Flaw::BadLine(at) => put_code(b"G1 at ", at, out),
        Flaw::DynamicGate(at) => put_code(b"G7 at ", at, out),
        Flaw::BadCount(at) => put_code(b"G6 at ", at, out),
        Flaw::DuplicateNode(at) => put_code(b"G4 at ", at, out),
        Flaw::NoTop => out.put(b"G5"),
        Flaw::UnknownNode(at) => put_code(b"G2 at ", at, out),
        Flaw::Cyclic(at) => put_code(b"G3 at ", at, out),
    }
}

fn put_code(code: &[u8], at: u32, out: &mut Text) {
    out.put(code);
    out.put_number(u64::from(at));
}

/// Writes the top, the gates and the events, a line each.
fn put_tree(tree: &NamedTree, out: &mut Text) {
    out.put(b"top");
    put_input(tree.top, out);
    out.put(b"\n");
    for gate in tree.gates.items() {
        out.put(b"gate ");
        out.put(gate.name.items());
        put_kind(gate.kind, out);
        for input in gate.inputs.items() {
            put_input(*input, out);
        }
        out.put(b"\n");
    }
    for event in tree.events.items() {
        out.put(b"event ");
        out.put(event.name.items());
        out.put(match event.rate.kind {
            RateKind::Lambda => b" lambda=".as_slice(),
            RateKind::Prob => b" prob=".as_slice(),
        });
        out.put(event.rate.text.items());
        out.put(b"\n");
    }
}

fn put_kind(kind: GateKind, out: &mut Text) {
    match kind {
        GateKind::And => out.put(b" and"),
        GateKind::Or => out.put(b" or"),
        GateKind::AtLeast(least) => {
            out.put(b" ");
            out.put_number(u64::from(least));
            out.put(b"of");
        }
    }
}

/// Writes a gate as `g` and an event as `e`, each with its number.
fn put_input(input: Input, out: &mut Text) {
    match input {
        Input::Gate(number) => {
            out.put(b" g");
            out.put_number(u64::from(number));
        }
        Input::Event(number) => {
            out.put(b" e");
            out.put_number(u64::from(number));
        }
    }
}

/// Writes the minimal cut sets, a line each, as the plain program lists them.
fn put_sets(alloc: Global, tree: &NamedTree, out: &mut Text) -> Mem<()>
    requires { IsNamedTree tree.now }
{
    let (system, target) = to_system(alloc, tree)?;
    if system.events() > 16 {
        out.refuse("a row that lists sets has at most 16 events");
        return Ok(());
    }
    let sets = plain_listing(alloc, &system, target)?;
    for set in sets.items() {
        put_set(&system, set.items(), out);
    }
    out.put(b"end\n");
    Ok(())
}

/// Writes how many events a set has, and their names in quotes; `0 none` for no event.
fn put_set(system: &FaultSystem, set: &[u32], out: &mut Text) {
    out.put_number(set.len() as u64);
    if set.is_empty() {
        out.put(b" none");
    }
    for event in set {
        out.put(b" \"");
        out.put(system.event_name(*event));
        out.put(b"\"");
    }
    out.put(b"\n");
}
