//! The text of a tree, element by element.

ghost use Rattle.std.specs.Prelude.{◌≡◌, ◌++◌, ◌<◌, ◌^◌, ◌↔◌, ℕ, List, IfOk, OnOk, length};
ghost use Rattle.fault_system.specs.Truth.{NumberSet};
ghost use Rattle.fault_system.specs.Systems.{Holds};
ghost use Rattle.property_reader.specs.declared.rate.Rate.{Rate};
ghost use Rattle.round_gates.specs.Targets.{IsTreeFor};
ghost use Rattle.round_gates.specs.inner.Trees.{TreeHolds};
ghost use Rattle.galileo_writer.specs.TreeText.{names_of};
ghost use Rattle.galileo_writer.specs.inner.TreeText.{AreRates};
ghost use Rattle.open_psa_writer.specs.Sound.{IsSoundMef};
ghost use Rattle.open_psa_writer.specs.Truth.{MefTrue};
ghost use Rattle.open_psa_writer.specs.inner.TreeMef.{IsMefTree, past_top, text_left};
ghost use Rattle.open_psa_writer.specs.TreeMef.{mef_text, tree_mef};
ghost use Rattle.open_psa_writer.specs.declared.tree_lines.Place.TheVariants.{Start, Gates, Events};

use crate::gates::push_group;
use crate::numbers::push_event;
use fault_system::FaultSystem;
use fta_outside::Lines;
use plain_values::{List, Mem};
use property_reader::Rate;
use round_gates::Tree;
use std::alloc::Global;
use std::marker::Model;

/// How far a text was made.
#[derive(Clone, Copy)]
pub enum Place {
    /// Nothing was made.
    Start,
    /// What stands before the gates, the top, and the other gates before this position, each with its auxiliary gates.
    Gates(usize),
    /// All gates, and so many events.
    Events(usize),
    /// All.
    End,
}

/// A tree as a text of the Open-PSA Model Exchange Format, which is made element by element: the top gate, the other gates, in order,
/// and the basic events, by number. Its value is what is left of the text.
///
/// The top is `g1`, the other gates are `g2` and so on, the events `e` and their number in the system, from 1 on. A label has the name.
/// A gate that counts and has a gate among its inputs is written in `and` and `or` alone, by auxiliary gates: `g12_2_5` is true where at
/// least 2 of the last 5 inputs of `g12` are. One that would need more than 1,000,000 of them is written by `atleast`.
#[derive(Drop)]
pub struct MefLines {
    alloc: Global,
    system: FaultSystem,
    tree: Tree,
    rates: List<Rate>,
    place: Place,
}

impl Model for MefLines {
    ghost use Rattle.std.specs.Prelude.{List, ℕ, ◌<◌, length};
    ghost use Rattle.open_psa_writer.specs.inner.TreeMef.{text_left};

    ghost Value = { List ℕ };

    ghost invariant = { λ t. t.tree.top < length t.tree.gates };

    ghost view = { λ t. text_left t.system t.tree t.rates t.place };
}

impl MefLines {
    /// The text of a tree.
    ///
    /// There is one rate for each event of the system. The text is true for the names of a set of events exactly where the tree is
    /// true for the set, and so, where the tree is that of a target, exactly where the target holds under the set.
    pub fn new(alloc: Global, system: FaultSystem, tree: Tree, rates: List<Rate>) -> MefLines
        requires made { IsMefTree system tree }
        requires rates { AreRates system rates }
        ensures text { result ≡ mef_text system tree rates }
        ensures sound { IsSoundMef (tree_mef system tree rates) }
        ensures truth { (events : NumberSet) → MefTrue (mef_text system tree rates) (names_of system events) ↔ TreeHolds tree events }
        ensures target { (target : ℕ) (events : NumberSet) → IsTreeFor system target tree
            → MefTrue (mef_text system tree rates) (names_of system events) ↔ Holds system events target }
    {
        let _events = system.events();
        let _gates = tree.gates.items();
        let _rates = rates.items();
        MefLines {
            alloc,
            system,
            tree,
            rates,
            place: Place::Start,
        }
    }
}

impl Lines for MefLines {
    ghost left = { λ text. text };

    fn next(&mut self, line: &mut Vec<u8>) -> Mem<bool> {
        match self.place {
            Place::Start => {
                put_front(self.alloc, line, &self.system, &self.tree)?;
                self.place = Place::Gates(0);
                Ok(true)
            }
            Place::Gates(at) => {
                self.place = put_other(self.alloc, line, &self.system, &self.tree, at)?;
                Ok(true)
            }
            Place::Events(at) => {
                self.place = put_event(line, &self.system, &self.tree, self.rates.items(), at)?;
                Ok(true)
            }
            Place::End => Ok(false),
        }
    }
}

/// Puts what stands before the gates, and the top, into a buffer, in place of what that holds.
fn put_front(alloc: Global, line: &mut Vec<u8>, system: &FaultSystem, tree: &Tree) -> Mem<()>
    requires top { tree.now.top < length tree.now.gates }
    ensures line { (rates : List Rate) → OnOk result (text_left system.now tree.now rates Start ≡ line.new.items ++ text_left system.now tree.now rates (Gates 0)) }
    ensures some { OnOk result (0 < length line.new.items) }
{
    let gates = tree.gates.items();
    line.clear();
    line.extend_from_slice(
        b"<?xml version=\"1.0\"?>\n<opsa-mef>\n<define-fault-tree name=\"tree\">\n",
    )?;
    push_group(
        alloc,
        line,
        system,
        tree.top,
        tree.top,
        &gates[tree.top as usize],
    )?;
    Ok(())
}

/// The position, or the next one where that is the top's.
fn past_top(top: u32, at: usize) -> usize
    ensures { result ≡ past_top top at }
{
    if at == top as usize { at + 1 } else { at }
}

/// A position as a number of 32 bits.
fn narrow(at: usize) -> u32
    requires { at < 2 ^ 32 }
    ensures { result ≡ at }
{
    at as u32
}

/// Puts the next gate from a position on that is not the top, or what stands between the gates and the events, into a buffer, in
/// place of what that holds, and answers the place behind it.
fn put_other(
    alloc: Global,
    line: &mut Vec<u8>,
    system: &FaultSystem,
    tree: &Tree,
    at: usize,
) -> Mem<Place>
    ensures line { (rates : List Rate) → IfOk result (λ place. text_left system.now tree.now rates (Gates at) ≡ line.new.items ++ text_left system.now tree.now rates place) }
    ensures some { IfOk result (λ place. 0 < length line.new.items) }
{
    let gates = tree.gates.items();
    let at = past_top(tree.top, at);
    line.clear();
    match gates.get(at) {
        Some(gate) => {
            push_group(alloc, line, system, tree.top, narrow(at), gate)?;
            Ok(Place::Gates(at + 1))
        }
        None => {
            line.extend_from_slice(b"</define-fault-tree>\n<model-data>\n")?;
            Ok(Place::Events(0))
        }
    }
}

/// Puts the event at a position, or what stands behind the events, into a buffer, in place of what that holds, and answers the
/// place behind it.
fn put_event(
    line: &mut Vec<u8>,
    system: &FaultSystem,
    tree: &Tree,
    rates: &[Rate],
    at: usize,
) -> Mem<Place>
    ensures line { IfOk result (λ place. text_left system.now tree.now rates.now (Events at) ≡ line.new.items ++ text_left system.now tree.now rates.now place) }
    ensures some { IfOk result (λ place. 0 < length line.new.items) }
{
    let events = tree.events.items();
    line.clear();
    match events.get(at) {
        Some(number) => {
            push_event(line, system, rates, *number)?;
            Ok(Place::Events(at + 1))
        }
        None => {
            line.extend_from_slice(b"</model-data>\n</opsa-mef>\n")?;
            Ok(Place::End)
        }
    }
}
