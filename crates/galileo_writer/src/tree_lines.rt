//! The text of a tree, line by line.

ghost use Rattle.std.specs.Prelude.{◌≡◌, ◌++◌, ◌+◌, ◌<◌, ◌↔◌, ℕ, IfOk, IsTrue, [], false, length};
ghost use Rattle.fault_system.specs.Truth.{NumberSet};
ghost use Rattle.fault_system.specs.Systems.{Holds};
ghost use Rattle.round_gates.specs.Targets.{IsTreeFor};
ghost use Rattle.round_gates.specs.inner.Targets.{IsWellMade};
ghost use Rattle.round_gates.specs.inner.Trees.{TreeHolds};
ghost use Rattle.galileo_writer.specs.Sound.{IsSound};
ghost use Rattle.galileo_writer.specs.Truth.{TextTrue};
ghost use Rattle.galileo_writer.specs.TreeText.{names_of, tree_galileo, tree_text};
ghost use Rattle.galileo_writer.specs.inner.TreeText.{AreRates, HasTextNames, event_lines, gate_lines};

use crate::lines::{push_event, push_gate, push_top};
use fault_system::FaultSystem;
use fta_outside::Lines;
use plain_values::{List, Mem};
use property_reader::Rate;
use round_gates::{Gate, Tree};
use std::marker::Model;

/// A tree as a Galileo text that is made line by line: `toplevel "G";`, then a line for each gate, in order, and for each event,
/// by number. Its value is what is left of the text.
///
/// A gate is named by its fact, `@`, its stage, `.` and its place.
#[derive(Drop)]
pub struct TreeLines {
    system: FaultSystem,
    tree: Tree,
    rates: List<Rate>,
    // whether the line of the top was made
    begun: bool,
    // of how many gates and of how many events the lines were made
    gates: usize,
    events: usize,
}

impl Model for TreeLines {
    ghost use Rattle.std.specs.Prelude.{List, ℕ};
    ghost use Rattle.galileo_writer.specs.inner.TreeText.{text_left};

    ghost Value = { List ℕ };

    ghost view = { λ t. text_left t.system t.tree t.rates t.begun t.gates t.events };
}

impl TreeLines {
    /// The text of a tree.
    ///
    /// There is one rate for each event of the system. Names of facts and events hold neither a quote nor a line feed and are not
    /// empty, and no name of an event holds `@`. The text is true for the names of a set of events exactly where the tree is true
    /// for the set, and so, where the tree is that of a target, exactly where the target holds under the set.
    pub fn new(system: FaultSystem, tree: Tree, rates: List<Rate>) -> TreeLines
        requires made { IsWellMade system tree }
        requires rates { AreRates system rates }
        requires names { HasTextNames system }
        ensures text { result ≡ tree_text system tree rates }
        ensures sound { IsSound (tree_galileo system tree rates) }
        ensures truth { (events : NumberSet) → TextTrue (tree_text system tree rates) (names_of system events) ↔ TreeHolds tree events }
        ensures target { (target : ℕ) (events : NumberSet) → IsTreeFor system target tree
            → TextTrue (tree_text system tree rates) (names_of system events) ↔ Holds system events target }
    {
        let _events = system.events();
        TreeLines {
            system,
            tree,
            rates,
            begun: false,
            gates: 0,
            events: 0,
        }
    }
}

impl Lines for TreeLines {
    ghost left = { λ text. text };

    fn next(&mut self, line: &mut Vec<u8>) -> Mem<bool> {
        if !self.begun {
            line.clear();
            push_top(line, &self.system, &self.tree)?;
            self.begun = true;
            return Ok(true);
        }
        if put_gate(line, &self.system, self.tree.gates.items(), self.gates)? {
            self.gates += 1;
            return Ok(true);
        }
        let events = self.tree.events.items();
        if put_event(line, &self.system, self.rates.items(), events, self.events)? {
            self.events += 1;
            return Ok(true);
        }
        Ok(false)
    }
}

/// Puts the line of the gate at a position into a buffer, in place of what that holds, and says whether there is one.
fn put_gate(line: &mut Vec<u8>, system: &FaultSystem, gates: &[Gate], at: usize) -> Mem<bool>
    ensures line { IfOk result (λ there. IsTrue there → gate_lines system.now gates.now at ≡ line.new.items ++ gate_lines system.now gates.now (at + 1)) }
    ensures some { IfOk result (λ there. IsTrue there → 0 < length line.new.items) }
    ensures within { IfOk result (λ there. IsTrue there → at < length gates.now) }
    ensures none { IfOk result (λ there. there ≡ false → gate_lines system.now gates.now at ≡ []) }
{
    match gates.get(at) {
        Some(gate) => {
            line.clear();
            push_gate(line, system, gates, gate)?;
            Ok(true)
        }
        None => Ok(false),
    }
}

/// Puts the line of the event at a position into a buffer, in place of what that holds, and says whether there is one.
fn put_event(
    line: &mut Vec<u8>,
    system: &FaultSystem,
    rates: &[Rate],
    events: &[u32],
    at: usize,
) -> Mem<bool>
    ensures line { IfOk result (λ there. IsTrue there → event_lines system.now rates.now events.now at ≡ line.new.items ++ event_lines system.now rates.now events.now (at + 1)) }
    ensures some { IfOk result (λ there. IsTrue there → 0 < length line.new.items) }
    ensures within { IfOk result (λ there. IsTrue there → at < length events.now) }
    ensures none { IfOk result (λ there. there ≡ false → event_lines system.now rates.now events.now at ≡ []) }
{
    match events.get(at) {
        Some(number) => {
            line.clear();
            push_event(line, system, rates, *number)?;
            Ok(true)
        }
        None => Ok(false),
    }
}
