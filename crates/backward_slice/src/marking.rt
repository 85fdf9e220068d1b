ghost use Rattle.std.specs.Prelude.{◌<◌, ◌&&◌, OnOk, map, false, ◌==◌};
ghost use Rattle.std.specs.List.{list_any};
ghost use Rattle.fault_system.specs.Truth.{occurs, occurs_event};
ghost use Rattle.backward_slice.specs.inner.Marks.{Adds};

use crate::ways::Ways;
use fault_system::{Bits, Formula};
use plain_values::Mem;

/// What is marked so far: facts, events, and of the facts those that still wait for their formula to be looked at.
#[derive(Drop)]
pub(crate) struct Marking {
    pub facts: Bits,
    pub events: Bits,
    pub waiting: Vec<u32>,
    // how many facts and events were met, of which nothing is claimed: they decide when a marking is given up
    pub met_facts: u32,
    pub met_events: u32,
}

impl Marking {
    /// Marks a fact, if it is led to; a fact that was not marked waits.
    pub fn mark_fact(&mut self, number: u32, is_led: bool) -> Mem<()>
        ensures { OnOk result (Adds (λ n. (number == n) && is_led) (λ n. false) self.old self.new) }
    {
        if is_led && number < self.facts.size() && !self.facts.has(number) {
            self.waiting.push(number)?;
            self.facts.put(number);
            self.met_facts = self.met_facts.saturating_add(1);
        }
        Ok(())
    }

    /// Marks an event.
    pub fn mark_event(&mut self, number: u32)
        ensures { Adds (λ n. false) (λ n. number == n) self.old self.new }
    {
        if number < self.events.size() && !self.events.has(number) {
            self.events.put(number);
            self.met_events = self.met_events.saturating_add(1);
        }
    }
}

/// Marks the facts of the formula of a fact to which it is gone, and all its events.
#[cycle(visit)]
pub(crate) fn visit<W: Ways>(
    marking: &mut Marking,
    ways: &W,
    from: u32,
    formula: &Formula,
) -> Mem<()>
    ensures { OnOk result (Adds (λ n. occurs n formula.now && W.ways ways.now from n)
        (λ n. occurs_event n formula.now) marking.old marking.new) }
{
    match formula {
        Formula::True => Ok(()),
        Formula::Event(number) => {
            marking.mark_event(*number);
            Ok(())
        }
        Formula::Fact(number) => marking.mark_fact(*number, ways.leads(from, *number)),
        Formula::And(parts) | Formula::Or(parts) | Formula::AtLeast(_, parts) => {
            visit_parts(marking, ways, from, parts.items())
        }
    }
}

#[cycle(visit)]
fn visit_parts<W: Ways>(marking: &mut Marking, ways: &W, from: u32, parts: &[Formula]) -> Mem<()>
    ensures { OnOk result (Adds
        (λ n. list_any (λ part. part) (map (occurs n) parts.now) && W.ways ways.now from n)
        (λ n. list_any (λ part. part) (map (occurs_event n) parts.now)) marking.old marking.new) }
{
    for part in parts {
        visit(marking, ways, from, part)?;
    }
    Ok(())
}
