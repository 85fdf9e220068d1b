//! How far facts and events are from an effect: a search from the effect, by what occurs in formulas.
//!
//! Nothing is claimed of what is found: the tests of `columns` decide.

use crate::change::time_at;
use crate::columns::Ends;
use fault_system::{FaultSystem, Formula};
use plain_values::Mem;
use std::alloc::Global;

/// How far facts and events are from an effect. The effect has 1, what occurs in its formula 2, and so on; an event that occurs in the
/// formula of a fact has the distance of that fact. What does not lead to the effect has 0.
#[derive(Drop)]
pub(crate) struct Distances {
    pub facts: Vec<u32>,
    pub events: Vec<u32>,
    /// The facts that lead to the effect, the nearest first.
    pub order: Vec<u32>,
}

impl Distances {
    /// Those from an effect.
    pub fn of(alloc: Global, system: &FaultSystem, ends: &Ends, effect: u32) -> Mem<Distances> {
        let mut found = Distances {
            facts: vec![in alloc; 0u32; system.facts() as usize]?,
            events: vec![in alloc; 0u32; system.events() as usize]?,
            order: Vec::new(alloc),
        };
        found.note_fact(effect, 1)?;
        let mut done: usize = 0;
        for _ in 0..u64::MAX {
            let Some(number) = found.order.get(done).copied() else {
                break;
            };
            done = done.saturating_add(1);
            let distance = time_at(found.facts.as_slice(), number);
            match system.fact(number) {
                Some(fact) => {
                    let latest = latest_of(ends, &fact.formula, distance);
                    visit(&mut found, &fact.formula, distance, latest)?;
                }
                None => {}
            }
        }
        Ok(found)
    }

    fn note_fact(&mut self, fact: u32, distance: u32) -> Mem<()> {
        let at = fact as usize;
        if at < self.facts.len() && self.facts[at] == 0 {
            self.facts[at] = distance;
            self.order.push(fact)?;
        }
        Ok(())
    }

    fn note_event(&mut self, event: u32, distance: u32) {
        let at = event as usize;
        if at < self.events.len() && (self.events[at] == 0 || self.events[at] > distance) {
            self.events[at] = distance;
        }
    }
}

// How far an event is that occurs in the formula of a fact of a distance: as far, and one farther where it must wait for facts.
fn latest_of(ends: &Ends, formula: &Formula, distance: u32) -> u32 {
    if formula.is_true(&ends.all, &ends.no_fact) {
        return distance;
    }
    distance.saturating_add(1)
}

// Notes what occurs in the formula of a fact.
#[cycle(visit)]
fn visit(found: &mut Distances, formula: &Formula, distance: u32, latest: u32) -> Mem<()> {
    match formula {
        Formula::True => Ok(()),
        Formula::Event(number) => {
            found.note_event(*number, latest);
            Ok(())
        }
        Formula::Fact(number) => found.note_fact(*number, distance.saturating_add(1)),
        Formula::And(parts) | Formula::Or(parts) | Formula::AtLeast(_, parts) => {
            visit_parts(found, parts.items(), distance, latest)
        }
    }
}

#[cycle(visit)]
fn visit_parts(found: &mut Distances, parts: &[Formula], distance: u32, latest: u32) -> Mem<()> {
    for part in parts {
        visit(found, part, distance, latest)?;
    }
    Ok(())
}
