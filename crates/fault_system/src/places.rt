//! The rounds in which facts come to hold, found in one pass over the places of the formulas.
//!
//! Nothing is claimed of these rounds: who uses them tests each fact, and makes the rounds in another way where a test
//! fails. So the pass decides how long that takes, and not what holds.

ghost use Rattle.std.specs.Prelude.{◌<◌, ◌^◌, length};

use crate::bits::Bits;
use crate::formula::{FactInfo, Formula};
use plain_values::Mem;
use std::alloc::Global;

/// The places of formulas, numbered: first the whole formula of each fact, then the parts.
#[derive(Drop)]
struct Places {
    // the place of which each place is a part; of a whole formula itself
    wholes: Vec<u32>,
    // how many more parts must be true for the place to be true
    missing: Vec<u32>,
    // the last place of each fact, and for each place the one of the same fact before it
    last: Vec<Option<u32>>,
    before: Vec<Option<u32>>,
    // the true places whose wholes have not been told yet
    waiting: Vec<u32>,
}

impl Places {
    // The places of so many facts, with no parts yet.
    fn new(alloc: Global, facts: usize) -> Mem<Places> {
        Ok(Places {
            wholes: vec![in alloc; 0; facts]?,
            missing: vec![in alloc; 1; facts]?,
            last: vec![in alloc; None; facts]?,
            before: vec![in alloc; None; facts]?,
            waiting: Vec::new(alloc),
        })
    }

    // A new place, which is a part of another.
    fn add_part(&mut self, whole: u32) -> Mem<u32> {
        let place = self.wholes.len().min(4_294_967_295) as u32;
        self.wholes.push(whole)?;
        self.missing.push(1)?;
        self.before.push(None)?;
        Ok(place)
    }

    // Says how many parts a place needs; with none it is true.
    fn need(&mut self, place: u32, count: u32) -> Mem<()> {
        if count == 0 {
            self.waiting.push(place)?;
        }
        if (place as usize) < self.missing.len() {
            self.missing[place as usize] = count;
        }
        Ok(())
    }

    // Says that a place is one of a fact.
    fn link(&mut self, place: u32, fact: u32) {
        let (at, of) = (place as usize, fact as usize);
        if at < self.before.len() && of < self.last.len() {
            self.before[at] = self.last[of];
            self.last[of] = Some(place);
        }
    }

    // Tells a place that one more of its parts is true.
    fn tell(&mut self, place: u32) -> Mem<()> {
        let at = place as usize;
        if at < self.missing.len() && self.missing[at] > 0 {
            self.missing[at] -= 1;
            if self.missing[at] == 0 {
                self.waiting.push(place)?;
            }
        }
        Ok(())
    }

    // Goes on from the true places, round by round: the round in which each fact comes to hold, and 0 for the others.
    fn run(&mut self, alloc: Global) -> Mem<Vec<u32>> {
        let mut rounds = vec![in alloc; 0u32; self.last.len()]?;
        let mut earlier = Vec::new(alloc);
        let mut now = Vec::new(alloc);
        let mut round: u32 = 1;
        let mut told = None;
        for step in 0..self.wholes.len().min(1 << 32) * 4 + 4 {
            if let Some(place) = told {
                self.tell(place)?;
                told = value_at(self.before.as_slice(), place);
            } else if let Some(place) = self.waiting.pop() {
                if (place as usize) < rounds.len() {
                    rounds[place as usize] = round;
                    now.push(place)?;
                } else if let Some(whole) = self.wholes.get(place as usize).copied() {
                    self.tell(whole)?;
                }
            } else if let Some(fact) = earlier.pop() {
                told = value_at(self.last.as_slice(), fact);
            } else if now.is_empty() {
                return Ok(rounds);
            } else {
                std::mem::swap(&mut earlier, &mut now);
                round = round.saturating_add(1);
            }
        }
        Ok(rounds)
    }
}

fn value_at(values: &[Option<u32>], at: u32) -> Option<u32> {
    match values.get(at as usize) {
        Some(value) => *value,
        None => None,
    }
}

// Adds the formula of a place, with its parts.
#[cycle(places)]
fn add(places: &mut Places, place: u32, formula: &Formula, events: &Bits) -> Mem<()> {
    match formula {
        Formula::True => places.need(place, 0),
        Formula::Event(number) => places.need(place, if events.has(*number) { 0 } else { 1 }),
        Formula::Fact(number) => {
            places.link(place, *number);
            Ok(())
        }
        Formula::And(parts) => {
            places.need(place, parts.items().len() as u32)?;
            add_parts(places, place, parts.items(), events)
        }
        Formula::Or(parts) => add_parts(places, place, parts.items(), events),
        Formula::AtLeast(least, parts) => {
            places.need(place, *least)?;
            add_parts(places, place, parts.items(), events)
        }
    }
}

#[cycle(places)]
fn add_parts(places: &mut Places, place: u32, parts: &[Formula], events: &Bits) -> Mem<()> {
    for part in parts {
        let at = places.add_part(place)?;
        add(places, at, part, events)?;
    }
    Ok(())
}

/// The rounds in which facts come to hold under a set of events, one for each fact, and 0 for those that do not hold.
pub(crate) fn rounds_of(alloc: Global, facts: &[FactInfo], events: &Bits) -> Mem<Vec<u32>>
    requires { length facts.now < 2 ^ 32 }
{
    let mut places = Places::new(alloc, facts.len())?;
    for (number, fact) in facts.iter().enumerate() {
        add(&mut places, number as u32, &fact.formula, events)?;
    }
    places.run(alloc)
}
