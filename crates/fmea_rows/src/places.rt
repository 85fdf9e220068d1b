//! Proposes what an event alone changes of the rounds under no event, looking only at the places of formulas that change.
//!
//! Nothing is claimed of what is proposed: the tests of `testing` decide. So the proposal decides how long the rows take, and not
//! which they are.

use crate::change::Change;
use fault_system::{Bits, FaultSystem, Formula};
use plain_values::Mem;
use std::alloc::Global;
use std::cmp::Reverse;
use std::collections::BinaryHeap;

/// The round of a place that never comes to be true: it is later than all others. It stands for no place too.
const NEVER: u32 = 4_294_967_295;

/// A place of a formula: the whole formula of a fact, or a part. A part that is a fact or an event has no parts.
#[derive(Clone, Copy)]
pub(crate) struct Place {
    // the place of which it is a part
    whole: u32,
    // how many of its parts must be true
    least: u32,
    /// The place of its first part, which those of the others follow.
    pub first: u32,
    /// How many parts it has.
    count: u32,
    // the next place at which the same fact or the same event stands
    next: u32,
    // the first round in which it is true, by the rounds that are known
    round: u32,
    /// Where one true part is enough: which part comes to be true first; and where all must be true, which does last.
    pub marked: u32,
}

/// The places of the formulas of some facts of a system, numbered: first the whole formula of each fact, then the parts. Their rounds are those under
/// no event and, while an event is looked at, those under it as far as they are known.
#[derive(Drop)]
pub(crate) struct Places {
    places: Vec<Place>,
    // the first place at which each fact and each event stands
    facts: Vec<u32>,
    events: Vec<u32>,
    // the facts that came to an earlier round, with the earliest round first
    waiting: BinaryHeap<(Reverse<u32>, u32)>,
    // the places that changed, as they were
    changed: Vec<(u32, Place)>,
    // how many places and parts of these were looked at for an event
    steps: u64,
}

fn value(values: &[u32], at: u32) -> u32 {
    values.get(at as usize).copied().unwrap_or(NEVER)
}

fn blank(whole: u32) -> Place {
    Place {
        whole,
        least: 0,
        first: 0,
        count: 0,
        next: NEVER,
        round: NEVER,
        marked: 0,
    }
}

/// The place of a number.
pub(crate) fn place_at(places: &[Place], at: u32) -> Place {
    match places.get(at as usize) {
        Some(place) => *place,
        None => blank(NEVER),
    }
}

impl Places {
    /// Those of the facts of a set, with the table of no event, in which 0 stands for no round.
    pub fn of(alloc: Global, system: &FaultSystem, facts: &Bits, base: &[u32]) -> Mem<Places> {
        let mut places = Places {
            places: vec![in alloc; blank(NEVER); system.facts() as usize]?,
            facts: vec![in alloc; NEVER; system.facts() as usize]?,
            events: vec![in alloc; NEVER; system.events() as usize]?,
            waiting: BinaryHeap::new(alloc),
            changed: Vec::new(alloc),
            steps: 0,
        };
        for number in 0..system.facts() {
            match system.fact(number) {
                Some(fact) if facts.has(number) => {
                    add(alloc, &mut places, number, &fact.formula, base)?
                }
                _ => {}
            }
        }
        Ok(places)
    }

    /// How many there are.
    pub fn size(&self) -> u64 {
        self.places.len() as u64
    }

    /// How many of them and of their parts were looked at for the last event.
    pub fn steps(&self) -> u64 {
        self.steps
    }

    /// All places.
    pub fn all(&self) -> &[Place] {
        self.places.as_slice()
    }

    fn at(&self, place: u32) -> Place {
        place_at(self.places.as_slice(), place)
    }

    fn put(&mut self, at: u32, place: Place) {
        if (at as usize) < self.places.len() {
            self.places[at as usize] = place;
        }
    }

    /// The facts that come to hold earlier under an event alone than under none, rising, with their rounds.
    pub fn propose(&mut self, alloc: Global, event: u32) -> Mem<Vec<Change>> {
        let mut changes = Vec::new(alloc);
        self.steps = 0;
        let first = value(self.events.as_slice(), event);
        self.lower_all(alloc, first, 1)?;
        for _ in 0..u64::MAX {
            let Some((Reverse(round), fact)) = self.waiting.pop() else {
                break;
            };
            if self.at(fact).round == round {
                changes.push(Change { fact, time: round })?;
                let first = value(self.facts.as_slice(), fact);
                self.lower_all(alloc, first, round.saturating_add(1))?;
            }
        }
        changes.sort_by_key(|change: &Change| change.fact)?;
        Ok(changes)
    }

    // The places of a fact or of an event are true from a round on.
    fn lower_all(&mut self, alloc: Global, first: u32, round: u32) -> Mem<()> {
        let mut place = first;
        for _ in 0..u64::MAX {
            if place == NEVER {
                return Ok(());
            }
            self.lower(alloc, place, round)?;
            place = self.at(place).next;
        }
        Ok(())
    }

    // A place is true from a round on, and so may be those of which it is a part.
    fn lower(&mut self, alloc: Global, place: u32, round: u32) -> Mem<()> {
        let mut at = place;
        let mut comes = round;
        for _ in 0..u64::MAX {
            let old = self.at(at);
            self.steps = self.steps.saturating_add(1 + u64::from(old.count));
            if comes >= old.round {
                return Ok(());
            }
            self.changed.push((at, old))?;
            self.put(
                at,
                Place {
                    round: comes,
                    ..old
                },
            );
            if (at as usize) < self.facts.len() {
                self.waiting.push((Reverse(comes), at))?;
                return Ok(());
            }
            comes = self.tell(alloc, at, comes)?;
            at = old.whole;
        }
        Ok(())
    }

    // The round of the place of which a place is a part, if that is true from a round on.
    fn tell(&mut self, alloc: Global, part: u32, round: u32) -> Mem<u32> {
        let at = self.at(part).whole;
        let whole = self.at(at);
        if round >= whole.round {
            return Ok(whole.round);
        }
        let number = part.saturating_sub(whole.first);
        if whole.least == 1 {
            self.mark(at, number)?;
            return Ok(round);
        }
        if whole.least != whole.count {
            self.steps = self.steps.saturating_add(u64::from(whole.count));
            return self.round_of(alloc, whole);
        }
        if number != whole.marked {
            return Ok(whole.round);
        }
        let last = self.last_of(whole);
        self.mark(at, last)?;
        Ok(self.part(whole, last).round)
    }

    // Marks a part of a place.
    fn mark(&mut self, at: u32, number: u32) -> Mem<()> {
        let old = self.at(at);
        self.changed.push((at, old))?;
        self.put(
            at,
            Place {
                marked: number,
                ..old
            },
        );
        Ok(())
    }

    // The part of a place that comes to be true last; one that never does is looked for from the marked one on.
    fn last_of(&self, whole: Place) -> u32 {
        for number in whole.marked..whole.count {
            if self.part(whole, number).round == NEVER {
                return number;
            }
        }
        let mut last = 0;
        for number in 0..whole.count {
            if self.part(whole, number).round > self.part(whole, last).round {
                last = number;
            }
        }
        last
    }

    fn part(&self, whole: Place, number: u32) -> Place {
        self.at(whole.first.saturating_add(number))
    }

    // The first round in which as many parts are true as must be.
    fn round_of(&self, alloc: Global, whole: Place) -> Mem<u32> {
        if whole.least == 0 {
            return Ok(1);
        }
        if whole.least == whole.count {
            return Ok(self.latest(whole));
        }
        let mut rounds = Vec::new(alloc);
        for number in 0..whole.count {
            rounds.push(self.part(whole, number).round)?;
        }
        rounds.sort()?;
        Ok(value(rounds.as_slice(), whole.least - 1))
    }

    fn latest(&self, whole: Place) -> u32 {
        let mut round = 1;
        for number in 0..whole.count {
            round = self.part(whole, number).round.max(round);
        }
        round
    }

    /// Gives all places the rounds that they have under no event.
    pub fn settle(&mut self) {
        for _ in 0..u64::MAX {
            let Some((at, place)) = self.changed.pop() else {
                return;
            };
            self.put(at, place);
        }
    }

    // Says of a place what it needs, and adds its parts.
    fn begin(&mut self, at: u32, least: u32, count: u32) -> Mem<u32> {
        let first = self.places.len().min(4_294_967_295) as u32;
        for _ in 0..count {
            self.places.push(blank(at))?;
        }
        let old = self.at(at);
        self.put(
            at,
            Place {
                least,
                first,
                count,
                ..old
            },
        );
        Ok(first)
    }

    // Gives a place the round that it has by those of its parts.
    fn end(&mut self, alloc: Global, at: u32) -> Mem<()> {
        let old = self.at(at);
        let round = self.round_of(alloc, old)?;
        let marked = self.part_at(old, round);
        self.put(
            at,
            Place {
                round,
                marked,
                ..old
            },
        );
        Ok(())
    }

    // The first part of a place that comes to be true in a round.
    fn part_at(&self, whole: Place, round: u32) -> u32 {
        for number in 0..whole.count {
            if self.part(whole, number).round == round {
                return number;
            }
        }
        0
    }
}

// Adds the formula of a place, with its parts.
#[cycle(places)]
fn add(alloc: Global, places: &mut Places, at: u32, formula: &Formula, base: &[u32]) -> Mem<()> {
    let old = places.at(at);
    match formula {
        Formula::True => {
            places.put(at, Place { round: 1, ..old });
            Ok(())
        }
        Formula::Event(number) => {
            let next = value(places.events.as_slice(), *number);
            places.put(at, Place { next, ..old });
            put_value(places.events.as_mut_slice(), *number, at);
            Ok(())
        }
        Formula::Fact(number) => {
            let next = value(places.facts.as_slice(), *number);
            let time = value(base, *number);
            let round = if time == 0 {
                NEVER
            } else {
                time.saturating_add(1)
            };
            places.put(at, Place { next, round, ..old });
            put_value(places.facts.as_mut_slice(), *number, at);
            Ok(())
        }
        Formula::And(parts) => {
            add_parts(alloc, places, at, parts.len_u32(), parts.items(), base)
        }
        Formula::Or(parts) => add_parts(alloc, places, at, 1, parts.items(), base),
        Formula::AtLeast(least, parts) => {
            add_parts(alloc, places, at, *least, parts.items(), base)
        }
    }
}

// Adds the parts of a place.
#[cycle(places)]
fn add_parts(
    alloc: Global,
    places: &mut Places,
    at: u32,
    least: u32,
    parts: &[Formula],
    base: &[u32],
) -> Mem<()> {
    let mut place = places.begin(at, least, parts.len().min(4_294_967_295) as u32)?;
    for part in parts {
        add(alloc, places, place, part, base)?;
        place = place.saturating_add(1);
    }
    places.end(alloc, at)
}

fn put_value(values: &mut [u32], at: u32, new: u32) {
    if (at as usize) < values.len() {
        values[at as usize] = new;
    }
}
