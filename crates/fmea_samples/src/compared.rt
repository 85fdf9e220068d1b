//! Random systems, whose rows are compared with those that the rounds under each event give.

use crate::names::are_rising;
use crate::reading::{name_of, number_of};
use fault_system::{Bits, EventInfo, FactInfo, FaultSystem, Formula, is_system};
use fmea_rows::{Row, rows};
use plain_values::{List, Mem};
use std::alloc::Global;
use std::io;
use std::io::Print;

/// Numbers that look random, each from the one before it.
#[derive(Drop)]
struct Dice {
    state: u64,
}

impl Dice {
    // A number below another one.
    fn roll(&mut self, below: u32) -> u32 {
        self.state = self
            .state
            .wrapping_mul(6_364_136_223_846_793_005)
            .wrapping_add(1_442_695_040_888_963_407);
        let high = (self.state >> 33) as u32;
        if below == 0 { 0 } else { high % below }
    }
}

/// Compares the rows of so many random systems: the line has the number from which they are made, and how many there are.
pub fn print_compared(rt: &impl Print, alloc: Global, numbers: &[u8]) -> io::Result<()> {
    let mut words = numbers.split(|b| *b == b' ');
    let seed = number_of(words.next().unwrap_or(&[]));
    let count = number_of(words.next().unwrap_or(&[]));
    let mut dice = Dice {
        state: u64::from(seed),
    };
    let mut different = 0u64;
    for _ in 0..count {
        if !is_right(alloc, &mut dice)? {
            different = different.saturating_add(1);
        }
    }
    println!(rt; "systems {count} different {different}")
}

// Whether the rows of a random system are those of the rounds.
fn is_right(alloc: Global, dice: &mut Dice) -> Mem<bool> {
    let fact_count = dice.roll(11).saturating_add(1);
    let event_count = dice.roll(3).saturating_add(1);
    let facts = facts_of(alloc, dice, fact_count, event_count)?;
    let events = events_of(alloc, event_count)?;
    let effects = effects_of(alloc, dice, fact_count)?;
    if !is_system(alloc, facts.items(), events.items())? {
        return Ok(false);
    }
    let system = FaultSystem::new(facts, events);
    if !are_rising(effects.items(), system.facts()) {
        return Ok(false);
    }
    let found = rows(alloc, &system, effects.items())?;
    let plain = plain_rows(alloc, &system, effects.items())?;
    Ok(are_same(found.items(), plain.items()))
}

fn are_same(a: &[Row], b: &[Row]) -> bool {
    if a.len() != b.len() {
        return false;
    }
    for (x, y) in a.iter().zip(b) {
        if x.event != y.event || x.effect != y.effect || x.round != y.round {
            return false;
        }
    }
    true
}

// The rows, by the rounds under each event.
fn plain_rows(alloc: Global, system: &FaultSystem, effects: &[u32]) -> Mem<List<Row>> {
    let none = Bits::new(alloc, system.events())?;
    let base = system.rounds(alloc, &none)?;
    let mut rows = List::new(alloc);
    for event in 0..system.events() {
        let mut alone = Bits::new(alloc, system.events())?;
        alone.put(event);
        let times = system.rounds(alloc, &alone)?;
        add_rows(base.items(), times.items(), effects, event, &mut rows)?;
    }
    Ok(rows)
}

fn add_rows(
    base: &[u32],
    times: &[u32],
    effects: &[u32],
    event: u32,
    rows: &mut List<Row>,
) -> Mem<()> {
    for effect in effects {
        let before = base.get(*effect as usize).copied().unwrap_or(0);
        let round = times.get(*effect as usize).copied().unwrap_or(0);
        let row = Row {
            event,
            effect: *effect,
            round,
        };
        rows.push_if(row, before == 0 && round > 0)?;
    }
    Ok(())
}

fn facts_of(alloc: Global, dice: &mut Dice, facts: u32, events: u32) -> Mem<List<FactInfo>> {
    let mut list = List::new(alloc);
    for number in 0..facts {
        let name = name_of(alloc, &[number.min(255) as u8])?;
        let formula = large(alloc, dice, facts, events)?;
        list.push(FactInfo {
            name,
            owner: 0,
            formula,
        })?;
    }
    Ok(list)
}

fn events_of(alloc: Global, events: u32) -> Mem<List<EventInfo>> {
    let mut list = List::new(alloc);
    for number in 0..events {
        let name = name_of(alloc, &[number.min(255) as u8])?;
        list.push(EventInfo {
            name,
            owner: 0,
            key: List::new(alloc),
        })?;
    }
    Ok(list)
}

fn effects_of(alloc: Global, dice: &mut Dice, facts: u32) -> Mem<List<u32>> {
    let mut list = List::new(alloc);
    for number in 0..facts {
        list.push_if(number, dice.roll(3) > 0)?;
    }
    Ok(list)
}

// A formula of at most two levels.
fn large(alloc: Global, dice: &mut Dice, facts: u32, events: u32) -> Mem<Formula> {
    if dice.roll(3) == 0 {
        return Ok(leaf(dice, facts, events));
    }
    let mut parts = List::new(alloc);
    for _ in 0..dice.roll(4) {
        let part = small(alloc, dice, facts, events)?;
        parts.push(part)?;
    }
    Ok(joined(dice, parts))
}

fn small(alloc: Global, dice: &mut Dice, facts: u32, events: u32) -> Mem<Formula> {
    if dice.roll(2) == 0 {
        return Ok(leaf(dice, facts, events));
    }
    let mut parts = List::new(alloc);
    for _ in 0..dice.roll(4) {
        parts.push(leaf(dice, facts, events))?;
    }
    Ok(joined(dice, parts))
}

fn joined(dice: &mut Dice, parts: List<Formula>) -> Formula {
    match dice.roll(3) {
        0 => Formula::And(parts),
        1 => Formula::Or(parts),
        _ => Formula::AtLeast(dice.roll(4), parts),
    }
}

fn leaf(dice: &mut Dice, facts: u32, events: u32) -> Formula {
    match dice.roll(40) {
        0 => Formula::True,
        1..=28 => Formula::Fact(dice.roll(facts)),
        _ => Formula::Event(dice.roll(events)),
    }
}
