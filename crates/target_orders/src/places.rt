//! The places of events: in the order in which they are met from the facts on that depend on most.
//!
//! Nothing is claimed of them: they decide how narrow the range of the events of a fact is.

use fault_system::{Bits, FaultSystem, Formula};
use plain_values::Mem;
use std::alloc::Global;

// What is met in a formula.
#[derive(Clone, Copy)]
enum Item {
    Fact(u32),
    Event(u32),
}

#[derive(Drop)]
struct Meeting {
    places: Vec<u32>,
    // how many events were met
    count: u32,
    events: Bits,
    facts: Bits,
    // what is met next stands last
    waiting: Vec<Item>,
}

/// The place of each event. What the parts of a formula have is met part by part.
pub(crate) fn event_places(alloc: Global, system: &FaultSystem, order: &[u32]) -> Mem<Vec<u32>> {
    let mut meeting = first_meeting(alloc, system)?;
    meet_all(&mut meeting, system, order)?;
    Ok(meeting.places)
}

// Nothing is met yet.
fn first_meeting(alloc: Global, system: &FaultSystem) -> Mem<Meeting> {
    let places = vec![in alloc; 0u32; system.events() as usize]?;
    let events = Bits::new(alloc, system.events())?;
    let facts = Bits::new(alloc, system.facts())?;
    Ok(Meeting {
        places,
        count: 0,
        events,
        facts,
        waiting: Vec::new(alloc),
    })
}

// Meets all on which facts depend, the last of them first.
fn meet_all(meeting: &mut Meeting, system: &FaultSystem, order: &[u32]) -> Mem<()> {
    for fact in order.iter().rev() {
        meet_from(meeting, system, *fact)?;
    }
    Ok(())
}

// Meets all on which a fact depends.
fn meet_from(meeting: &mut Meeting, system: &FaultSystem, fact: u32) -> Mem<()> {
    meeting.waiting.push(Item::Fact(fact))?;
    for step in 0..u64::MAX {
        match meeting.waiting.pop() {
            Some(Item::Fact(number)) => meet_fact(meeting, system, number)?,
            Some(Item::Event(number)) => meet_event(meeting, number),
            None => return Ok(()),
        }
    }
    Ok(())
}

fn meet_event(meeting: &mut Meeting, number: u32) {
    if number >= meeting.events.size() || meeting.events.has(number) {
        return;
    }
    meeting.events.put(number);
    if (number as usize) < meeting.places.len() {
        meeting.places[number as usize] = meeting.count;
        meeting.count = meeting.count.saturating_add(1);
    }
}

fn meet_fact(meeting: &mut Meeting, system: &FaultSystem, number: u32) -> Mem<()> {
    if number >= meeting.facts.size() || meeting.facts.has(number) {
        return Ok(());
    }
    meeting.facts.put(number);
    match system.fact(number) {
        Some(fact) => push_items(&mut meeting.waiting, &fact.formula),
        None => Ok(()),
    }
}

// Adds what stands in a formula, the last part first.
#[cycle(items)]
fn push_items(items: &mut Vec<Item>, formula: &Formula) -> Mem<()> {
    match formula {
        Formula::True => Ok(()),
        Formula::Event(number) => push_item(items, Item::Event(*number)),
        Formula::Fact(number) => push_item(items, Item::Fact(*number)),
        Formula::And(parts) | Formula::Or(parts) | Formula::AtLeast(_, parts) => {
            push_parts(items, parts.items())
        }
    }
}

fn push_item(items: &mut Vec<Item>, item: Item) -> Mem<()> {
    items.push(item)?;
    Ok(())
}

#[cycle(items)]
fn push_parts(items: &mut Vec<Item>, parts: &[Formula]) -> Mem<()> {
    for part in parts.iter().rev() {
        push_items(items, part)?;
    }
    Ok(())
}
