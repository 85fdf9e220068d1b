//! Systems that are written in a line, and what the plain program lists of each of their facts.

use fault_system::Formula::{And, AtLeast, Event, Fact, Or, True};
use fault_system::{EventInfo, FactInfo, FaultSystem, Formula, is_system};
use plain_listing::plain_listing;
use plain_values::{List, Mem, Name};
use std::alloc::Global;
use std::io;
use std::io::Print;

/// Prints the minimal cut sets of each fact of a system with four events.
///
/// A formula is `or`, `and` or a digit, for at least so many, and behind it its parts: `f0` is the first fact, and `e0` the first event.
pub fn print_listings(rt: &impl Print, alloc: Global, line: &[u8]) -> io::Result<()> {
    let facts = facts_of(alloc, line)?;
    let events = events_of(alloc)?;
    if !is_system(alloc, facts.items(), events.items())? {
        return println!(rt; "no system");
    }
    let system = FaultSystem::new(facts, events);
    for target in 0..system.facts() {
        print_listing(rt, alloc, &system, target)?;
    }
    Ok(())
}

fn print_listing(
    rt: &impl Print,
    alloc: Global,
    system: &FaultSystem,
    target: u32,
) -> io::Result<()> {
    if target < system.facts() && system.events() <= 16 {
        for set in plain_listing(alloc, system, target)?.items() {
            println!(rt; "f{target} {:?}", set.items())?;
        }
    }
    Ok(())
}

fn facts_of(alloc: Global, line: &[u8]) -> Mem<List<FactInfo>> {
    let mut facts = List::new(alloc);
    for text in line.split(|b| *b == b';') {
        let fact = fact_of(alloc, facts.len_u32(), text)?;
        facts.push(fact)?;
    }
    Ok(facts)
}

fn fact_of(alloc: Global, number: u32, text: &[u8]) -> Mem<FactInfo> {
    let formula = formula_of(alloc, text)?;
    Ok(FactInfo {
        name: name_of(alloc, number)?,
        owner: 0,
        formula,
    })
}

fn name_of(alloc: Global, number: u32) -> Mem<Name> {
    let mut name = List::new(alloc);
    name.push(number.min(255) as u8)?;
    Ok(name)
}

fn events_of(alloc: Global) -> Mem<List<EventInfo>> {
    let mut events = List::new(alloc);
    for number in 0..4 {
        let event = event_of(alloc, number)?;
        events.push(event)?;
    }
    Ok(events)
}

fn event_of(alloc: Global, number: u32) -> Mem<EventInfo> {
    Ok(EventInfo {
        name: name_of(alloc, number)?,
        owner: 0,
        key: List::new(alloc),
    })
}

fn formula_of(alloc: Global, text: &[u8]) -> Mem<Formula> {
    let parts = parts_of(alloc, text)?;
    Ok(match text.first() {
        Some(b'a') => And(parts),
        Some(b'o') => Or(parts),
        Some(digit) => AtLeast(u32::from(digit.wrapping_sub(b'0')), parts),
        None => True,
    })
}

/// The parts of a formula: the words of two letters that name one.
fn parts_of(alloc: Global, text: &[u8]) -> Mem<List<Formula>> {
    let mut parts = List::new(alloc);
    for word in text.split(|b| *b == b' ') {
        parts.push_some(part_of(word))?;
    }
    Ok(parts)
}

fn part_of(word: &[u8]) -> Option<Formula> {
    match word {
        [b'e', digit] => Some(Event(u32::from(digit.wrapping_sub(b'0')))),
        [b'f', digit] => Some(Fact(u32::from(digit.wrapping_sub(b'0')))),
        _ => None,
    }
}
