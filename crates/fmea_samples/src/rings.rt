//! Large systems: rings of components that feed each other, each with an event and a chain of facts.

use crate::names::{are_plain, are_rising};
use crate::reading::{name_of, number_of};
use crate::sample::write_table;
use fault_system::{EventInfo, FactInfo, FaultSystem, Formula, is_system};
use fmea_rows::rows;
use fta_outside::Sink;
use plain_values::{List, Mem, Name};
use std::alloc::Global;
use std::io;
use std::io::Print;

/// Prints how many rows a system of rings has: the line has the number of the rings, of the components of each, and of the facts of
/// each component.
pub fn print_rings(rt: &impl Print, alloc: Global, numbers: &[u8]) -> io::Result<()> {
    let Some(system) = system_of(alloc, numbers)? else {
        return println!(rt; "no system");
    };
    let effects = all_facts(alloc, system.facts())?;
    if !are_rising(effects.items(), system.facts()) {
        return println!(rt; "no table");
    }
    let found = rows(alloc, &system, effects.items())?;
    println!(rt;
        "facts {} events {} rows {}",
        system.facts(),
        system.events(),
        found.len_u32()
    )
}

/// Prints the table of a system of rings.
pub fn print_ring_table<S: Sink>(
    rt: &impl Print,
    alloc: Global,
    numbers: &[u8],
    out: &mut S,
) -> io::Result<()> {
    let Some(system) = system_of(alloc, numbers)? else {
        return println!(rt; "no system");
    };
    let effects = all_facts(alloc, system.facts())?;
    if !are_plain(&system) || !are_rising(effects.items(), system.facts()) {
        return println!(rt; "no table");
    }
    write_table(rt, alloc, system, effects.items(), out)
}

// The system of a line.
fn system_of(alloc: Global, numbers: &[u8]) -> Mem<Option<FaultSystem>> {
    let mut words = numbers.split(|b| *b == b' ');
    let groups = number_of(words.next().unwrap_or(&[])).min(4_096);
    let size = number_of(words.next().unwrap_or(&[])).min(4_096);
    let chain = number_of(words.next().unwrap_or(&[])).min(4_096);
    let facts = facts_of(alloc, groups, size, chain)?;
    let events = events_of(alloc, groups, size)?;
    if !is_system(alloc, facts.items(), events.items())? {
        return Ok(None);
    }
    Ok(Some(FaultSystem::new(facts, events)))
}

fn all_facts(alloc: Global, count: u32) -> Mem<List<u32>> {
    let mut list = List::new(alloc);
    for number in 0..count {
        list.push(number)?;
    }
    Ok(list)
}

fn events_of(alloc: Global, groups: u32, size: u32) -> Mem<List<EventInfo>> {
    let mut list = List::new(alloc);
    for number in 0..groups.saturating_mul(size) {
        let name = event_name(alloc, number)?;
        list.push(EventInfo {
            name,
            owner: 0,
            key: List::new(alloc),
        })?;
    }
    Ok(list)
}

fn facts_of(alloc: Global, groups: u32, size: u32, chain: u32) -> Mem<List<FactInfo>> {
    let mut list = List::new(alloc);
    for group in 0..groups {
        for place in 0..size {
            add_component(alloc, &mut list, group, place, size, chain)?;
        }
    }
    Ok(list)
}

// The facts of a component: its initial state, its failed state, which its event or the component before it in the ring brings
// about, and a chain behind that.
fn add_component(
    alloc: Global,
    list: &mut List<FactInfo>,
    group: u32,
    place: u32,
    size: u32,
    chain: u32,
) -> Mem<()> {
    let number = group.saturating_mul(size).saturating_add(place);
    let first = number.saturating_mul(chain);
    let before = if place == 0 {
        size.saturating_sub(1)
    } else {
        place - 1
    };
    let fed = group
        .saturating_mul(size)
        .saturating_add(before)
        .saturating_mul(chain)
        .saturating_add(2);
    add_fact(alloc, list, number, 0, Formula::True)?;
    let failed = failed_of(alloc, first, number, fed)?;
    add_fact(alloc, list, number, 1, failed)?;
    for at in 2..chain {
        let formula = one_of(alloc, first.saturating_add(at - 1))?;
        add_fact(alloc, list, number, at, formula)?;
    }
    Ok(())
}

fn failed_of(alloc: Global, first: u32, event: u32, fed: u32) -> Mem<Formula> {
    let mut causes = List::new(alloc);
    causes.push(Formula::Event(event))?;
    causes.push(Formula::Fact(fed))?;
    let mut parts = List::new(alloc);
    parts.push(Formula::Fact(first))?;
    parts.push(Formula::Or(causes))?;
    Ok(Formula::And(parts))
}

fn one_of(alloc: Global, fact: u32) -> Mem<Formula> {
    let mut parts = List::new(alloc);
    parts.push(Formula::Fact(fact))?;
    Ok(Formula::Or(parts))
}

fn add_fact(
    alloc: Global,
    list: &mut List<FactInfo>,
    component: u32,
    at: u32,
    formula: Formula,
) -> Mem<()> {
    let name = fact_name(alloc, component, at)?;
    list.push(FactInfo {
        name,
        owner: component,
        formula,
    })
}

fn event_name(alloc: Global, component: u32) -> Mem<Name> {
    let text = format!(in alloc; "root.c{component}/failure")?;
    name_of(alloc, text.as_bytes())
}

fn fact_name(alloc: Global, component: u32, at: u32) -> Mem<Name> {
    let text = format!(in alloc; "root.c{component}/state:s{at}")?;
    name_of(alloc, text.as_bytes())
}
