//! Sets of events that may make a fact hold.
//!
//! Nothing is claimed of them: who takes one tests it.

use crate::cuts::set_at;
use fault_system::{Bits, FaultSystem, Formula};
use plain_values::{List, Mem};
use std::alloc::Global;

/// The most events of a set, each as often as it is met.
const MOST: usize = 4_096;

/// The facts that hold in any case, and sets of facts.
#[derive(Clone, Copy)]
struct Given<'a> {
    always: &'a Bits,
    sets: &'a [List<u32>],
}

/// A set for a fact, from the sets of the facts in its formula: all of those of an `and`, and the smallest of an `or`.
pub(crate) fn proposed_set(
    alloc: Global,
    system: &FaultSystem,
    always: &Bits,
    sets: &[List<u32>],
    fact: u32,
) -> Mem<Option<List<u32>>> {
    let given = Given { always, sets };
    let mut found = Vec::new(alloc);
    if gathers(alloc, system, &given, fact, &mut found)? {
        return Ok(Some(List::of(found)?));
    }
    Ok(None)
}

fn gathers(
    alloc: Global,
    system: &FaultSystem,
    given: &Given<'_>,
    fact: u32,
    found: &mut Vec<u32>,
) -> Mem<bool> {
    match system.fact(fact) {
        Some(info) => gather_once(alloc, given, &info.formula, found),
        None => Ok(false),
    }
}

// Adds a set for a formula, and brings all into order; whether there is one.
#[cycle(gather)]
fn gather_once(
    alloc: Global,
    given: &Given<'_>,
    formula: &Formula,
    found: &mut Vec<u32>,
) -> Mem<bool> {
    if gather(alloc, given, formula, found)? {
        found.sort()?;
        found.dedup();
        return Ok(true);
    }
    Ok(false)
}

// Adds a set for a formula; whether there is one.
#[cycle(gather)]
fn gather(alloc: Global, given: &Given<'_>, formula: &Formula, found: &mut Vec<u32>) -> Mem<bool> {
    match formula {
        Formula::True => Ok(true),
        Formula::Event(number) => add(found, &[*number]),
        Formula::Fact(number) => add_fact(given, *number, found),
        Formula::And(parts) => gather_all(alloc, given, parts.items(), found),
        Formula::Or(parts) => gather_one(alloc, given, parts.items(), found),
        Formula::AtLeast(least, parts) => {
            gather_some(alloc, given, *least, parts.items(), found)
        }
    }
}

// Adds events, if there are not too many.
fn add(found: &mut Vec<u32>, events: &[u32]) -> Mem<bool> {
    if events.len() > MOST || found.len() > MOST {
        return Ok(false);
    }
    found.extend_from_slice(events)?;
    Ok(true)
}

// Adds the set of a fact, if it has one or needs none.
fn add_fact(given: &Given<'_>, fact: u32, found: &mut Vec<u32>) -> Mem<bool> {
    if given.always.has(fact) {
        return Ok(true);
    }
    let set = set_at(given.sets, fact);
    if set.len() == 0 {
        return Ok(false);
    }
    add(found, set)
}

#[cycle(gather)]
fn gather_all(
    alloc: Global,
    given: &Given<'_>,
    parts: &[Formula],
    found: &mut Vec<u32>,
) -> Mem<bool> {
    for part in parts {
        if !gather(alloc, given, part, found)? {
            return Ok(false);
        }
    }
    Ok(true)
}

// Adds the smallest set of some formulas.
#[cycle(gather)]
fn gather_one(
    alloc: Global,
    given: &Given<'_>,
    parts: &[Formula],
    found: &mut Vec<u32>,
) -> Mem<bool> {
    let mut least = Vec::new(alloc);
    let mut is_there = false;
    for part in parts {
        is_there = gather_less(alloc, given, part, &mut least, is_there)?;
    }
    if is_there {
        return add(found, least.as_slice());
    }
    Ok(false)
}

// Keeps the set of a formula in place of the least one so far, if it is smaller; whether there is one now.
#[cycle(gather)]
fn gather_less(
    alloc: Global,
    given: &Given<'_>,
    part: &Formula,
    least: &mut Vec<u32>,
    is_there: bool,
) -> Mem<bool> {
    let mut one = Vec::new(alloc);
    if gather_once(alloc, given, part, &mut one)? {
        keep_less(least, one, is_there);
        return Ok(true);
    }
    Ok(is_there)
}

fn keep_less(least: &mut Vec<u32>, one: Vec<u32>, is_there: bool) {
    if !is_there || one.len() < least.len() {
        *least = one;
    }
}

// Adds the smallest sets of so many of some formulas.
#[cycle(gather)]
fn gather_some(
    alloc: Global,
    given: &Given<'_>,
    least: u32,
    parts: &[Formula],
    found: &mut Vec<u32>,
) -> Mem<bool> {
    let mut sets = Vec::new(alloc);
    for part in parts {
        gather_next(alloc, given, part, &mut sets)?;
    }
    sets.sort_by_key(|set: &Vec<u32>| set.len())?;
    add_first(sets.as_slice(), least as usize, found)
}

// Adds the set of a formula to some sets, if there is one.
#[cycle(gather)]
fn gather_next(
    alloc: Global,
    given: &Given<'_>,
    part: &Formula,
    sets: &mut Vec<Vec<u32>>,
) -> Mem<()> {
    let mut one = Vec::new(alloc);
    if gather_once(alloc, given, part, &mut one)? {
        sets.push(one)?;
    }
    Ok(())
}

// Adds the first of some sets, if there are so many.
fn add_first(sets: &[Vec<u32>], count: usize, found: &mut Vec<u32>) -> Mem<bool> {
    if sets.len() < count {
        return Ok(false);
    }
    for set in &sets[..count] {
        if !add(found, set.as_slice())? {
            return Ok(false);
        }
    }
    Ok(true)
}
