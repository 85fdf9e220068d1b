//! Proposes the blocks of facts, in a time that goes with its facts and the places of their formulas.
//!
//! Nothing is claimed of what is proposed: the tests of `checks` decide.

use fault_system::{Bits, FaultSystem, Formula};
use plain_values::Mem;
use std::alloc::Global;

/// A proposal: the block of each fact, the first fact of each block, and two orders of the facts. In the one each fact
/// that is not the first of its block has an earlier one of it in its formula, and in the other it stands in the formula
/// of an earlier one of it.
#[derive(Drop)]
pub(crate) struct Proposal {
    pub numbers: Vec<u32>,
    pub leaders: Vec<u32>,
    pub towards: Vec<u32>,
    pub onward: Vec<u32>,
}

// The facts that occur in the formula of each fact, one list behind the other.
#[derive(Drop)]
struct Edges {
    starts: Vec<u32>,
    ends: Vec<u32>,
}

fn value(values: &[u32], at: u32) -> u32 {
    match values.get(at as usize) {
        Some(value) => *value,
        None => 4_294_967_295,
    }
}

fn put(values: &mut [u32], at: u32, new: u32) {
    if (at as usize) < values.len() {
        values[at as usize] = new;
    }
}

#[cycle(collect)]
fn collect(ends: &mut Vec<u32>, formula: &Formula) -> Mem<()> {
    match formula {
        Formula::True | Formula::Event(_) => Ok(()),
        Formula::Fact(number) => {
            ends.push(*number)?;
            Ok(())
        }
        Formula::And(parts) | Formula::Or(parts) | Formula::AtLeast(_, parts) => {
            collect_parts(ends, parts.items())
        }
    }
}

#[cycle(collect)]
fn collect_parts(ends: &mut Vec<u32>, parts: &[Formula]) -> Mem<()> {
    for part in parts {
        collect(ends, part)?;
    }
    Ok(())
}

// The edges of the facts of a slice; all other facts have none.
fn edges_of(alloc: Global, system: &FaultSystem, inside: &Bits) -> Mem<Edges> {
    let mut starts = Vec::new(alloc);
    let mut ends = Vec::new(alloc);
    for number in 0..system.facts() {
        starts.push(ends.len().min(4_294_967_295) as u32)?;
        if inside.has(number) {
            collect_of(&mut ends, system, number)?;
        }
    }
    starts.push(ends.len().min(4_294_967_295) as u32)?;
    Ok(Edges { starts, ends })
}

fn collect_of(ends: &mut Vec<u32>, system: &FaultSystem, number: u32) -> Mem<()> {
    match system.fact(number) {
        Some(fact) => collect(ends, &fact.formula),
        None => Ok(()),
    }
}

// The edges the other way round.
fn reversed(alloc: Global, facts: u32, edges: &Edges) -> Mem<Edges> {
    let mut counts = vec![in alloc; 0u32; facts as usize]?;
    for end in edges.ends.as_slice() {
        let count = value(counts.as_slice(), *end);
        put(counts.as_mut_slice(), *end, count.min(4_294_967_294) + 1);
    }
    let mut starts = Vec::new(alloc);
    let mut sum = 0u32;
    for count in counts.as_slice() {
        starts.push(sum)?;
        sum = sum.checked_add(*count).unwrap_or(4_294_967_295);
    }
    starts.push(sum)?;
    let mut next = Vec::from_slice(alloc, starts.as_slice())?;
    let mut ends = vec![in alloc; 4_294_967_295u32; edges.ends.len()]?;
    for number in 0..facts {
        let last = value(edges.starts.as_slice(), number.min(4_294_967_294) + 1);
        for at in value(edges.starts.as_slice(), number)..last {
            let end = value(edges.ends.as_slice(), at);
            let place = value(next.as_slice(), end);
            put(ends.as_mut_slice(), place, number);
            put(next.as_mut_slice(), end, place.min(4_294_967_294) + 1);
        }
    }
    Ok(Edges { starts, ends })
}

// Walks over the facts from one, by the search for strongly connected blocks along paths.
#[derive(Drop)]
struct Search {
    // when each fact was met, from 0; 2 ^ 32 - 1 before
    met: Vec<u32>,
    numbers: Vec<u32>,
    leaders: Vec<u32>,
    // facts on the way with the edge to look at next
    way: Vec<(u32, u32)>,
    open: Vec<u32>,
    path: Vec<u32>,
    count: u32,
}

impl Search {
    // Walks on from a fact that was not met yet, to all that it leads to.
    fn walk(&mut self, edges: &Edges, start: u32) -> Mem<()> {
        if value(self.met.as_slice(), start) != 4_294_967_295 {
            return Ok(());
        }
        self.meet(edges, start)?;
        for step in 0..u64::MAX {
            if !self.step(edges)? {
                return Ok(());
            }
        }
        Ok(())
    }

    fn meet(&mut self, edges: &Edges, fact: u32) -> Mem<()> {
        put(self.met.as_mut_slice(), fact, self.count);
        self.count = self.count.min(4_294_967_293) + 1;
        self.open.push(fact)?;
        self.path.push(fact)?;
        self.way.push((fact, value(edges.starts.as_slice(), fact)))?;
        Ok(())
    }

    // One step; whether there was one.
    fn step(&mut self, edges: &Edges) -> Mem<bool> {
        let Some((fact, at)) = self.way.pop() else {
            return Ok(false);
        };
        if at < value(edges.starts.as_slice(), fact.min(4_294_967_294) + 1) {
            self.way.push((fact, at + 1))?;
            self.follow(edges, value(edges.ends.as_slice(), at))?;
        } else {
            self.close(fact)?;
        }
        Ok(true)
    }

    fn follow(&mut self, edges: &Edges, end: u32) -> Mem<()> {
        let met = value(self.met.as_slice(), end);
        if met == 4_294_967_295 {
            return self.meet(edges, end);
        }
        if value(self.numbers.as_slice(), end) == 4_294_967_295 {
            return self.shorten(met);
        }
        Ok(())
    }

    // Takes from the path what was met behind a fact that is met again.
    fn shorten(&mut self, met: u32) -> Mem<()> {
        for step in 0..self.path.len() {
            if let Some(last) = self.path.pop() {
                if value(self.met.as_slice(), last) <= met {
                    return self.keep_on_path(last);
                }
            }
        }
        Ok(())
    }

    fn keep_on_path(&mut self, last: u32) -> Mem<()> {
        self.path.push(last)?;
        Ok(())
    }

    // Where the last of the path is done, it and what is open behind it are a block.
    fn close(&mut self, fact: u32) -> Mem<()> {
        match self.path.pop() {
            Some(last) if last == fact => self.take_block(fact),
            Some(last) => {
                self.path.push(last)?;
                Ok(())
            }
            None => Ok(()),
        }
    }

    fn take_block(&mut self, fact: u32) -> Mem<()> {
        let number = self.leaders.len().min(4_294_967_294) as u32;
        self.leaders.push(fact)?;
        for step in 0..self.open.len() {
            if let Some(last) = self.open.pop() {
                put(self.numbers.as_mut_slice(), last, number);
                if last == fact {
                    return Ok(());
                }
            }
        }
        Ok(())
    }
}

// The facts in the order in which they are reached within their blocks, from the first of each block on.
fn spread(alloc: Global, edges: &Edges, numbers: &[u32], leaders: &[u32]) -> Mem<Vec<u32>> {
    let mut seen = Bits::new(alloc, numbers.len().min(4_294_967_295) as u32)?;
    let mut order = Vec::from_slice(alloc, leaders)?;
    for leader in leaders {
        if *leader < seen.size() {
            seen.put(*leader);
        }
    }
    for at in 0..numbers.len() {
        if at >= order.len() {
            return Ok(order);
        }
        let fact = order[at];
        let last = value(edges.starts.as_slice(), fact.min(4_294_967_294) + 1);
        for place in value(edges.starts.as_slice(), fact)..last {
            let end = value(edges.ends.as_slice(), place);
            let is_new = end < seen.size() && !seen.has(end);
            if is_new && value(numbers, end) == value(numbers, fact) {
                seen.put(end);
                order.push(end)?;
            }
        }
    }
    Ok(order)
}

/// Proposes the blocks of some facts, to which some of them lead.
pub(crate) fn propose(
    alloc: Global,
    system: &FaultSystem,
    part: &[u32],
    starts: &[u32],
) -> Mem<Proposal> {
    let facts = system.facts();
    let mut inside = Bits::new(alloc, facts)?;
    for fact in part {
        if *fact < inside.size() {
            inside.put(*fact);
        }
    }
    let forward = edges_of(alloc, system, &inside)?;
    let back = reversed(alloc, facts, &forward)?;
    let mut search = Search {
        met: vec![in alloc; 4_294_967_295u32; facts as usize]?,
        numbers: vec![in alloc; 4_294_967_295u32; facts as usize]?,
        leaders: Vec::new(alloc),
        way: Vec::new(alloc),
        open: Vec::new(alloc),
        path: Vec::new(alloc),
        count: 0,
    };
    for start in starts {
        search.walk(&forward, *start)?;
    }
    let towards = spread(
        alloc,
        &back,
        search.numbers.as_slice(),
        search.leaders.as_slice(),
    )?;
    let onward = spread(
        alloc,
        &forward,
        search.numbers.as_slice(),
        search.leaders.as_slice(),
    )?;
    let numbers = Vec::from_slice(alloc, search.numbers.as_slice())?;
    let leaders = Vec::from_slice(alloc, search.leaders.as_slice())?;
    Ok(Proposal {
        numbers,
        leaders,
        towards,
        onward,
    })
}
