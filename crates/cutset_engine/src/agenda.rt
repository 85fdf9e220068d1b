//! In which order the families of the facts of a slice are best made.
//!
//! Nothing is claimed of it: it decides how often a family is made anew, and not what is found.

use dependency_blocks::Blocks;
use fault_system::{Bits, FaultSystem, Formula};
use plain_values::Mem;
use std::alloc::Global;

// A fact on the way, or one whose formula was gone through.
#[derive(Clone, Copy)]
enum Visit {
    Begin(u32),
    Finish(u32),
}

// The facts that have each fact in their formulas.
#[derive(Drop)]
struct Users {
    // the last entry of each fact
    last: Vec<Option<u32>>,
    // a fact that uses another, and the entry of the other before this one
    entries: Vec<(u32, Option<u32>)>,
}

impl Users {
    fn add(&mut self, fact: u32, user: u32) -> Mem<()> {
        let at = fact as usize;
        if at < self.last.len() {
            let entry = self.entries.len().min(4_294_967_295) as u32;
            let before = self.last[at];
            self.entries.push((user, before))?;
            self.last[at] = Some(entry);
        }
        Ok(())
    }

    fn last_of(&self, fact: u32) -> Option<u32> {
        self.last.get(fact as usize).copied()?
    }
}

#[derive(Drop)]
struct Walk {
    seen: Bits,
    stack: Vec<Visit>,
    order: Vec<u32>,
    users: Users,
}

impl Walk {
    // Puts a fact on the stack if it was not seen yet.
    fn meet(&mut self, fact: u32) -> Mem<()> {
        if fact < self.seen.size() && !self.seen.has(fact) {
            self.stack.push(Visit::Begin(fact))?;
        }
        Ok(())
    }

    // Takes the next fact from the stack; whether there was one.
    fn go_on(&mut self, system: &FaultSystem) -> Mem<bool> {
        match self.stack.pop() {
            None => Ok(false),
            Some(Visit::Finish(fact)) => {
                self.order.push(fact)?;
                Ok(true)
            }
            Some(Visit::Begin(fact)) => {
                self.begin(system, fact)?;
                Ok(true)
            }
        }
    }

    fn begin(&mut self, system: &FaultSystem, number: u32) -> Mem<()> {
        if number >= self.seen.size() || self.seen.has(number) {
            return Ok(());
        }
        self.seen.put(number);
        self.stack.push(Visit::Finish(number))?;
        match system.fact(number) {
            Some(fact) => meet_all(self, number, &fact.formula),
            None => Ok(()),
        }
    }
}

// Puts the facts of the formula of a fact on the stack.
#[cycle(meet)]
fn meet_all(walk: &mut Walk, user: u32, formula: &Formula) -> Mem<()> {
    match formula {
        Formula::True | Formula::Event(_) => Ok(()),
        Formula::Fact(number) => {
            walk.users.add(*number, user)?;
            walk.meet(*number)
        }
        Formula::And(parts) | Formula::Or(parts) | Formula::AtLeast(_, parts) => {
            meet_parts(walk, user, parts.items())
        }
    }
}

#[cycle(meet)]
fn meet_parts(walk: &mut Walk, user: u32, parts: &[Formula]) -> Mem<()> {
    for part in parts {
        meet_all(walk, user, part)?;
    }
    Ok(())
}

// The walk over the facts on which a target depends: each is behind those of its formula where there is no loop.
fn walk_from(alloc: Global, system: &FaultSystem, target: u32) -> Mem<Walk> {
    let mut walk = Walk {
        seen: Bits::new(alloc, system.facts())?,
        stack: Vec::new(alloc),
        order: Vec::new(alloc),
        users: Users {
            last: vec![in alloc; None; system.facts() as usize]?,
            entries: Vec::new(alloc),
        },
    };
    walk.meet(target)?;
    for step in 0..u64::MAX {
        if !walk.go_on(system)? {
            return Ok(walk);
        }
    }
    Ok(walk)
}

// The block of each of some facts and the place where it stands, block after block by rank, those of one block as they stand.
fn by_rank(alloc: Global, blocks: &Blocks, order: &[u32]) -> Mem<Vec<(Option<u32>, usize)>> {
    let mut keys = Vec::new(alloc);
    for (place, fact) in order.iter().enumerate() {
        keys.push((blocks.block_of(*fact), place))?;
    }
    keys.sort()?;
    Ok(keys)
}

// The place of each fact.
fn places_of(alloc: Global, count: u32, facts: &[u32]) -> Mem<Vec<usize>> {
    let mut places = vec![in alloc; 0usize; count as usize]?;
    for (place, fact) in facts.iter().enumerate() {
        if (*fact as usize) < places.len() {
            places.as_mut_slice()[*fact as usize] = place;
        }
    }
    Ok(places)
}

/// The facts of a slice whose families are to be made, block after block, and those of a block again until none waits.
#[derive(Drop)]
pub(crate) struct Agenda {
    facts: Vec<u32>,
    blocks: Vec<Option<u32>>,
    places: Vec<usize>,
    users: Users,
    waiting: Bits,
    // the place whose turn it is, and the first before it that waits again
    turn: usize,
    again: Option<usize>,
}

impl Agenda {
    /// All facts on which a target depends are to be made.
    pub(crate) fn new(
        alloc: Global,
        system: &FaultSystem,
        blocks: &Blocks,
        target: u32,
    ) -> Mem<Agenda> {
        let walk = walk_from(alloc, system, target)?;
        let mut facts = Vec::new(alloc);
        let mut ranks = Vec::new(alloc);
        for (block, place) in by_rank(alloc, blocks, walk.order.as_slice())?.as_slice() {
            if let Some(fact) = walk.order.get(*place) {
                facts.push(*fact)?;
                ranks.push(*block)?;
            }
        }
        let places = places_of(alloc, system.facts(), facts.as_slice())?;
        Ok(Agenda {
            facts,
            blocks: ranks,
            places,
            users: walk.users,
            waiting: walk.seen,
            turn: 0,
            again: None,
        })
    }

    /// The fact whose turn it is, which then does not wait; none where all is done.
    pub(crate) fn next(&mut self) -> Option<u32> {
        for step in 0..u64::MAX {
            self.go_back();
            let fact = self.facts.get(self.turn).copied()?;
            self.turn = self.turn.saturating_add(1);
            if self.waiting.has(fact) {
                self.waiting.take(fact);
                return Some(fact);
            }
        }
        None
    }

    // Behind a block, goes back to the first of its facts that waits.
    fn go_back(&mut self) {
        if let Some(place) = self.again
            && self.blocks.get(place) != self.blocks.get(self.turn)
        {
            self.turn = place;
            self.again = None;
        }
    }

    /// The facts on which the target depends, each behind those of its formula where there is no loop.
    pub(crate) fn facts(&self) -> &[u32] {
        self.facts.as_slice()
    }

    /// The family of a fact is another: the facts wait that have it in their formulas.
    pub(crate) fn tell(&mut self, fact: u32) {
        let mut next = self.users.last_of(fact);
        for step in 0..self.users.entries.len() {
            let Some(entry) = next else { return };
            let Some((user, before)) = self.users.entries.get(entry as usize).copied() else {
                return;
            };
            self.wait(user);
            next = before;
        }
    }

    fn wait(&mut self, fact: u32) {
        if fact >= self.waiting.size() || fact as usize >= self.places.len() {
            return;
        }
        self.waiting.put(fact);
        let place = self.places[fact as usize];
        if place < self.turn {
            self.again = Some(self.again.unwrap_or(place).min(place));
        }
    }
}
