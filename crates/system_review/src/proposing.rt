//! Proposes in which order facts follow from one, in one pass over the places of their formulas.
//!
//! Nothing is claimed of what is proposed: the tests of `followed` decide. So the proposal decides how long the answer takes, and not
//! which it is.

use fault_system::{FaultSystem, Formula};
use plain_values::Mem;
use std::alloc::Global;
use std::collections::HashMap;

/// The places of the formulas of some facts, numbered: first the whole formula of each fact, then the parts.
#[derive(Drop)]
struct Places {
    // the place of which each place is a part, and how many more parts must be true for the place to be true
    wholes: Vec<(u32, u32)>,
    // the places at which each fact stands that was not found yet
    uses: HashMap<u32, Vec<u32>>,
    // the true places whose wholes have not been told yet
    waiting: Vec<u32>,
}

/// The places among some facts of those that follow from one, in an order in which they do.
pub(crate) fn propose(
    alloc: Global,
    system: &FaultSystem,
    among: &[u32],
    cause: u32,
) -> Mem<Vec<u32>> {
    let mut places = places_of(alloc, system, among)?;
    let mut order = Vec::new(alloc);
    places.find(cause)?;
    for _ in 0..u64::MAX {
        let Some(place) = places.waiting.pop() else {
            return Ok(order);
        };
        match among.get(place as usize) {
            Some(number) => {
                order.push(place)?;
                places.find(*number)?;
            }
            None => places.pass_on(place)?,
        }
    }
    Ok(order)
}

// The places of the formulas of these facts.
fn places_of(alloc: Global, system: &FaultSystem, among: &[u32]) -> Mem<Places> {
    let mut places = Places {
        wholes: vec![in alloc; (0, 1); among.len()]?,
        uses: HashMap::new(alloc),
        waiting: Vec::new(alloc),
    };
    for (place, number) in among.iter().enumerate() {
        match system.fact(*number) {
            Some(fact) => add(
                alloc,
                &mut places,
                place.min(4_294_967_295) as u32,
                &fact.formula,
            )?,
            None => {}
        }
    }
    Ok(places)
}

// Adds the formula of a place, with its parts.
#[cycle(places)]
fn add(alloc: Global, places: &mut Places, place: u32, formula: &Formula) -> Mem<()> {
    match formula {
        Formula::True => places.need(place, 0),
        Formula::Event(_) => Ok(()),
        Formula::Fact(number) => places.use_at(alloc, place, *number),
        Formula::And(parts) => add_parts(alloc, places, place, parts.len_u32(), parts.items()),
        Formula::Or(parts) => add_parts(alloc, places, place, 1, parts.items()),
        Formula::AtLeast(least, parts) => add_parts(alloc, places, place, *least, parts.items()),
    }
}

// Says how many parts a place needs, and adds them.
#[cycle(places)]
fn add_parts(
    alloc: Global,
    places: &mut Places,
    whole: u32,
    least: u32,
    parts: &[Formula],
) -> Mem<()> {
    places.need(whole, least)?;
    for part in parts {
        let place = places.wholes.len().min(4_294_967_295) as u32;
        places.wholes.push((whole, 1))?;
        add(alloc, places, place, part)?;
    }
    Ok(())
}

impl Places {
    // Says how many parts a place needs; with none it is true.
    fn need(&mut self, place: u32, count: u32) -> Mem<()> {
        if count == 0 {
            self.waiting.push(place)?;
        }
        if (place as usize) < self.wholes.len() {
            self.wholes[place as usize].1 = count;
        }
        Ok(())
    }

    // Notes that a fact stands at a place.
    fn use_at(&mut self, alloc: Global, place: u32, number: u32) -> Mem<()> {
        let mut uses = match self.uses.remove(&number) {
            Some(uses) => uses,
            None => Vec::new(alloc),
        };
        uses.push(place)?;
        self.uses.insert(number, uses)?;
        Ok(())
    }

    // A fact was found: all places at which it stands are true.
    fn find(&mut self, number: u32) -> Mem<()> {
        match self.uses.remove(&number) {
            Some(uses) => {
                for place in uses.as_slice() {
                    self.waiting.push(*place)?;
                }
                Ok(())
            }
            None => Ok(()),
        }
    }

    // A place is true: that of which it is a part has one more true part.
    fn pass_on(&mut self, place: u32) -> Mem<()> {
        let Some((whole, _)) = self.wholes.get(place as usize).copied() else {
            return Ok(());
        };
        let at = whole as usize;
        if at < self.wholes.len() && self.wholes[at].1 > 0 {
            self.wholes[at].1 -= 1;
            if self.wholes[at].1 == 0 {
                self.waiting.push(whole)?;
            }
        }
        Ok(())
    }
}
