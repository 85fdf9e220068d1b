//! In which orders the events are numbered as variables.
//!
//! Nothing is claimed of them: an order decides how large the diagrams become, and not what is found. None is best for all
//! systems, and each makes the diagrams of some very large.

use family_renaming::VariableOrder;
use fault_system::{Bits, FaultSystem, Formula};
use plain_values::Mem;
use std::alloc::Global;

/// An order of the events.
#[derive(Clone, Copy, PartialEq, Eq)]
pub(crate) enum Way {
    /// As they are numbered.
    Numbered,
    /// As the target meets them depth-first, the parts of each gate as they are written.
    Written,
    /// As the target meets them breadth-first.
    Breadth,
    /// As the target meets them depth-first, of each gate the parts with the fewest events first.
    Fewest,
    /// As the target meets them depth-first, of each gate the deepest parts first.
    Deepest,
}

/// How many orders there are.
pub(crate) const WAYS: u32 = 5;

/// The orders, one after the other.
pub(crate) fn way_of(number: u32) -> Way {
    match number {
        0 => Way::Numbered,
        1 => Way::Written,
        2 => Way::Breadth,
        3 => Way::Fewest,
        _ => Way::Deepest,
    }
}

// About how many places of events there are under a formula, with those of its facts, and how many gates above the lowest.
#[derive(Clone, Copy)]
struct Size {
    events: u32,
    depth: u32,
}

const NOTHING: Size = Size {
    events: 0,
    depth: 0,
};

#[cycle(measured)]
fn measured(sizes: &[Size], formula: &Formula) -> Size {
    match formula {
        Formula::True => NOTHING,
        Formula::Event(_) => Size {
            events: 1,
            depth: 0,
        },
        Formula::Fact(number) => sizes.get(*number as usize).copied().unwrap_or(NOTHING),
        Formula::And(parts) | Formula::Or(parts) | Formula::AtLeast(_, parts) => {
            size_of(sizes, parts.items())
        }
    }
}

#[cycle(measured)]
fn size_of(sizes: &[Size], parts: &[Formula]) -> Size {
    let mut events = 0u32;
    let mut depth = 0u32;
    for part in parts {
        let here = measured(sizes, part);
        events = events.saturating_add(here.events);
        depth = depth.max(here.depth);
    }
    Size {
        events,
        depth: depth.saturating_add(1),
    }
}

// The size of the formula of each fact, where each stands behind those of its formula.
fn sizes_of(alloc: Global, system: &FaultSystem, facts: &[u32]) -> Mem<Vec<Size>> {
    let mut sizes = vec![in alloc; NOTHING; system.facts() as usize]?;
    for number in facts {
        if let Some(fact) = system.fact(*number)
            && (*number as usize) < sizes.len()
        {
            let here = measured(sizes.as_slice(), &fact.formula);
            sizes.as_mut_slice()[*number as usize] = here;
        }
    }
    Ok(sizes)
}

#[derive(Drop)]
struct Walk<'a> {
    way: Way,
    sizes: Vec<Size>,
    facts: Bits,
    events: Bits,
    waiting: Vec<&'a Formula>,
    // how many of those that wait are done, where the first comes first
    done: usize,
    order: Vec<u32>,
}

impl<'a> Walk<'a> {
    fn meet_event(&mut self, event: u32) -> Mem<()> {
        if event < self.events.size() && !self.events.has(event) {
            self.events.put(event);
            self.order.push(event)?;
        }
        Ok(())
    }

    fn meet_fact(&mut self, system: &'a FaultSystem, number: u32) -> Mem<()> {
        if number >= self.facts.size() || self.facts.has(number) {
            return Ok(());
        }
        self.facts.put(number);
        if let Some(fact) = system.fact(number) {
            self.waiting.push(&fact.formula)?;
        }
        Ok(())
    }

    // Where a part stands among the others of its gate: that with the greatest number comes first.
    fn rank_of(&self, part: &Formula) -> u32 {
        let size = measured(self.sizes.as_slice(), part);
        match self.way {
            Way::Numbered | Way::Written | Way::Breadth => 0,
            Way::Fewest => u32::MAX.saturating_sub(size.events),
            Way::Deepest => size.depth,
        }
    }

    // Lets all parts wait, so that the first of them is taken first.
    fn meet_parts(&mut self, alloc: Global, parts: &'a [Formula]) -> Mem<()> {
        if self.way == Way::Breadth {
            return self.meet_behind(parts);
        }
        let mut keys = Vec::new(alloc);
        for (place, part) in parts.iter().enumerate().rev() {
            keys.push((self.rank_of(part), place))?;
        }
        keys.sort_by_key(|key: &(u32, usize)| key.0)?;
        for (_, place) in keys.as_slice() {
            if let Some(part) = parts.get(*place) {
                self.waiting.push(part)?;
            }
        }
        Ok(())
    }

    fn meet_behind(&mut self, parts: &'a [Formula]) -> Mem<()> {
        for part in parts {
            self.waiting.push(part)?;
        }
        Ok(())
    }

    // The formula whose turn it is; none where none waits.
    fn next(&mut self) -> Option<&'a Formula> {
        if self.way != Way::Breadth {
            return self.waiting.pop();
        }
        let formula = self.waiting.get(self.done).copied()?;
        self.done = self.done.saturating_add(1);
        Some(formula)
    }

    // Goes through the next formula; whether there was one.
    fn go_on(&mut self, alloc: Global, system: &'a FaultSystem) -> Mem<bool> {
        let Some(formula) = self.next() else {
            return Ok(false);
        };
        match formula {
            Formula::True => {}
            Formula::Event(number) => self.meet_event(*number)?,
            Formula::Fact(number) => self.meet_fact(system, *number)?,
            Formula::And(parts) | Formula::Or(parts) | Formula::AtLeast(_, parts) => {
                self.meet_parts(alloc, parts.items())?
            }
        }
        Ok(true)
    }
}

/// An order of all events: as the way says for those on which a target depends, and the others behind them.
pub(crate) fn inner_order(
    alloc: Global,
    system: &FaultSystem,
    way: Way,
    facts: &[u32],
    target: u32,
) -> Mem<VariableOrder> {
    if way == Way::Numbered {
        return VariableOrder::of(alloc, Vec::new(alloc));
    }
    let mut walk = Walk {
        way,
        sizes: sizes_of(alloc, system, facts)?,
        facts: Bits::new(alloc, system.facts())?,
        events: Bits::new(alloc, system.events())?,
        waiting: Vec::new(alloc),
        done: 0,
        order: Vec::new(alloc),
    };
    walk.meet_fact(system, target)?;
    for step in 0..u64::MAX {
        if !walk.go_on(alloc, system)? {
            break;
        }
    }
    for event in 0..system.events() {
        walk.meet_event(event)?;
    }
    VariableOrder::of(alloc, walk.order)
}
