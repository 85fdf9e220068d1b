//! A system that is read line by line, and its table.

ghost use Rattle.std.specs.Prelude.{length};
ghost use Rattle.plain_values.specs.Rising.{RisesWithin};
ghost use Rattle.fmea_rows.specs.inner.Text.{HasFieldNames};

use crate::compared::print_compared;
use crate::names::{are_plain, are_rising};
use crate::reading::{formula_of, name_of, number_of};
use crate::rings::{print_ring_table, print_rings};
use fault_system::{EventInfo, FactInfo, FaultSystem, is_system};
use fmea_rows::{TableLines, rows};
use fta_outside::{Sink, write_lines};
use plain_values::{List, Mem};
use property_reader::conservative_rates;
use std::alloc::Global;
use std::io;
use std::io::Print;

/// The facts and events that were read so far, and the effects.
#[derive(Drop)]
pub struct Sample {
    facts: List<FactInfo>,
    events: List<EventInfo>,
    effects: List<u32>,
}

impl Sample {
    /// Without a fact or an event.
    pub fn new(alloc: Global) -> Sample {
        Sample {
            facts: List::new(alloc),
            events: List::new(alloc),
            effects: List::new(alloc),
        }
    }

    /// Does what a line says.
    pub fn take_line<S: Sink>(
        &mut self,
        rt: &impl Print,
        alloc: Global,
        line: &[u8],
        out: &mut S,
    ) -> io::Result<()> {
        if let Some(name) = line.strip_prefix(b"event ") {
            self.take_event(alloc, name)?;
        } else if let Some(text) = line.strip_prefix(b"fact ") {
            self.take_fact(alloc, text)?;
        } else if let Some(numbers) = line.strip_prefix(b"effects ") {
            self.take_effects(alloc, numbers)?;
        } else if line == b"table".as_slice() {
            self.print_table(rt, alloc, out)?;
        } else if let Some(numbers) = line.strip_prefix(b"random ") {
            print_compared(rt, alloc, numbers)?;
        } else if let Some(numbers) = line.strip_prefix(b"rings ") {
            print_rings(rt, alloc, numbers)?;
        } else if let Some(numbers) = line.strip_prefix(b"ring table ") {
            print_ring_table(rt, alloc, numbers, out)?;
        }
        Ok(())
    }

    fn take_event(&mut self, alloc: Global, name: &[u8]) -> Mem<()> {
        let name = name_of(alloc, name)?;
        self.events.push(EventInfo {
            name,
            owner: 0,
            key: List::new(alloc),
        })
    }

    fn take_fact(&mut self, alloc: Global, text: &[u8]) -> Mem<()> {
        let mut end = text.len();
        for (at, byte) in text.iter().enumerate() {
            if *byte == b' ' && at < end {
                end = at;
            }
        }
        let name = name_of(alloc, text.get(..end).unwrap_or(&[]))?;
        let formula = formula_of(alloc, text.get(end..).unwrap_or(&[]))?;
        self.facts.push(FactInfo {
            name,
            owner: 0,
            formula,
        })
    }

    // The numbers of a line, as far as they rise and are those of facts; all facts where it says so.
    fn take_effects(&mut self, alloc: Global, numbers: &[u8]) -> Mem<()> {
        self.effects = List::new(alloc);
        if numbers == b"all".as_slice() {
            for number in 0..self.facts.len_u32() {
                self.effects.push(number)?;
            }
            return Ok(());
        }
        for word in numbers.split(|b| *b == b' ') {
            self.effects.push(number_of(word))?;
        }
        Ok(())
    }

    // Prints the table of what was read, and begins anew.
    fn print_table<S: Sink>(
        &mut self,
        rt: &impl Print,
        alloc: Global,
        out: &mut S,
    ) -> io::Result<()> {
        let Sample {
            facts,
            events,
            effects,
        } = std::mem::replace(self, Sample::new(alloc));
        if !is_system(alloc, facts.items(), events.items())? {
            return println!(rt; "no system");
        }
        let system = FaultSystem::new(facts, events);
        if !are_plain(&system) || !are_rising(effects.items(), system.facts()) {
            return println!(rt; "no table");
        }
        write_table(rt, alloc, system, effects.items(), out)
    }
}

/// Writes the table of a system over some effects.
pub fn write_table<S: Sink>(
    rt: &impl Print,
    alloc: Global,
    system: FaultSystem,
    effects: &[u32],
    out: &mut S,
) -> io::Result<()>
    requires names { HasFieldNames system }
    requires rise { RisesWithin 0 (length system.facts) effects.now }
{
    let found = rows(alloc, &system, effects)?;
    let rates = conservative_rates(alloc, system.events())?;
    let mut table = TableLines::new(alloc, system, found, rates);
    match write_lines(alloc, &mut table, out) {
        Ok(()) => Ok(()),
        Err(_) => println!(rt; "not written"),
    }
}
