//! What a table asks: names that can stand in a line, and effects that rise.

ghost use Rattle.std.specs.Prelude.{All, Contains, IsTrue};
ghost use Rattle.plain_values.specs.Rising.{RisesWithin};
ghost use Rattle.fmea_rows.specs.inner.Text.{HasFieldNames, IsPlainField};

use fault_system::{EventInfo, FactInfo, FaultSystem};

/// Whether no name holds a comma, a quotation mark, a line feed or a carriage return.
pub fn are_plain(system: &FaultSystem) -> bool
    ensures { IsTrue result → HasFieldNames system.now }
{
    facts_are_plain(system.fact_infos()) && events_are_plain(system.event_infos())
}

fn facts_are_plain(facts: &[FactInfo]) -> bool
    ensures { IsTrue result → All (λ fact. IsPlainField fact.name) facts.now }
{
    for fact in facts {
        if !is_plain(fact.name.items()) {
            return false;
        }
    }
    true
}

fn events_are_plain(events: &[EventInfo]) -> bool
    ensures { IsTrue result → All (λ event. IsPlainField event.name) events.now }
{
    for event in events {
        if !is_plain(event.name.items()) {
            return false;
        }
    }
    true
}

fn is_plain(name: &[u8]) -> bool
    ensures { IsTrue result → IsPlainField name.now }
{
    lacks(name, b',') && lacks(name, b'"') && lacks(name, b'\n') && lacks(name, b'\r')
}

fn lacks(name: &[u8], byte: u8) -> bool
    ensures { IsTrue result → Contains name.now byte → ⊥ }
{
    for other in name {
        if *other == byte {
            return false;
        }
    }
    true
}

/// Whether numbers rise and are below a number.
pub fn are_rising(numbers: &[u32], count: u32) -> bool
    ensures { IsTrue result → RisesWithin 0 count numbers.now }
{
    let mut low: u64 = 0;
    for number in numbers {
        if u64::from(*number) < low || *number >= count {
            return false;
        }
        low = u64::from(*number) + 1;
    }
    true
}
