//! By which numbers another system has the events of this one.

ghost use Rattle.std.specs.Prelude.{◌≡◌, ◌<◌, ◌^◌, IfOk, MatchBool, length, map};
ghost use Rattle.listing_changes.specs.inner.Numbers.{AreNumbers, LacksNumber, number_of, numbers_there, place_of};

use fault_system::{EventInfo, FaultSystem, Names};
use plain_values::Mem;
use std::alloc::Global;

/// For each event of a system the number of the event of this name in another; none where it has none.
pub(crate) fn numbers_there(
    alloc: Global,
    here: &FaultSystem,
    there: &FaultSystem,
) -> Mem<Vec<Option<u32>>>
    ensures { IfOk result (λ table. table.items ≡ numbers_there here.now there.now) }
{
    let _names = there.events();
    let events = there.event_infos();
    match Names::of(alloc, events)? {
        Some(names) => places(alloc, here.event_infos(), &names),
        None => Ok(Vec::new(alloc)),
    }
}

/// The places of the names of events among others, of which there are less than 2 ^ 32.
fn places(alloc: Global, events: &[EventInfo], names: &Names<'_>) -> Mem<Vec<Option<u32>>>
    requires { length names.now < 2 ^ 32 }
    ensures { IfOk result (λ table. table.items ≡ map (λ event. place_of names.now event.name) events.now) }
{
    let mut table = Vec::new(alloc);
    for event in events {
        table.push(place(names, event))?;
    }
    Ok(table)
}

/// The place of the name of an event among others, of which there are less than 2 ^ 32.
fn place(names: &Names<'_>, event: &EventInfo) -> Option<u32>
    requires { length names.now < 2 ^ 32 }
    ensures { result ≡ place_of names.now event.now.name }
{
    match names.place(event.name.items()) {
        Some(place) => Some(place as u32),
        None => None,
    }
}

/// Puts the numbers of a set of events into a list, in their order; whether each event has one.
pub(crate) fn translate(table: &[Option<u32>], set: &[u32], numbers: &mut Vec<u32>) -> Mem<bool>
    ensures { IfOk result (λ whole. MatchBool whole (AreNumbers table.now set.now numbers.new.items) (LacksNumber table.now set.now)) }
{
    numbers.clear();
    for event in set {
        let Some(number) = number_at(table, *event) else {
            return Ok(false);
        };
        numbers.push(number)?;
    }
    Ok(true)
}

/// The number of an event in a table; none where it has none.
fn number_at(table: &[Option<u32>], event: u32) -> Option<u32>
    ensures { result ≡ number_of table.now event }
{
    match table.get(event as usize) {
        Some(number) => *number,
        None => None,
    }
}
