//! Sets of events that words name.

ghost use Rattle.std.specs.Prelude.{◌≡◌, IfOk, OnOk};
ghost use Rattle.requirement_names.specs.Sets.{are_events, events_of, has_one_of, parts_of, set_named, with_byte};

use crate::model::ModelNames;
use fault_system::FaultSystem;
use plain_values::{List, Mem, Name, copied, is_same};
use std::alloc::Global;

/// The set of events that a text names; none where a part of it is no name of an event.
pub fn set_named(alloc: Global, model: &ModelNames<'_>, text: &[u8]) -> Mem<Option<List<u32>>>
    ensures { IfOk result (λ set. set ≡ set_named model.now text.now) }
{
    if is_same(text, b"none") {
        return Ok(Some(List::new(alloc)));
    }
    let parts = parts_of(alloc, text)?;
    if !are_events(model, parts.items()) {
        return Ok(None);
    }
    Ok(Some(events_of(alloc, model.system(), parts.items())?))
}

/// What is cut of a text so far: the parts that have ended, and the one that has not.
#[derive(Drop)]
pub(crate) struct Cut {
    pub parts: List<Name>,
    pub current: Name,
}

/// The parts of a text between its signs `+`.
fn parts_of(alloc: Global, text: &[u8]) -> Mem<List<Name>>
    ensures { IfOk result (λ parts. parts ≡ parts_of text.now) }
{
    let mut cut = Cut {
        parts: List::new(alloc),
        current: List::new(alloc),
    };
    for byte in text {
        cut.add(alloc, *byte)?;
    }
    let Cut { mut parts, current } = cut;
    parts.push(current)?;
    Ok(parts)
}

impl Cut {
    /// One byte more.
    fn add(&mut self, alloc: Global, byte: u8) -> Mem<()>
        ensures { OnOk result (self.new ≡ with_byte self.old byte) }
    {
        if byte != b'+' {
            return self.current.push(byte);
        }
        let part = std::mem::replace(&mut self.current, List::new(alloc));
        self.parts.push(part)
    }
}

/// Whether each of these is the name of an event.
fn are_events(model: &ModelNames<'_>, parts: &[Name]) -> bool
    ensures { result ≡ are_events model.now parts.now }
{
    parts.iter().all(|part| model.event(part.items()).is_some())
}

/// The events that have one of these names, in rising order.
fn events_of(alloc: Global, system: &FaultSystem, parts: &[Name]) -> Mem<List<u32>>
    ensures { IfOk result (λ events. events ≡ events_of system.now parts.now) }
{
    let mut events = List::new(alloc);
    for number in 0..system.events() {
        events.push_if(number, has_one_of(system, parts, number))?;
    }
    Ok(events)
}

/// Whether the event of a number has one of these names.
fn has_one_of(system: &FaultSystem, parts: &[Name], number: u32) -> bool
    ensures { result ≡ has_one_of system.now parts.now number }
{
    let name = system.event_name(number);
    parts.iter().any(|part| is_same(name, part.items()))
}
