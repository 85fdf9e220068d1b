//! Copies of the events of a system.

ghost use Rattle.std.specs.Prelude.{◌≡◌, IfOk};

use crate::formula::EventInfo;
use plain_values::{List, Mem, Name, copied};
use std::alloc::Global;

/// A copy of some events.
pub fn copied_events(alloc: Global, events: &[EventInfo]) -> Mem<List<EventInfo>>
    ensures { IfOk result (λ made. made ≡ events.now) }
{
    let mut made = List::new(alloc);
    for event in events {
        made.push(copied_event(alloc, event)?)?;
    }
    Ok(made)
}

fn copied_event(alloc: Global, event: &EventInfo) -> Mem<EventInfo>
    ensures { IfOk result (λ made. made ≡ event.now) }
{
    Ok(EventInfo {
        name: copied(alloc, event.name.items())?,
        owner: event.owner,
        key: copied_names(alloc, event.key.items())?,
    })
}

fn copied_names(alloc: Global, names: &[Name]) -> Mem<List<Name>>
    ensures { IfOk result (λ made. made ≡ names.now) }
{
    let mut made = List::new(alloc);
    for name in names {
        made.push(copied(alloc, name.items())?)?;
    }
    Ok(made)
}
