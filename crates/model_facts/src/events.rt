ghost use Rattle.std.specs.Prelude.{◌≡◌, ◌<◌, ◌^◌, None, length, IfErr, IfOk, OnOk};
ghost use Rattle.std.specs.HashMap.{get};
ghost use Rattle.plain_values.specs.inner.Stops.{StopsAt};
ghost use Rattle.package_index.specs.inner.Tables.{Knows};
ghost use Rattle.model_facts.specs.Facts.{event_number, events_of, same_event};
ghost use Rattle.model_facts.specs.Limits.{many_events};

use crate::assembly::Assembly;
use crate::event_list::events_of;
use crate::keys::EventKey;
use package_index::add;
use plain_values::{Answer, List, Mem};
use std::alloc::Global;
use std::collections::HashMap;
use std::marker::Model;

/// The events of a model, in order. Contracts see them as a list; an event is numbered by its place in it, from 0.
#[derive(Drop)]
pub struct EventTable {
    list: List<EventKey>,
    numbers: HashMap<EventKey, u32>,
}

impl Model for EventTable {
    ghost use Rattle.std.specs.Prelude.{List};
    ghost use Rattle.std.specs.HashMap.{get};
    ghost use Rattle.package_index.specs.inner.Tables.{Knows};
    ghost use Rattle.model_facts.specs.Facts.{same_event};
    ghost use Rattle.model_facts.specs.declared.keys.EventKey.{EventKey as Key};

    ghost Value = { List Key };

    ghost view = { λ t. t.list };

    ghost invariant = { λ t. Knows same_event t.list (get same_event t.numbers) };
}

impl EventTable {
    /// The events of a model.
    ///
    /// M7 where there are more than 4,096.
    pub fn of(alloc: Global, assembly: &Assembly) -> Answer<EventTable>
        ensures events { IfOk result (λ events. events ≡ events_of assembly.now) }
        ensures accepted { OnOk result (many_events (events_of assembly.now) ≡ None) }
        ensures refused { IfErr result (StopsAt (many_events (events_of assembly.now))) }
    {
        let list = events_of(alloc, assembly)?;
        let numbers = numbers_of(alloc, list.items())?;
        Ok(EventTable { list, numbers })
    }

    /// The events, in order.
    pub fn list(&self) -> &[EventKey]
        ensures { result.now ≡ self.now }
    {
        self.list.items()
    }

    /// The number of an event, if it is one of these.
    pub fn number(&self, event: EventKey) -> Option<u32>
        ensures { result ≡ event_number self.now event }
    {
        self.numbers.get(&event).copied()
    }
}

/// The number of each event.
fn numbers_of(alloc: Global, events: &[EventKey]) -> Mem<HashMap<EventKey, u32>>
    requires { length events.now < 2 ^ 32 }
    ensures { IfOk result (λ numbers. Knows same_event events.now (get same_event numbers)) }
{
    let mut numbers = HashMap::new(alloc);
    for (number, event) in events.iter().enumerate() {
        add(&mut numbers, *event, number as u32)?;
    }
    Ok(numbers)
}
