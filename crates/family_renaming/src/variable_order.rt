ghost use Rattle.std.specs.Prelude.{◌≡◌, IfOk};

use crate::permuting::{places_of, undo_each_other};
use plain_values::Mem;
use std::alloc::Global;
use std::marker::Model;

/// An order of variables: which event each variable is of, and which variable each event has. Both tables are empty
/// where the variable of each event is its own number.
#[derive(Drop)]
pub struct VariableOrder {
    events: Vec<u32>,
    variables: Vec<u32>,
}

impl Model for VariableOrder {
    ghost use Rattle.family_renaming.specs.inner.Renaming.{OrderTables, AreInverse};

    ghost Value = { OrderTables };

    ghost view = { λ s. record { events = s.events.items; variables = s.variables.items } };

    ghost invariant = { λ s. AreInverse s.events.items s.variables.items };
}

impl VariableOrder {
    ghost use Rattle.family_renaming.specs.inner.Renaming.{AreInverse, IsEventOrder, own_order};

    /// The order in which the variable at each place is of the event that stands there, if the list has
    /// each event from 0 on once; else the order of the events themselves. The time goes with the length of the list.
    pub fn of(alloc: Global, events: Vec<u32>) -> Mem<VariableOrder>
        ensures permuted { IsEventOrder events.items → IfOk result (λ order. order.events ≡ events.items) }
        ensures other { ¬ IsEventOrder events.items → IfOk result (λ order. order ≡ own_order) }
    {
        if events.len() > 4_294_967_296 {
            return VariableOrder::own(alloc);
        }
        let variables = places_of(alloc, events.as_slice())?;
        if undo_each_other(events.as_slice(), variables.as_slice()) {
            return Ok(VariableOrder { events, variables });
        }
        VariableOrder::own(alloc)
    }

    /// The order in which the variable of each event is its own number.
    fn own(alloc: Global) -> Mem<VariableOrder>
        ensures { IfOk result (λ order. order ≡ own_order) }
    {
        Ok(VariableOrder {
            events: Vec::new(alloc),
            variables: Vec::new(alloc),
        })
    }

    /// The event of each variable, by its number; empty where each is the event of its own number.
    pub fn events(&self) -> &[u32]
        ensures events { result.now ≡ self.now.events }
        ensures inverse { AreInverse self.now.events self.now.variables }
    {
        self.events.as_slice()
    }

    /// The variable of each event, by its number; empty where each is the variable of its own number.
    pub fn variables(&self) -> &[u32]
        ensures variables { result.now ≡ self.now.variables }
        ensures inverse { AreInverse self.now.events self.now.variables }
    {
        self.variables.as_slice()
    }
}
