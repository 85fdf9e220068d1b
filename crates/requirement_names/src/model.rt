//! The names of a model's facts and events, found at once.

ghost use Rattle.std.specs.Prelude.{◌≡◌, ◌<◌, ◌^◌, length, IfOk, IfSome, map};
ghost use Rattle.fault_system.specs.Systems.{IsSystem};
ghost use Rattle.requirement_names.specs.Names.{event_named, event_names, fact_named, fact_names, is_below, is_sign};

use fault_system::{FaultSystem, Names};
use plain_values::{Mem, is_same};
use std::alloc::Global;
use std::marker::Model;

/// A system with tables of its names. Contracts see the system.
#[derive(Drop)]
pub struct ModelNames<'a> {
    system: &'a FaultSystem,
    facts: Names<'a>,
    events: Names<'a>,
}

impl<'a> Model for ModelNames<'a> {
    ghost use Rattle.std.specs.Coded.{codes};
    ghost use Rattle.std.specs.Prelude.{◌≡◌};
    ghost use Rattle.fault_system.specs.contracts.formula.Formula as formula;
    ghost use Rattle.fault_system.specs.Systems.{System};
    ghost use Rattle.requirement_names.specs.Names.{event_names, fact_names};

    ghost Value = { System };

    ghost coded = { Prim.hlevel (codes, formula.the_row.coded) };

    ghost view = { λ m. m.system.now };

    ghost invariant = { λ m. (m.facts ≡ fact_names m.system.now) × (m.events ≡ event_names m.system.now) };
}

impl<'a> ModelNames<'a> {
    /// The names of a system.
    pub fn of(alloc: Global, system: &'a FaultSystem) -> Mem<ModelNames<'a>>
        ensures { IfOk result (λ model. model ≡ system.now) }
    {
        let facts = names_of_facts(alloc, system)?;
        let events = names_of_events(alloc, system)?;
        Ok(ModelNames {
            system,
            facts,
            events,
        })
    }

    /// The system.
    pub(crate) fn system(&self) -> &FaultSystem
        ensures { result.now ≡ self.now }
    {
        self.system
    }

    /// The number of the fact of a name.
    pub(crate) fn fact(&self, name: &[u8]) -> Option<u32>
        ensures { result ≡ fact_named self.now name.now }
    {
        let _facts = self.system.facts();
        let place = self.facts.place(name)?;
        Some(place as u32)
    }

    /// The number of the event of a name.
    pub(crate) fn event(&self, name: &[u8]) -> Option<u32>
        ensures { result ≡ event_named self.now name.now }
    {
        let _events = self.system.events();
        let place = self.events.place(name)?;
        Some(place as u32)
    }
}

fn names_of_facts<'a>(alloc: Global, system: &'a FaultSystem) -> Mem<Names<'a>>
    ensures { IfOk result (λ names. names ≡ fact_names system.now) }
{
    let _facts = system.facts();
    match Names::of(alloc, system.fact_infos())? {
        Some(names) => Ok(names),
        None => unreachable!(),
    }
}

fn names_of_events<'a>(alloc: Global, system: &'a FaultSystem) -> Mem<Names<'a>>
    ensures { IfOk result (λ names. names ≡ event_names system.now) }
{
    let _events = system.events();
    match Names::of(alloc, system.event_infos())? {
        Some(names) => Ok(names),
        None => unreachable!(),
    }
}

/// Whether a name is one of what lies below a component.
pub(crate) fn is_below(part: &[u8], name: &[u8]) -> bool
    ensures { result ≡ is_below part.now name.now }
{
    part.len() < name.len() && (is_same(&name[..part.len()], part) && is_sign(name[part.len()]))
}

/// Whether this is the sign between the names of components, or the one before what a component has.
fn is_sign(byte: u8) -> bool
    ensures { result ≡ is_sign byte }
{
    byte == b'.' || byte == b'/'
}
