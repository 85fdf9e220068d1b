//! A model of which hazards are said.

ghost use Rattle.std.specs.Prelude.{◌≡◌, IfOk};
ghost use Rattle.hazard_records.specs.Hazards.{whole_of};
ghost use Rattle.hazard_records.specs.Meaning.{event_keys, events_meant, fact_keys, facts_named};

use crate::numbers::NumberTable;
use fault_system::{EventInfo, FactInfo};
use instantiator::Instance;
use plain_values::{List, Mem, Name};
use profiles::Profile;
use std::alloc::Global;
use std::marker::Model;

/// A model of which hazards are said: its instance, read by a profile, its facts and its events, and these by their names. Contracts see the first four.
#[derive(Drop)]
pub(crate) struct Whole<'r> {
    profile: Profile,
    instance: &'r Instance<'r, 'r>,
    facts: &'r [FactInfo],
    events: &'r [EventInfo],
    fact_table: NumberTable<'r>,
    event_table: NumberTable<'r>,
}

impl<'r> Model for Whole<'r> {
    ghost use Rattle.std.specs.Coded.{codes};
    ghost use Rattle.aadl_syntax.specs.contracts.error_model.Condition as condition;
    ghost use Rattle.fault_system.specs.contracts.formula.Formula as formula;
    ghost use Rattle.hazard_records.specs.Hazards.{Whole as Seen, whole_of};

    ghost Value = { Seen };

    ghost coded = { Prim.hlevel (codes, condition.the_row.coded, formula.the_row.coded) };

    ghost use Rattle.std.specs.Prelude.{◌≡◌};
    ghost use Rattle.hazard_records.specs.Meaning.{event_keys, fact_keys};

    ghost view = { λ w. whole_of w.profile w.instance.now w.facts.now w.events.now };

    ghost invariant = { λ w. (w.fact_table ≡ fact_keys w.facts.now) × (w.event_table ≡ event_keys w.instance.now w.events.now) };
}

impl<'r> Whole<'r> {
    /// The model of this instance with these facts and events, whose keys these are.
    pub(crate) fn of(
        alloc: Global,
        profile: Profile,
        instance: &'r Instance<'r, 'r>,
        facts: &'r [FactInfo],
        events: &'r [EventInfo],
        keys: &'r Keys,
    ) -> Mem<Whole<'r>>
        requires facts { keys.now.facts ≡ fact_keys facts.now }
        requires events { keys.now.events ≡ event_keys instance.now events.now }
        ensures { IfOk result (λ model. model ≡ whole_of profile instance.now facts.now events.now) }
    {
        let fact_table = NumberTable::of(alloc, &keys.facts)?;
        let event_table = NumberTable::of(alloc, &keys.events)?;
        Ok(Whole {
            profile,
            instance,
            facts,
            events,
            fact_table,
            event_table,
        })
    }

    /// The profile.
    pub(crate) fn profile(&self) -> Profile
        ensures { result ≡ self.now.profile }
    {
        self.profile
    }

    /// The instance.
    pub(crate) fn instance(&self) -> &'r Instance<'r, 'r>
        ensures { result.now ≡ self.now.instance }
    {
        self.instance
    }

    /// The facts.
    pub(crate) fn facts(&self) -> &'r [FactInfo]
        ensures { result.now ≡ self.now.facts }
    {
        self.facts
    }

    /// The facts whose name without its type is this one.
    pub(crate) fn facts_named<'t>(&'t self, text: &'t Name) -> &'t [u32]
        ensures { result.now ≡ facts_named self.now.facts text.now }
    {
        self.fact_table.named(std::slice::from_ref(text))
    }

    /// The events that names mean, from the root on.
    pub(crate) fn events_meant<'t>(&'t self, names: &'t [Name]) -> &'t [u32]
        ensures { result.now ≡ events_meant self.now.instance self.now.events names.now }
    {
        self.event_table.named(names)
    }
}

/// The names by which facts and events are found, each in order.
#[derive(Drop)]
pub(crate) struct Keys {
    pub(crate) facts: List<List<Name>>,
    pub(crate) events: List<List<Name>>,
}
