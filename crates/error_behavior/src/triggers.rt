ghost use Rattle.std.specs.Prelude.{◌≡◌, IfOk, OnOk, Some, false, option_copied, slice_index_or};
ghost use Rattle.noted_refusals.specs.inner.Noted.{noting};
ghost use Rattle.error_conditions.specs.inner.Sides.{at_side};
ghost use Rattle.error_behavior.specs.Triggers.{event_named, event_or_point, event_or_point_refusals, event_place, names_free, trigger_refusals, trigger_meaning};

use aadl_syntax::Atom;
use error_conditions::{
    Atoms, Cause, Side, event_cause, may_fail, note_no_errors, or_always, point_meaning,
    says_no_error,
};
use error_libraries::Scope;
use error_machines::Events;
use error_types::Reading;
use plain_values::Mem;
use propagation_points::{Points, Setting, Sort, Sorts, only_name};
use std::alloc::Global;
use std::marker::Model;

/// Where a trigger stands: the points and the states of the component, the text in which it is read, and the component's
/// events.
#[derive(Drop)]
pub(crate) struct TriggerPlace<'s, 'a> {
    pub(crate) setting: Setting<'s, 'a>,
    pub(crate) events: &'s Events<'a>,
}

/// What the triggers of a component may name: its points, its states and its events.
#[derive(Drop)]
pub(crate) struct Vocabulary<'s, 'a> {
    points: &'s Points<'a>,
    states: &'s Sorts<'a>,
    events: &'s Events<'a>,
}

impl<'s, 'a> Model for Vocabulary<'s, 'a> {
    ghost use Rattle.std.specs.Coded.{codes};
    ghost use Rattle.propagation_points.specs.contracts.side.Side as side;
    ghost use Rattle.error_behavior.specs.Triggers.{Vocabulary as Words};

    ghost Value = { Words };

    ghost coded = { Prim.hlevel (codes, side.the_row.coded) };

    ghost view = { λ v. record { points = v.points.now; states = v.states.now; events = v.events.now } };
}

impl<'s, 'a> Vocabulary<'s, 'a> {
    ghost use Rattle.error_behavior.specs.Triggers.{place_in};

    /// These points, states and events.
    pub(crate) fn new(
        points: &'s Points<'a>,
        states: &'s Sorts<'a>,
        events: &'s Events<'a>,
    ) -> Vocabulary<'s, 'a>
        ensures { result ≡ record { points = points.now; states = states.now; events = events.now } }
    {
        Vocabulary {
            points,
            states,
            events,
        }
    }

    /// The place of a trigger that is read in this text, if there is one.
    pub(crate) fn place(&self, scope: Option<&'s Scope>) -> TriggerPlace<'s, 'a>
        ensures { result ≡ place_in self.now (option_copied scope.entry) }
    {
        TriggerPlace {
            setting: Setting::new(self.points, self.states, scope),
            events: self.events,
        }
    }
}

impl<'s, 'a> Model for TriggerPlace<'s, 'a> {
    ghost use Rattle.std.specs.Coded.{codes};
    ghost use Rattle.propagation_points.specs.contracts.side.Side as side;
    ghost use Rattle.error_behavior.specs.Triggers.{TriggerPlace as Place};

    ghost Value = { Place };

    ghost coded = { Prim.hlevel (codes, side.the_row.coded) };

    ghost view = { λ p. record { setting = p.setting; events = p.events.now } };
}

impl<'s, 'a> TriggerPlace<'s, 'a> {
    /// The event that a named part names, if it names one.
    fn event(&self, atom: &Atom) -> Option<&'s Sort<'a>>
        ensures { option_copied result ≡ event_named self.now.events.sorts atom.now }
    {
        if atom.inward {
            return None;
        }
        self.events
            .sorts
            .find(only_name(atom.names.items())?.text())
    }

    /// The place of the event that a named part names, if it names one.
    fn event_place(&self, atom: &Atom) -> Option<u32>
        ensures { result ≡ event_place self.now.events.sorts atom.now }
    {
        if atom.inward {
            return None;
        }
        self.events
            .sorts
            .place(only_name(atom.names.items())?.text())
    }

    /// Whether a named part names an event that is free.
    fn names_free(&self, atom: &Atom) -> bool
        ensures { result ≡ names_free self.now.events atom.now }
    {
        match self.event_place(atom) {
            Some(place) => is_marked(self.events.free.items(), place),
            None => false,
        }
    }
}

fn is_marked(marks: &[bool], place: u32) -> bool
    ensures { result ≡ slice_index_or marks.now place false }
{
    match marks.get(place as usize) {
        Some(mark) => *mark,
        None => false,
    }
}

impl<'s, 'a> Atoms for TriggerPlace<'s, 'a> {
    ghost meaning = { trigger_meaning };

    ghost faults = { trigger_refusals };

    #[tactic(auto, using(noted_refusals::proofs::Noting::noted_more))]
    fn meaning<'t>(
        &self,
        alloc: Global,
        side: Side,
        reading: &mut Reading<'_, 't>,
        atom: &'t Atom,
    ) -> Mem<Cause> {
        note_no_errors(&mut reading.refusals, reading.types.profile(), &atom.set);
        let free = self.names_free(atom);
        event_or_point(
            alloc,
            side,
            &self.setting,
            reading,
            atom,
            free,
            self.event(atom),
        )
    }
}

/// A side of the meaning of a named part that names this event, which may be free, or else a point. Its refusals are noted.
fn event_or_point<'a>(
    alloc: Global,
    side: Side,
    setting: &Setting,
    reading: &mut Reading<'_, 'a>,
    atom: &'a Atom,
    free: bool,
    event: Option<&Sort>,
) -> Mem<Cause>
    ensures kept { reading.new.types ≡ reading.old.types }
    ensures meaning { IfOk result (λ cause. cause ≡ at_side side (event_or_point reading.old.types setting.now atom.now free (option_copied event.entry))) }
    ensures noted { OnOk result (reading.new.refusals ≡ noting reading.old.refusals (event_or_point_refusals reading.old.types setting.now atom.now (option_copied event.entry))) }
{
    match event {
        Some(event) => event_meaning(alloc, side, setting, reading, atom, free, event),
        None => point_meaning(alloc, side, setting, reading, atom),
    }
}

/// The same of one that names an event.
fn event_meaning<'a>(
    alloc: Global,
    side: Side,
    setting: &Setting,
    reading: &mut Reading<'_, 'a>,
    atom: &'a Atom,
    free: bool,
    event: &Sort,
) -> Mem<Cause>
    ensures kept { reading.new.types ≡ reading.old.types }
    ensures meaning { IfOk result (λ cause. cause ≡ at_side side (event_or_point reading.old.types setting.now atom.now free (Some event.now))) }
    ensures noted { OnOk result (reading.new.refusals ≡ noting reading.old.refusals (event_or_point_refusals reading.old.types setting.now atom.now (Some event.now))) }
{
    let no_error = says_no_error(alloc, &mut reading.types, setting.scope(), &atom.set)?;
    let held = setting.held(alloc, reading, event, &atom.set)?;
    let cause = or_always(alloc, free || no_error, event_cause(alloc, held)?);
    Ok(may_fail(alloc, side, cause))
}
