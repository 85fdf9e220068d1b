ghost use Rattle.std.specs.Prelude.{◌≡◌, ◌++◌, [], ◌∷◌, IfOk, None, flat_map, fold, map, option_copied, option_map};
ghost use Rattle.noted_refusals.specs.inner.Noted.{noting};
ghost use Rattle.error_behavior.specs.Behavior.{clause_event_refusals, texts_of};
ghost use Rattle.error_machines.specs.States.{clause_event, event_at, event_refusals, event_types, events_of, is_free, is_recovery, keep_event, keep_event_at, machine_events, machine_scope, no_events};

use crate::behavior::{Texts, clause_scope, machine_scope};
use aadl_syntax::{EventDecl, EventKind};
use component_extension::{Effective, InClause};
use error_libraries::Scope;
use error_machines::{Events, UsedMachine};
use error_types::TypeTable;
use noted_refusals::Refusals;
use plain_values::{Code, List, Mem};
use profiles::Profile;
use propagation_points::{Sorts, declared_by};
use std::alloc::Global;

/// The events of a component, which has these texts: those of its machine, if it uses one, and then those of its clauses.
pub(crate) fn events_of<'a>(
    alloc: Global,
    types: &mut TypeTable<'_, 'a>,
    machine: &Option<UsedMachine<'a>>,
    effective: &Effective<'a>,
    texts: &Texts,
) -> Mem<Events<'a>>
    requires { texts.now ≡ texts_of types.old machine.now effective.now }
    ensures kept { types.new ≡ types.old }
    ensures events { IfOk result (λ events. events ≡ events_of types.old machine.now effective.now) }
{
    let events = machine_events(alloc, types, machine, machine_scope(texts))?;
    with_clauses(
        alloc,
        types,
        events,
        effective.behavior.events.items(),
        texts,
    )
}

fn machine_events<'a>(
    alloc: Global,
    types: &mut TypeTable<'_, 'a>,
    machine: &Option<UsedMachine<'a>>,
    scope: Option<&Scope>,
) -> Mem<Events<'a>>
    requires { option_copied scope ≡ option_map (machine_scope types.old) machine.now }
    ensures kept { types.new ≡ types.old }
    ensures events { IfOk result (λ events. events ≡ fold (keep_event types.old) no_events (machine_events types.old machine.now)) }
{
    match machine {
        Some(machine) => events_in(alloc, types, machine.decl().events.items(), scope),
        None => Ok(no_events(alloc)),
    }
}

fn events_in<'a>(
    alloc: Global,
    types: &mut TypeTable<'_, 'a>,
    decls: &'a [EventDecl],
    scope: Option<&Scope>,
) -> Mem<Events<'a>>
    ensures kept { types.new ≡ types.old }
    ensures events { IfOk result (λ events. events ≡ fold (keep_event types.old) no_events (map (event_at (option_copied scope.entry)) decls.now)) }
{
    let mut events = no_events(alloc);
    for decl in decls {
        events = with_event(alloc, types, events, decl, scope)?;
    }
    Ok(events)
}

fn with_clauses<'a>(
    alloc: Global,
    types: &mut TypeTable<'_, 'a>,
    before: Events<'a>,
    decls: &[InClause<'a, EventDecl>],
    texts: &Texts,
) -> Mem<Events<'a>>
    ensures kept { types.new ≡ types.old }
    ensures events { IfOk result (λ events. events ≡ fold (keep_event types.old) before.entry (map (clause_event texts.now.clauses) decls.now)) }
{
    let mut events = before;
    for decl in decls {
        let scope = clause_scope(texts, decl.scope());
        events = with_event(alloc, types, events, decl.item(), scope)?;
    }
    Ok(events)
}

fn no_events<'a>(alloc: Global) -> Events<'a>
    ensures { result ≡ no_events }
{
    Events {
        sorts: Sorts::new(alloc),
        free: List::new(alloc),
    }
}

/// The events with one more at the end, unless one has its name.
fn with_event<'a>(
    alloc: Global,
    types: &mut TypeTable<'_, 'a>,
    events: Events<'a>,
    decl: &'a EventDecl,
    scope: Option<&Scope>,
) -> Mem<Events<'a>>
    ensures kept { types.new ≡ types.old }
    ensures events { IfOk result (λ more. more ≡ keep_event types.old events.entry (event_at (option_copied scope.entry) decl.now)) }
{
    let mark = is_free(types.profile(), decl.kind);
    let own = event_types(alloc, types, decl, scope)?;
    if events.sorts.place(decl.name.text()).is_some() {
        return Ok(events);
    }
    let Events { sorts, mut free } = events;
    free.push(mark)?;
    let sorts = sorts.with(&decl.name, own)?;
    Ok(Events { sorts, free })
}

/// The types that are declared with an event. What is free has no variant.
fn event_types<'a>(
    alloc: Global,
    types: &mut TypeTable<'_, 'a>,
    decl: &'a EventDecl,
    scope: Option<&Scope>,
) -> Mem<Option<List<u32>>>
    ensures kept { types.new ≡ types.old }
    ensures types { IfOk result (λ found. found ≡ event_types types.old (event_at (option_copied scope.entry) decl.now)) }
{
    if is_free(types.profile(), decl.kind) {
        return Ok(Some(List::new(alloc)));
    }
    declared_by(alloc, types, scope, &decl.set)
}

/// Whether an event of this kind is free by a profile.
fn is_free(profile: Profile, kind: EventKind) -> bool
    ensures { result ≡ is_free profile kind }
{
    !profile.is_first() && is_recovery(kind)
}

/// Notes the refusals of events that a machine declares: by the first profile P8.
pub(crate) fn note_events(refusals: &mut Refusals, profile: Profile, decls: &[EventDecl])
    ensures { refusals.new ≡ noting refusals.old (flat_map (event_refusals profile) decls.now) }
{
    for decl in decls {
        note_event(refusals, profile, decl);
    }
}

/// Notes the refusals of events that clauses declare.
pub(crate) fn note_clause_events(
    refusals: &mut Refusals,
    profile: Profile,
    events: &[InClause<'_, EventDecl>],
)
    ensures { refusals.new ≡ noting refusals.old (clause_event_refusals profile events.now) }
{
    for event in events {
        note_event(refusals, profile, event.item());
    }
}

#[tactic(auto, using(noted_refusals::proofs::Noting::noted_more))]
fn note_event(refusals: &mut Refusals, profile: Profile, decl: &EventDecl)
    ensures { refusals.new ≡ noting refusals.old (event_refusals profile decl.now) }
{
    let refused = profile.is_first() && is_recovery(decl.kind);
    refusals.note_if(refused, Code::Recovery, decl.spot);
}

fn is_recovery(kind: EventKind) -> bool
    ensures { result ≡ is_recovery kind }
{
    match kind {
        EventKind::Error => false,
        EventKind::Recover => true,
        EventKind::Repair => true,
    }
}
