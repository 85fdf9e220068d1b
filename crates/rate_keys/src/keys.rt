ghost use Rattle.std.specs.Prelude.{◌≡◌, ◌++◌, ◌∷◌, [], IfOk, None, OnOk, flat_map, map, option_copied};
ghost use Rattle.package_index.specs.Names.{last};
ghost use Rattle.rate_keys.specs.Keys.{event_to, key_of, kind_key, kind_type_keys, lone_event, outgoing_event, outgoing_keys, rate_keys, source_event, source_key, source_type_keys, set_keys, state_key, term_keys, type_name};

use crate::key::RateKey;
use crate::lone::LoneEvents;
use crate::names::EventNames;
use crate::texts::{event_names, machine_states, transitions_of};
use aadl_syntax::{
    Flow, FlowKind, Identifier, MachineDecl, Outgoing, StateDecl, StateRef, Term, TypeSet,
};
use component_extension::{Effective, InClause};
use plain_values::{List, Mem, Name, copied};
use std::alloc::Global;

/// The further keys of the events of a component, in the order in which they count: the states to which an event alone leads, the error
/// sources that stand for such a state, the points with the types of these sources and of sources that are events, and those of outgoing
/// conditions from such a state.
pub fn rate_keys<'a>(
    alloc: Global,
    machine: Option<&'a MachineDecl>,
    effective: &Effective<'a>,
) -> Mem<List<RateKey>>
    ensures { IfOk result (λ keys. keys ≡ rate_keys (option_copied machine.entry) effective.now) }
{
    let events = EventNames::of(alloc, event_names(alloc, machine, effective)?)?;
    let lone = LoneEvents::of(alloc, events, transitions_of(alloc, machine, effective)?)?;
    let flows = effective.propagations.flows.items();
    let mut keys = List::new(alloc);
    add_states(&mut keys, alloc, &lone, machine_states(machine))?;
    add_sources(&mut keys, alloc, &lone, flows)?;
    add_source_types(&mut keys, alloc, &lone, flows)?;
    add_outgoing(&mut keys, alloc, &lone, effective.behavior.outgoing.items())?;
    Ok(keys)
}

/// Adds the keys of states.
fn add_states(
    keys: &mut List<RateKey>,
    alloc: Global,
    lone: &LoneEvents<'_>,
    states: &[StateDecl],
) -> Mem<()>
    ensures { OnOk result (keys.new ≡ keys.old ++ flat_map (state_key (lone_event lone.now.events lone.now.transitions)) states.now) }
{
    for state in states {
        let name = state.name.text();
        add_key(keys, alloc, &[], name, lone.lone_event(name))?;
    }
    Ok(())
}

/// Adds the keys of error sources that stand for states.
fn add_sources(
    keys: &mut List<RateKey>,
    alloc: Global,
    lone: &LoneEvents<'_>,
    flows: &[InClause<'_, Flow>],
) -> Mem<()>
    ensures { OnOk result (keys.new ≡ keys.old ++ flat_map (source_key (lone_event lone.now.events lone.now.transitions)) (map (λ scoped. scoped.item) flows.now)) }
{
    for scoped in flows {
        add_source(keys, alloc, lone, scoped.item())?;
    }
    Ok(())
}

/// Adds the key of an error source that stands for a state.
fn add_source(
    keys: &mut List<RateKey>,
    alloc: Global,
    lone: &LoneEvents<'_>,
    flow: &Flow,
) -> Mem<()>
    ensures { OnOk result (keys.new ≡ keys.old ++ source_key (lone_event lone.now.events lone.now.transitions) flow.now) }
{
    match &flow.kind {
        FlowKind::Source(_, _, state) => {
            add_key(keys, alloc, &[], flow.name.text(), event_to(lone, state))
        }
        FlowKind::Sink(_, _) => Ok(()),
        FlowKind::Path(_, _, _, _, _) => Ok(()),
    }
}

/// Adds the keys of error sources by their points and types.
fn add_source_types(
    keys: &mut List<RateKey>,
    alloc: Global,
    lone: &LoneEvents<'_>,
    flows: &[InClause<'_, Flow>],
) -> Mem<()>
    ensures { OnOk result (keys.new ≡ keys.old ++ flat_map (source_type_keys lone.now.events (lone_event lone.now.events lone.now.transitions)) (map (λ scoped. scoped.item) flows.now)) }
{
    for scoped in flows {
        add_types_of(keys, alloc, lone, scoped.item())?;
    }
    Ok(())
}

/// Adds the keys of an error source by its point and types.
fn add_types_of(
    keys: &mut List<RateKey>,
    alloc: Global,
    lone: &LoneEvents<'_>,
    flow: &Flow,
) -> Mem<()>
    ensures { OnOk result (keys.new ≡ keys.old ++ source_type_keys lone.now.events (lone_event lone.now.events lone.now.transitions) flow.now) }
{
    match &flow.kind {
        FlowKind::Source(point, set, state) => {
            let event = source_event(lone, &flow.name, state);
            add_types(keys, alloc, point.names.items(), event, set)
        }
        FlowKind::Sink(_, _) => Ok(()),
        FlowKind::Path(_, _, _, _, _) => Ok(()),
    }
}

/// Adds the keys of outgoing conditions by their points and types.
fn add_outgoing(
    keys: &mut List<RateKey>,
    alloc: Global,
    lone: &LoneEvents<'_>,
    outgoing: &[InClause<'_, Outgoing>],
) -> Mem<()>
    ensures { OnOk result (keys.new ≡ keys.old ++ flat_map (outgoing_keys (lone_event lone.now.events lone.now.transitions)) (map (λ scoped. scoped.item) outgoing.now)) }
{
    for scoped in outgoing {
        add_of_outgoing(keys, alloc, lone, scoped.item())?;
    }
    Ok(())
}

/// Adds the keys of an outgoing condition by its point and types.
fn add_of_outgoing(
    keys: &mut List<RateKey>,
    alloc: Global,
    lone: &LoneEvents<'_>,
    outgoing: &Outgoing,
) -> Mem<()>
    ensures { OnOk result (keys.new ≡ keys.old ++ outgoing_keys (lone_event lone.now.events lone.now.transitions) outgoing.now) }
{
    let event = outgoing_event(lone, outgoing);
    add_types(
        keys,
        alloc,
        outgoing.point.names.items(),
        event,
        &outgoing.set,
    )
}

/// The event that alone leads to the state of an outgoing condition, where its brackets are empty.
fn outgoing_event<'a>(lone: &LoneEvents<'a>, outgoing: &Outgoing) -> Option<&'a Identifier>
    ensures { option_copied result ≡ outgoing_event (lone_event lone.now.events lone.now.transitions) outgoing.now }
{
    if outgoing.condition.is_some() {
        return None;
    }
    event_to(lone, &outgoing.source.state)
}

/// The event that alone leads to the state, if one is named.
fn event_to<'a>(lone: &LoneEvents<'a>, state: &Option<StateRef>) -> Option<&'a Identifier>
    ensures { option_copied result ≡ event_to (lone_event lone.now.events lone.now.transitions) state.now }
{
    match state {
        Some(named) => lone.lone_event(named.name.text()),
        None => None,
    }
}

/// The event for which a source counts: that of its state, or the source itself where it has none; a name that an event has is of that
/// event.
fn source_event<'e>(
    lone: &LoneEvents<'e>,
    name: &'e Identifier,
    state: &Option<StateRef>,
) -> Option<&'e Identifier>
    ensures { option_copied result ≡ source_event lone.now.events (lone_event lone.now.events lone.now.transitions) name.now state.now }
{
    match state {
        Some(named) => lone.lone_event(named.name.text()),
        None => unless_event(lone.events(), name),
    }
}

/// A name, if no event has it.
fn unless_event<'n>(events: &EventNames<'_>, name: &'n Identifier) -> Option<&'n Identifier>
    ensures { option_copied result ≡ source_event events.now (λ state. None) name.now None }
{
    if events.has(name.text()) {
        return None;
    }
    Some(name)
}

/// Adds the keys of an event for each type of a set at a point.
fn add_types(
    keys: &mut List<RateKey>,
    alloc: Global,
    point: &[Identifier],
    event: Option<&Identifier>,
    set: &Option<TypeSet>,
) -> Mem<()>
    ensures { OnOk result (keys.new ≡ keys.old ++ set_keys point.now (option_copied event.entry) set.now) }
{
    match set {
        Some(set) => add_terms(keys, alloc, point, event, set.terms.items()),
        None => Ok(()),
    }
}

fn add_terms(
    keys: &mut List<RateKey>,
    alloc: Global,
    point: &[Identifier],
    event: Option<&Identifier>,
    terms: &[Term],
) -> Mem<()>
    ensures { OnOk result (keys.new ≡ keys.old ++ flat_map (term_keys point.now (option_copied event.entry)) terms.now) }
{
    for term in terms {
        add_term(keys, alloc, point, event, term)?;
    }
    Ok(())
}

/// Adds the key of an event for the type of a term, if it is one.
fn add_term(
    keys: &mut List<RateKey>,
    alloc: Global,
    point: &[Identifier],
    event: Option<&Identifier>,
    term: &Term,
) -> Mem<()>
    ensures { OnOk result (keys.new ≡ keys.old ++ term_keys point.now (option_copied event.entry) term.now) }
{
    match type_name(term) {
        Some(name) => add_key(keys, alloc, point, name, event),
        None => Ok(()),
    }
}

/// The name of the type in a term of a written set, without its package.
fn type_name(term: &Term) -> Option<&[u8]>
    ensures { option_copied result ≡ type_name term.now }
{
    match term {
        Term::NoError(_) => None,
        Term::One(reference) => last_of(reference.names.items()),
        Term::Product(_) => None,
    }
}

/// The last name.
fn last_of(names: &[Identifier]) -> Option<&[u8]>
    ensures { option_copied result ≡ last names.now }
{
    let name = names.last()?;
    Some(name.text())
}

/// Adds the key of an event, if there is one: the names of a point, and one more.
fn add_key(
    keys: &mut List<RateKey>,
    alloc: Global,
    point: &[Identifier],
    name: &[u8],
    event: Option<&Identifier>,
) -> Mem<()>
    ensures { OnOk result (keys.new ≡ keys.old ++ key_of (point.now ++ name.now ∷ []) (option_copied event.entry)) }
{
    match event {
        Some(event) => push_key(keys, alloc, point, name, event),
        None => Ok(()),
    }
}

/// Adds a key.
fn push_key(
    keys: &mut List<RateKey>,
    alloc: Global,
    point: &[Identifier],
    name: &[u8],
    event: &Identifier,
) -> Mem<()>
    ensures { OnOk result (keys.new ≡ keys.old ++ record { event = event.now; names = point.now ++ name.now ∷ [] } ∷ []) }
{
    let event = copied(alloc, event.text())?;
    let names = names_of(alloc, point, name)?;
    keys.push(RateKey { event, names })?;
    Ok(())
}

/// These names, and one more.
fn names_of(alloc: Global, point: &[Identifier], name: &[u8]) -> Mem<List<Name>>
    ensures { IfOk result (λ names. names ≡ point.now ++ name.now ∷ []) }
{
    let mut names = List::new(alloc);
    add_names(&mut names, alloc, point)?;
    names.push(copied(alloc, name)?)?;
    Ok(names)
}

fn add_names(names: &mut List<Name>, alloc: Global, point: &[Identifier]) -> Mem<()>
    ensures { OnOk result (names.new ≡ names.old ++ point.now) }
{
    for part in point {
        let name = copied(alloc, part.text())?;
        names.push(name)?;
    }
    Ok(())
}
