//! Where that stands which a finding is about.

ghost use Rattle.std.specs.Prelude.{◌≡◌, IfOk, cond, option_map, slice_get};
ghost use Rattle.finding_places.specs.Spots.{classifier_spot, clause_spot, connection_spot, finding_spot, first_event_spot, flow_spot, numbered_event_spot, numbered_fact_spot, unlinked_spot, user_path_spot};

use component_extension::Effective;
use event_origins::ModelPlaces;
use fact_formulas::NumberedModel;
use instantiator::Instance;
use model_facts::Assembly;
use model_review::{Finding, flow_of};
use plain_values::{List, Mem, Spot};
use propagation_links::Unlinked;
use std::alloc::Global;

/// Where that stands which a finding is about.
pub(crate) fn finding_spot(
    alloc: Global,
    places: &ModelPlaces,
    model: &NumberedModel,
    finding: &Finding,
) -> Mem<Option<Spot>>
    ensures { IfOk result (λ spot. spot ≡ finding_spot (record { assembly = places.now; universe = model.now.universe; facts = model.now.facts; events = model.now.events }) finding.now) }
{
    let assembly = places.assembly();
    match finding {
        Finding::HiddenSource(owner, flow, _) => Ok(flow_spot(assembly, *owner, *flow)),
        Finding::HiddenPath(owner, flow, _) => Ok(flow_spot(assembly, *owner, *flow)),
        Finding::HiddenLink(_, at) => Ok(places.side(at.side)),
        Finding::HiddenTransitions(owner, _) => Ok(clause_spot(assembly, *owner)),
        Finding::NotDeclared(_, to) => Ok(places.side(*to)),
        Finding::StopsHere(at) => Ok(places.side(at.side)),
        Finding::SinkLeaves(at) => Ok(places.side(at.side)),
        Finding::GoesNowhere(at) => Ok(places.side(at.side)),
        Finding::NoLink(one) => Ok(unlinked_spot(assembly, *one)),
        Finding::TwoWays(link) => Ok(places.side(link.to)),
        Finding::Open(at) => Ok(places.side(at.side)),
        Finding::Dry(at) => Ok(places.side(at.side)),
        Finding::NoSource(side) => Ok(places.side(*side)),
        Finding::Never(at) => Ok(places.side(at.side)),
        Finding::NeverState(state) => Ok(places.state(0, *state)),
        Finding::Always(at) => Ok(places.side(at.side)),
        Finding::AlwaysState(owner, state) => Ok(places.state(*owner, *state)),
        Finding::UnusedState(owner, state) => Ok(places.state(*owner, *state)),
        Finding::Unlike(one) => Ok(fact_spot(places, model, one.state)),
        Finding::Quiet(one) => Ok(fact_spot(places, model, one.state)),
        Finding::InModes(part) => Ok(Some(part.spot)),
        Finding::UnreadBinding(part) => Ok(Some(part.spot)),
        Finding::StrayPath(stray) => Ok(Some(stray.spot)),
        Finding::StrayRate(rate) => Ok(Some(rate.spot)),
        Finding::CoreRate(part) => Ok(Some(part.spot)),
        Finding::TypeRoot(one) => Ok(Some(one.spot)),
        Finding::InLoop(one) => Ok(fact_spot(places, model, one.first)),
        Finding::UnusedEvent(event) => event_spot(alloc, places, model, *event),
        Finding::NoSingle(event) => event_spot(alloc, places, model, *event),
        Finding::NoEffect => Ok(classifier_spot(assembly.instance(), 0)),
        Finding::UnreachedEvents(events) => { first_event_spot(alloc, places, model, events) }
    }
}

/// Of which the fact of a number is.
fn fact_spot(places: &ModelPlaces, model: &NumberedModel, number: u32) -> Option<Spot>
    ensures { result ≡ numbered_fact_spot (record { assembly = places.now; universe = model.now.universe; facts = model.now.facts; events = model.now.events }) number }
{
    let fact = model.facts.list().get(number as usize)?;
    places.fact(*fact)
}

/// The declaration of the event of a number.
fn event_spot(
    alloc: Global,
    places: &ModelPlaces,
    model: &NumberedModel,
    number: u32,
) -> Mem<Option<Spot>>
    ensures { IfOk result (λ spot. spot ≡ numbered_event_spot (record { assembly = places.now; universe = model.now.universe; facts = model.now.facts; events = model.now.events }) number) }
{
    match model.events.list().get(number as usize) {
        Some(event) => places.event(alloc, *event),
        None => Ok(None),
    }
}

/// The declaration of the first of some events.
fn first_event_spot(
    alloc: Global,
    places: &ModelPlaces,
    model: &NumberedModel,
    events: &List<u32>,
) -> Mem<Option<Spot>>
    ensures { IfOk result (λ spot. spot ≡ first_event_spot (record { assembly = places.now; universe = model.now.universe; facts = model.now.facts; events = model.now.events }) events.now) }
{
    match events.items().get(0) {
        Some(event) => event_spot(alloc, places, model, *event),
        None => Ok(None),
    }
}

/// The source or path of a place among those of a component.
fn flow_spot(assembly: &Assembly, owner: u32, number: u32) -> Option<Spot>
    ensures { result ≡ flow_spot assembly.now owner number }
{
    let flow = flow_of(assembly, owner, number)?;
    Some(flow.spot)
}

/// The first clause of composite states of a component.
fn clause_spot(assembly: &Assembly, owner: u32) -> Option<Spot>
    ensures { result ≡ clause_spot assembly.now owner }
{
    match assembly.instance().effective(owner) {
        Some(effective) => first_clause(effective),
        None => None,
    }
}

fn first_clause(effective: &Effective) -> Option<Spot>
    ensures { result ≡ option_map (λ scoped. scoped.item.spot) (slice_get effective.now.behavior.composites 0) }
{
    let clause = effective.behavior.composites.items().get(0)?;
    Some(clause.item().spot)
}

/// A connection or a user path that gives no link.
fn unlinked_spot(assembly: &Assembly, one: Unlinked) -> Option<Spot>
    ensures { result ≡ unlinked_spot assembly.now one }
{
    match assembly.instance().effective(one.component) {
        Some(effective) => unlinked_in(effective, one),
        None => None,
    }
}

fn unlinked_in(effective: &Effective, one: Unlinked) -> Option<Spot>
    ensures { result ≡ cond one.is_path (user_path_spot effective.now one.number) (connection_spot effective.now one.number) }
{
    if one.is_path {
        user_path_spot(effective, one.number)
    } else {
        connection_spot(effective, one.number)
    }
}

fn user_path_spot(effective: &Effective, number: u32) -> Option<Spot>
    ensures { result ≡ user_path_spot effective.now number }
{
    let paths = effective.propagations.user_paths.items();
    let path = paths.get(number as usize)?;
    Some(path.item().spot)
}

fn connection_spot(effective: &Effective, number: u32) -> Option<Spot>
    ensures { result ≡ connection_spot effective.now number }
{
    let connections = effective.members.connections.items();
    let connection = connections.get(number as usize)?;
    Some(connection.nearest().item().spot)
}

/// The classifier of a component.
fn classifier_spot(instance: &Instance, component: u32) -> Option<Spot>
    ensures { result ≡ classifier_spot instance.now component }
{
    let id = instance.classifier(component)?;
    let decl = instance.index().decl(id)?;
    Some(decl.spot)
}
