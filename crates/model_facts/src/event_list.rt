ghost use Rattle.std.specs.Prelude.{◌≡◌, ◌≤◌, ◌∷◌, [], length, map, MatchResult};
ghost use Rattle.plain_values.specs.declared.refusal.Code.TheVariants.{TooManyEvents};
ghost use Rattle.plain_values.specs.Numbered.{numbers_below, numbered_from};
ghost use Rattle.model_facts.specs.Assembly.{model_at};
ghost use Rattle.model_facts.specs.Facts.{arrivals, event_in, events_of, model_events, source_events};
ghost use Rattle.model_facts.specs.Limits.{most_events};
ghost use Rattle.model_facts.specs.inner.Steps.{AddsEvents, Exceeds};
ghost use Rattle.model_facts.specs.declared.keys.EventKind.TheVariants.{Arrival, Declared};

use crate::assembly::Assembly;
use crate::keys::{EventKey, EventKind};
use crate::linked::LinkedSides;
use crate::lists::push_within;
use crate::sides::side_numbers;
use error_flows::FlowMeaning;
use error_models::ErrorModel;
use plain_values::{Answer, Code, List, Stop};
use propagation_points::Point;
use std::alloc::Global;

/// The events of all components, unless there are too many.
pub(crate) fn events_of(alloc: Global, assembly: &Assembly) -> Answer<List<EventKey>>
    ensures { MatchResult result (λ events. (events ≡ events_of assembly.now) × (length events ≤ most_events)) (Exceeds most_events TooManyEvents (events_of assembly.now)) }
{
    let linked = LinkedSides::of(alloc, assembly.links())?;
    events_with(alloc, assembly, &linked)
}

fn events_with(alloc: Global, assembly: &Assembly, linked: &LinkedSides) -> Answer<List<EventKey>>
    requires { linked.now ≡ assembly.now.links }
    ensures { MatchResult result (λ events. (events ≡ events_of assembly.now) × (length events ≤ most_events)) (Exceeds most_events TooManyEvents (events_of assembly.now)) }
{
    let mut events = List::new(alloc);
    for number in 0..assembly.instance().components().len() {
        add_component(&mut events, assembly, linked, number as u32)?;
    }
    Ok(events)
}

/// Adds the events of the component of a number.
fn add_component(
    events: &mut List<EventKey>,
    assembly: &Assembly,
    linked: &LinkedSides,
    number: u32,
) -> Answer<()>
    ensures { AddsEvents events.old events.new (map (event_in number) (model_events linked.now number (model_at assembly.now number))) result }
{
    match assembly.model(number) {
        Some(model) => add_model(events, number, linked, model),
        None => Ok(()),
    }
}

fn add_model(
    events: &mut List<EventKey>,
    owner: u32,
    linked: &LinkedSides,
    model: &ErrorModel,
) -> Answer<()>
    ensures { AddsEvents events.old events.new (map (event_in owner) (model_events linked.now owner model.now)) result }
{
    add_declared(events, owner, model.behavior.events.variants().len())?;
    add_sources(events, owner, model.flows.items())?;
    add_points(events, owner, linked, model.points.list())
}

fn add_declared(events: &mut List<EventKey>, owner: u32, count: usize) -> Answer<()>
    ensures { AddsEvents events.old events.new (map (λ event. event_in owner (Declared event)) (numbers_below count)) result }
{
    for event in 0..count {
        add_event(events, owner, event)?;
    }
    Ok(())
}

fn add_event(events: &mut List<EventKey>, owner: u32, event: usize) -> Answer<()>
    ensures { AddsEvents events.old events.new (event_in owner (Declared event) ∷ []) result }
{
    if event > 4_294_967_295 {
        return Err(Stop::Memory);
    }
    push_event(events, owner, EventKind::Declared(event as u32))
}

fn add_sources(events: &mut List<EventKey>, owner: u32, flows: &[FlowMeaning]) -> Answer<()>
    ensures { AddsEvents events.old events.new (numbered_from (λ number flow. map (event_in owner) (source_events number flow)) 0 flows.now) result }
{
    for (number, flow) in flows.iter().enumerate() {
        add_source(events, owner, number, flow)?;
    }
    Ok(())
}

fn add_source(
    events: &mut List<EventKey>,
    owner: u32,
    number: usize,
    flow: &FlowMeaning,
) -> Answer<()>
    ensures { AddsEvents events.old events.new (map (event_in owner) (source_events number flow.now)) result }
{
    if number > 4_294_967_295 {
        return Err(Stop::Memory);
    }
    match flow {
        FlowMeaning::Event(_, _) => push_event(events, owner, EventKind::Source(number as u32)),
        FlowMeaning::State(_, _) | FlowMeaning::Carry(_, _) | FlowMeaning::Change(_, _, _) => Ok(
            (),
        ),
    }
}

fn add_points(
    events: &mut List<EventKey>,
    owner: u32,
    linked: &LinkedSides,
    points: &[Point],
) -> Answer<()>
    ensures { AddsEvents events.old events.new (numbered_from (λ number point. map (event_in owner) (arrivals linked.now owner number point)) 0 points.now) result }
{
    for (number, point) in points.iter().enumerate() {
        add_point(events, owner, linked, number, point)?;
    }
    Ok(())
}

fn add_point(
    events: &mut List<EventKey>,
    owner: u32,
    linked: &LinkedSides,
    number: usize,
    point: &Point,
) -> Answer<()>
    ensures { AddsEvents events.old events.new (map (event_in owner) (arrivals linked.now owner number point.now)) result }
{
    if number > 4_294_967_295 {
        return Err(Stop::Memory);
    }
    if linked.has(owner, number as u32) {
        return Ok(());
    }
    add_arrivals(
        events,
        owner,
        number as u32,
        side_numbers(point.side(false)),
    )
}

/// Adds that these types arrive at a point from outside of the model.
fn add_arrivals(events: &mut List<EventKey>, owner: u32, point: u32, types: &[u32]) -> Answer<()>
    ensures { AddsEvents events.old events.new (map (λ number. event_in owner (Arrival point number)) types.now) result }
{
    for number in types {
        push_event(events, owner, EventKind::Arrival(point, *number))?;
    }
    Ok(())
}

fn push_event(events: &mut List<EventKey>, owner: u32, kind: EventKind) -> Answer<()>
    ensures { AddsEvents events.old events.new (event_in owner kind ∷ []) result }
{
    push_within(events, EventKey { owner, kind }, 4096, Code::TooManyEvents)
}
