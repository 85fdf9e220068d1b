ghost use Rattle.std.specs.Prelude.{◌≡◌, ◌++◌, IfOk, OnOk, true, flat_map, option_map, option_and_then, option_to_list};
ghost use Rattle.noted_refusals.specs.inner.Noted.{noting};
ghost use Rattle.plain_values.specs.declared.refusal.Code.TheVariants.{Mapping};
ghost use Rattle.plain_values.specs.Refusal.{refused_so, refused_there};
ghost use Rattle.propagation_points.specs.Settings.{refusals_in, held_in, reached_in, state_refusals_in};
ghost use Rattle.error_flows.specs.declared.meaning.FlowMeaning.TheVariants.{Event, State};
ghost use Rattle.error_flows.specs.Flows.{all_flow_refusals, refusals_of_flows, flow_refusals, flow_meaning, flows_of, meanings, path_meaning, sinks_of, source_meaning, taken, taken_by, when_refusals};

use crate::meaning::{FlowMeaning, Flows};
use aadl_syntax::{Flow, FlowKind, Identifier, StateRef};
use component_extension::{Effective, InClause};
use error_libraries::Scope;
use error_types::Reading;
use noted_refusals::Refusals;
use plain_values::{Code, List, Mem, Spot};
use propagation_points::{Held, PointUse, Points, Reach, ReachedPoint, Setting, Sorts, scopes_of};
use std::alloc::Global;

/// The flows of a component.
///
/// The refusals of its flows are noted: N9 at a point that the component does not have, or not on the side that is used,
/// N10 at a set with a type that is not declared for its side or its state, N11 at a state that the component does not have,
/// and P11 at each use of mappings, by a path or by a clause.
pub fn flows_of<'a>(
    alloc: Global,
    effective: &Effective<'a>,
    reading: &mut Reading<'_, 'a>,
    points: &Points<'a>,
    states: &Sorts<'a>,
) -> Mem<Flows>
    ensures kept { reading.new.types ≡ reading.old.types }
    ensures flows { IfOk result (λ flows. flows.meanings ≡ flows_of reading.old.types points.now states.now effective.now) }
    ensures sinks { IfOk result (λ flows. flows.sinks ≡ sinks_of reading.old.types points.now states.now effective.now) }
    ensures noted { OnOk result (reading.new.refusals ≡ noting reading.old.refusals (all_flow_refusals reading.old.types points.now states.now effective.now)) }
{
    let scopes = scopes_of(alloc, &reading.types, effective.clauses.items())?;
    let flows = effective.propagations.flows.items();
    let found = meanings(alloc, reading, points, states, scopes.items(), flows)?;
    note_mappings(&mut reading.refusals, effective.others.mappings.items());
    Ok(found)
}

/// Notes each use of mappings by a clause.
fn note_mappings(refusals: &mut Refusals, mappings: &[Spot])
    ensures { refusals.new ≡ noting refusals.old (flat_map (refused_so true Mapping) mappings.now) }
{
    for spot in mappings {
        refusals.note_if(true, Code::Mapping, *spot);
    }
}

/// The flows that are read in these texts. Their refusals are noted.
fn meanings<'s, 'a>(
    alloc: Global,
    reading: &mut Reading<'_, 'a>,
    points: &'s Points<'a>,
    states: &'s Sorts<'a>,
    scopes: &'s [Scope],
    flows: &[InClause<'a, Flow>],
) -> Mem<Flows>
    ensures kept { reading.new.types ≡ reading.old.types }
    ensures flows { IfOk result (λ found. found.meanings ≡ meanings reading.old.types points.now states.now scopes.now flows.now) }
    ensures sinks { IfOk result (λ found. found.sinks ≡ taken reading.old.types points.now states.now scopes.now flows.now) }
    ensures noted { OnOk result (reading.new.refusals ≡ noting reading.old.refusals (refusals_of_flows reading.old.types points.now states.now scopes.now flows.now)) }
{
    let mut found = Flows {
        meanings: List::new(alloc),
        sinks: List::new(alloc),
    };
    for flow in flows {
        let setting = Setting::of_clause(points, states, scopes, flow.scope());
        add_flow(alloc, &mut found, reading, &setting, flow.item())?;
    }
    Ok(found)
}

/// Adds a flow, if it has a meaning or takes anything. Its refusals are noted.
fn add_flow<'a>(
    alloc: Global,
    found: &mut Flows,
    reading: &mut Reading<'_, 'a>,
    setting: &Setting<'_, 'a>,
    flow: &'a Flow,
) -> Mem<()>
    ensures kept { reading.new.types ≡ reading.old.types }
    ensures found { OnOk result (found.new.meanings ≡ found.old.meanings ++ option_to_list (flow_meaning reading.old.types setting.now flow.now.name flow.now.kind)) }
    ensures sinks { OnOk result (found.new.sinks ≡ found.old.sinks ++ option_to_list (taken_by reading.old.types setting.now flow.now.kind)) }
    ensures noted { OnOk result (reading.new.refusals ≡ noting reading.old.refusals (flow_refusals reading.old.types setting.now flow.now.kind)) }
{
    match &flow.kind {
        FlowKind::Source(point, set, state) => {
            let used = PointUse::new(point, true, set);
            let meaning = source(alloc, reading, setting, &flow.name, &used, state)?;
            found.meanings.push_some(meaning)
        }
        FlowKind::Sink(point, set) => {
            let used = PointUse::new(point, false, set);
            let reached = setting.reached(alloc, reading, &used)?;
            found.sinks.push_some(reached)
        }
        FlowKind::Path(from, from_set, to, to_set, mapping) => {
            let start = PointUse::new(from, false, from_set);
            let end = PointUse::new(to, true, to_set);
            let meaning = path(alloc, reading, setting, &start, &end, *mapping)?;
            found.meanings.push_some(meaning)
        }
    }
}

/// The meaning of a source at a point, in a state where it names one.
#[tactic(auto, using(noted_refusals::proofs::Noting::noted_more))]
fn source<'a>(
    alloc: Global,
    reading: &mut Reading<'_, 'a>,
    setting: &Setting<'_, 'a>,
    name: &Identifier,
    used: &PointUse<'a>,
    state: &'a Option<StateRef>,
) -> Mem<Option<FlowMeaning>>
    ensures kept { reading.new.types ≡ reading.old.types }
    ensures meaning { IfOk result (λ meaning. meaning ≡ option_and_then (source_meaning reading.old.types setting.now name.now state.now) (reached_in reading.old.types setting.now used.now)) }
    ensures noted { OnOk result (reading.new.refusals ≡ noting reading.old.refusals (refusals_in reading.old.types setting.now used.now ++ when_refusals reading.old.types setting.now state.now)) }
{
    let reached = setting.reached(alloc, reading, used)?;
    match state {
        Some(state) => state_source(alloc, reading, setting, state, reached),
        None => event_source(alloc, name, reached),
    }
}

fn event_source(
    alloc: Global,
    name: &Identifier,
    reached: Option<ReachedPoint>,
) -> Mem<Option<FlowMeaning>>
    ensures { IfOk result (λ meaning. meaning ≡ option_map (λ reached. Event name.now reached) reached) }
{
    match reached {
        Some(reached) => Ok(Some(FlowMeaning::Event(Identifier::of(alloc, name.text())?, reached))),
        None => Ok(None),
    }
}

/// The meaning of a source in a state. The refusals of the state are noted.
fn state_source<'a>(
    alloc: Global,
    reading: &mut Reading<'_, 'a>,
    setting: &Setting<'_, 'a>,
    state: &'a StateRef,
    reached: Option<ReachedPoint>,
) -> Mem<Option<FlowMeaning>>
    ensures kept { reading.new.types ≡ reading.old.types }
    ensures meaning { IfOk result (λ meaning. meaning ≡ option_and_then (λ reached. option_map (λ held. State held reached) (held_in reading.old.types setting.now state.now)) reached) }
    ensures noted { OnOk result (reading.new.refusals ≡ noting reading.old.refusals (state_refusals_in reading.old.types setting.now state.now)) }
{
    let held = setting.refer(alloc, reading, state)?;
    Ok(state_meaning(held, reached))
}

fn state_meaning(held: Option<Held>, reached: Option<ReachedPoint>) -> Option<FlowMeaning>
    ensures { result ≡ option_and_then (λ reached. option_map (λ held. State held reached) held) reached }
{
    Some(FlowMeaning::State(held?, reached?))
}

/// The meaning of a path from a start to an end.
#[tactic(auto, using(noted_refusals::proofs::Noting::noted_more))]
fn path<'a>(
    alloc: Global,
    reading: &mut Reading<'_, 'a>,
    setting: &Setting<'_, 'a>,
    start: &PointUse<'a>,
    end: &PointUse<'a>,
    mapping: Option<Spot>,
) -> Mem<Option<FlowMeaning>>
    ensures kept { reading.new.types ≡ reading.old.types }
    ensures meaning { IfOk result (λ meaning. meaning ≡ option_and_then (λ start. option_map (λ end. path_meaning start end.point end.types) (reached_in reading.old.types setting.now end.now)) (reached_in reading.old.types setting.now start.now)) }
    ensures noted { OnOk result (reading.new.refusals ≡ noting reading.old.refusals (refusals_in reading.old.types setting.now start.now ++ (refusals_in reading.old.types setting.now end.now ++ refused_there Mapping mapping))) }
{
    let from = setting.reached(alloc, reading, start)?;
    let to = setting.reached(alloc, reading, end)?;
    reading.refusals.note_at(Code::Mapping, mapping);
    Ok(path_meaning(from, to))
}

fn path_meaning(from: Option<ReachedPoint>, to: Option<ReachedPoint>) -> Option<FlowMeaning>
    ensures { result ≡ option_and_then (λ start. option_map (λ end. path_meaning start end.point end.types) to) from }
{
    let from = from?;
    let ReachedPoint { point, types } = to?;
    match types {
        Reach::Whole => Some(FlowMeaning::Carry(from, point)),
        Reach::Only(types) => Some(FlowMeaning::Change(from, point, types)),
    }
}
