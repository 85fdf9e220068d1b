//! Sources and paths without effect.

ghost use Rattle.std.specs.Prelude.{◌≡◌, ◌&&◌, ◌++◌, false, IfOk, OnOk};
ghost use Rattle.std.specs.List.{list_any};
ghost use Rattle.std.specs.Option.{option_map_or};
ghost use Rattle.plain_values.specs.Numbered.{numbered_from};
ghost use Rattle.error_libraries.specs.Search.{is_number_in};
ghost use Rattle.propagation_points.specs.States.{held_numbers};
ghost use Rattle.propagation_points.specs.Uses.{covers};
ghost use Rattle.model_facts.specs.Facts.{inward_of, outward_of};
ghost use Rattle.fact_formulas.specs.Formulas.{end_of};
ghost use Rattle.model_review.specs.Findings.{hidden_flow, hidden_path, hidden_source, hidden_types, is_hidden_flow, is_path};
ghost use Rattle.model_review.specs.Seen.{is_lost_fact, number_at, state_number, types_in};

use crate::finding::{Finding, TypesAt, tell_unless};
use crate::view::View;
use crate::walks::ComponentFinding;
use error_flows::FlowMeaning;
use error_models::ErrorModel;
use plain_values::{List, Mem};
use propagation_links::PointAt;
use propagation_points::{Held, ReachedPoint};
use std::alloc::{AllocError, Global};

/// A component that is looked at, with the facts of its states.
#[derive(Clone, Copy)]
struct Part<'p> {
    view: &'p View<'p>,
    owner: u32,
    states: &'p [u32],
}

/// The sources of a component that are hidden, or its paths.
#[derive(Clone, Copy)]
pub(crate) struct HiddenFlows {
    pub paths: bool,
}

impl ComponentFinding for HiddenFlows {
    ghost use Rattle.std.specs.Prelude.{refl};
    ghost use Rattle.model_review.specs.Findings.{hidden_flows};

    ghost finding = { λ told. hidden_flows told.paths };

    fn tell(
        &self,
        alloc: Global,
        found: &mut List<Finding>,
        view: &View,
        owner: u32,
        model: &ErrorModel,
    ) -> Mem<()> {
        let states = view.states(alloc, owner)?;
        let part = Part {
            view,
            owner,
            states: states.items(),
        };
        add_flows(alloc, found, &part, model.flows.items(), self.paths)
    }

    ghost nothing = { λ told seen owner. refl };
}

fn add_flows(
    alloc: Global,
    found: &mut List<Finding>,
    part: &Part<'_>,
    flows: &[FlowMeaning],
    paths: bool,
) -> Mem<()>
    ensures { OnOk result (found.new ≡ found.old ++ numbered_from (hidden_flow paths part.now.view.now part.now.states.now part.now.owner) 0 flows.now) }
{
    for (number, flow) in flows.iter().enumerate() {
        add_flow(alloc, found, part, number, flow, paths)?;
    }
    Ok(())
}

fn add_flow(
    alloc: Global,
    found: &mut List<Finding>,
    part: &Part<'_>,
    number: usize,
    flow: &FlowMeaning,
    paths: bool,
) -> Mem<()>
    ensures { OnOk result (found.new ≡ found.old ++ hidden_flow paths part.now.view.now part.now.states.now part.now.owner number flow.now) }
{
    if number > 4_294_967_295 {
        return Err(AllocError);
    }
    if paths {
        return add_path(alloc, found, part, number as u32, flow);
    }
    add_source(alloc, found, part, number as u32, flow)
}

fn add_source(
    alloc: Global,
    found: &mut List<Finding>,
    part: &Part<'_>,
    number: u32,
    flow: &FlowMeaning,
) -> Mem<()>
    ensures { OnOk result (found.new ≡ found.old ++ hidden_source part.now.view.now part.now.states.now part.now.owner number flow.now) }
{
    if is_path(flow) {
        return Ok(());
    }
    let side = outward_of(part.owner, end_of(flow));
    let types = hidden_types(alloc, part, number, flow)?;
    let at = TypesAt { side, types };
    let is_none = at.is_empty();
    tell_unless(
        found,
        is_none,
        Finding::HiddenSource(part.owner, number, at),
    )
}

fn add_path(
    alloc: Global,
    found: &mut List<Finding>,
    part: &Part<'_>,
    number: u32,
    flow: &FlowMeaning,
) -> Mem<()>
    ensures { OnOk result (found.new ≡ found.old ++ hidden_path part.now.view.now part.now.states.now part.now.owner number flow.now) }
{
    if !is_path(flow) {
        return Ok(());
    }
    let side = outward_of(part.owner, end_of(flow));
    let types = hidden_types(alloc, part, number, flow)?;
    let at = TypesAt { side, types };
    let is_none = at.is_empty();
    tell_unless(found, is_none, Finding::HiddenPath(part.owner, number, at))
}

/// The types that a flow covers without effect.
fn hidden_types(alloc: Global, part: &Part<'_>, number: u32, flow: &FlowMeaning) -> Mem<List<u32>>
    ensures { IfOk result (λ types. types ≡ hidden_types part.now.view.now part.now.states.now part.now.owner number flow.now) }
{
    let side = outward_of(part.owner, end_of(flow));
    let mut types = List::new(alloc);
    for kind in part.view.types(side) {
        let is_hidden = is_hidden_at(alloc, part, side, number, *kind, flow)?;
        types.push_if(*kind, is_hidden)?;
    }
    Ok(types)
}

fn is_hidden_at(
    alloc: Global,
    part: &Part<'_>,
    side: PointAt,
    number: u32,
    kind: u32,
    flow: &FlowMeaning,
) -> Mem<bool>
    ensures { IfOk result (λ hidden. hidden ≡ option_map_or (λ target. is_hidden_flow part.now.view.now part.now.states.now part.now.owner number kind target flow.now) (number_at part.now.view.now side kind) false) }
{
    match part.view.fact_at(side, kind) {
        Some(target) => is_hidden(alloc, part, number, kind, target, flow),
        None => Ok(false),
    }
}

/// Whether what a flow says of a type has no effect.
fn is_hidden(
    alloc: Global,
    part: &Part<'_>,
    number: u32,
    kind: u32,
    target: u32,
    flow: &FlowMeaning,
) -> Mem<bool>
    ensures { IfOk result (λ hidden. hidden ≡ is_hidden_flow part.now.view.now part.now.states.now part.now.owner number kind target flow.now) }
{
    match flow {
        FlowMeaning::Event(_, reached) => Ok(
            reached.types.covers(kind)
                && part
                    .view
                    .is_lost_event(target, part.view.source(part.owner, number)),
        ),
        FlowMeaning::State(held, reached) => {
            if !reached.types.covers(kind) {
                return Ok(false);
            }
            is_lost_state(alloc, part, target, held)
        }
        FlowMeaning::Carry(start, _) => {
            let side = inward_of(part.owner, start.point);
            is_lost_type(alloc, part, target, side, start, kind)
        }
        FlowMeaning::Change(start, _, types) => {
            if !has_number(types.items(), kind) {
                return Ok(false);
            }
            is_lost_start(alloc, part, target, start)
        }
    }
}

fn is_lost_state(alloc: Global, part: &Part<'_>, target: u32, held: &Held) -> Mem<bool>
    ensures { IfOk result (λ lost. lost ≡ list_any (λ state. is_lost_fact part.now.view.now part.now.states.now target (state_number part.now.view.now part.now.owner state)) (held_numbers held.now)) }
{
    match held {
        Held::One(state) => part.view.is_lost_fact(
            alloc,
            part.states,
            target,
            part.view.state(part.owner, *state),
        ),
        Held::Any(states) => is_lost_variant(alloc, part, target, states.items()),
    }
}

fn is_lost_variant(alloc: Global, part: &Part<'_>, target: u32, states: &[u32]) -> Mem<bool>
    ensures { IfOk result (λ lost. lost ≡ list_any (λ state. is_lost_fact part.now.view.now part.now.states.now target (state_number part.now.view.now part.now.owner state)) states.now) }
{
    for state in states {
        if part.view.is_lost_fact(
            alloc,
            part.states,
            target,
            part.view.state(part.owner, *state),
        )? {
            return Ok(true);
        }
    }
    Ok(false)
}

fn is_lost_start(alloc: Global, part: &Part<'_>, target: u32, start: &ReachedPoint) -> Mem<bool>
    ensures { IfOk result (λ lost. lost ≡ list_any (λ other. covers start.now.types other && is_lost_fact part.now.view.now part.now.states.now target (number_at part.now.view.now (inward_of part.now.owner start.now.point) other)) (types_in part.now.view.now (inward_of part.now.owner start.now.point))) }
{
    let side = inward_of(part.owner, start.point);
    for other in part.view.types(side) {
        if is_lost_type(alloc, part, target, side, start, *other)? {
            return Ok(true);
        }
    }
    Ok(false)
}

fn is_lost_type(
    alloc: Global,
    part: &Part<'_>,
    target: u32,
    side: PointAt,
    start: &ReachedPoint,
    other: u32,
) -> Mem<bool>
    ensures { IfOk result (λ lost. lost ≡ (covers start.now.types other && is_lost_fact part.now.view.now part.now.states.now target (number_at part.now.view.now side other))) }
{
    if !start.types.covers(other) {
        return Ok(false);
    }
    part.view
        .is_lost_fact(alloc, part.states, target, part.view.fact_at(side, other))
}

/// The inward side of a point.
pub(crate) fn inward_of(component: u32, point: u32) -> PointAt
    ensures { result ≡ inward_of component point }
{
    PointAt {
        component,
        point,
        outward: false,
    }
}

/// The outward side of a point.
pub(crate) fn outward_of(component: u32, point: u32) -> PointAt
    ensures { result ≡ outward_of component point }
{
    PointAt {
        component,
        point,
        outward: true,
    }
}

/// Whether a flow is a path.
fn is_path(flow: &FlowMeaning) -> bool
    ensures { result ≡ is_path flow.now }
{
    match flow {
        FlowMeaning::Event(_, _) | FlowMeaning::State(_, _) => false,
        FlowMeaning::Carry(_, _) | FlowMeaning::Change(_, _, _) => true,
    }
}

/// The point out of which a flow comes.
fn end_of(flow: &FlowMeaning) -> u32
    ensures { result ≡ end_of flow.now }
{
    match flow {
        FlowMeaning::Event(_, reached) => reached.point,
        FlowMeaning::State(_, reached) => reached.point,
        FlowMeaning::Carry(_, end) => *end,
        FlowMeaning::Change(_, end, _) => *end,
    }
}

/// Whether a number is one of these.
pub(crate) fn has_number(numbers: &[u32], number: u32) -> bool
    ensures { result ≡ is_number_in numbers.now number }
{
    numbers.iter().any(|other| *other == number)
}
