//! Sides at which errors stop, from which they lead nowhere, or where they never or always come out.

ghost use Rattle.std.specs.Prelude.{◌≡◌, ◌&&◌, ◌++◌, IfOk, OnOk, filter, nat_eq, not};
ghost use Rattle.std.specs.List.{list_any};
ghost use Rattle.error_libraries.specs.Search.{is_number_in};
ghost use Rattle.propagation_points.specs.Uses.{covers};
ghost use Rattle.model_facts.specs.Assembly.{model_at};
ghost use Rattle.model_facts.specs.Facts.{inward_of, outward_of};
ghost use Rattle.model_review.specs.Findings.{always_types, always_with, has_sink, if_any, is_left, is_sink_at, is_stopped, lost_types, nowhere_with, sink_takes, takes, types_at, types_where};
ghost use Rattle.model_review.specs.Seen.{may_come, number_at};
ghost use Rattle.model_review.specs.declared.finding.Finding.TheVariants.{Never, SinkLeaves, StopsHere};

use crate::finding::{Finding, TypesAt, tell_unless};
use crate::flows::{has_number, inward_of, outward_of};
use crate::view::{View, declared_for};
use crate::walks::{PointFinding, PointPlace};
use aadl_syntax::{Flow, FlowKind};
use component_extension::InClause;
use error_flows::FlowMeaning;
use plain_values::{List, Mem, is_same};
use propagation_links::PointAt;
use propagation_points::{Point, ReachedPoint, only_name};
use std::alloc::Global;

/// The types that stop at a point without a sink, if there are any.
#[derive(Clone, Copy)]
pub(crate) struct Stops;

impl PointFinding for Stops {
    ghost use Rattle.model_review.specs.Findings.{stop_at};

    ghost finding = { λ _. stop_at };

    fn tell(
        &self,
        alloc: Global,
        found: &mut List<Finding>,
        view: &View,
        at: PointPlace,
        point: &Point,
    ) -> Mem<()> {
        if has_sink(view, at.owner, point) {
            return Ok(());
        }
        add_stopping(alloc, found, view, at.owner, at.number)
    }
}

/// Adds the types that stop at a point.
fn add_stopping(
    alloc: Global,
    found: &mut List<Finding>,
    view: &View,
    owner: u32,
    number: u32,
) -> Mem<()>
    ensures { OnOk result (found.new ≡ found.old ++ if_any (λ types. StopsHere (types_at (inward_of owner number) types)) (types_where view.now (inward_of owner number) (is_stopped view.now owner number))) }
{
    let types = stopping(alloc, view, owner, number)?;
    let side = inward_of(owner, number);
    let at = TypesAt { side, types };
    tell_unless(found, at.is_empty(), Finding::StopsHere(at))
}

/// The types that stop at a point.
fn stopping(alloc: Global, view: &View, owner: u32, number: u32) -> Mem<List<u32>>
    ensures { IfOk result (λ types. types ≡ types_where view.now (inward_of owner number) (is_stopped view.now owner number)) }
{
    let mut types = List::new(alloc);
    for kind in view.types(inward_of(owner, number)) {
        types.push_if(*kind, is_stopped(view, owner, number, *kind))?;
    }
    Ok(types)
}

/// Whether a type may come in at a point, occurs in no formula, and is taken by no path.
fn is_stopped(view: &View, owner: u32, number: u32, kind: u32) -> bool
    ensures { result ≡ is_stopped view.now owner number kind }
{
    view.stops(view.fact_at(inward_of(owner, number), kind))
        && !is_taken_in(view, owner, number, kind)
}

fn is_taken_in(view: &View, owner: u32, number: u32, kind: u32) -> bool
    ensures { result ≡ list_any (takes view.now owner number kind) (model_at view.now.numbered.assembly owner).flows }
{
    match view.model(owner) {
        Some(model) => is_taken(view, owner, number, kind, model.flows.items()),
        None => false,
    }
}

fn is_taken(view: &View, owner: u32, number: u32, kind: u32, flows: &[FlowMeaning]) -> bool
    ensures { result ≡ list_any (takes view.now owner number kind) flows.now }
{
    for flow in flows {
        if takes(view, owner, number, kind, flow) {
            return true;
        }
    }
    false
}

/// Whether a path takes a type that comes in at a point to a type of the side at its end.
fn takes(view: &View, owner: u32, number: u32, kind: u32, flow: &FlowMeaning) -> bool
    ensures { result ≡ takes view.now owner number kind flow.now }
{
    match flow {
        FlowMeaning::Event(_, _) | FlowMeaning::State(_, _) => false,
        FlowMeaning::Carry(start, end) => {
            begins(start, number, kind) && has_number(view.types(outward_of(owner, *end)), kind)
        }
        FlowMeaning::Change(start, end, types) => {
            begins(start, number, kind)
                && has_some(types.items(), view.types(outward_of(owner, *end)))
        }
    }
}

/// Whether a path begins at a point and takes a type.
fn begins(start: &ReachedPoint, number: u32, kind: u32) -> bool
    ensures { result ≡ (nat_eq start.now.point number && covers start.now.types kind) }
{
    start.point == number && start.types.covers(kind)
}

/// Whether one of these is one of some types.
fn has_some(types: &[u32], numbers: &[u32]) -> bool
    ensures { result ≡ list_any (is_number_in types.now) numbers.now }
{
    for number in numbers {
        if has_number(types, *number) {
            return true;
        }
    }
    false
}

/// Whether a sink of a component names a point.
fn has_sink(view: &View, owner: u32, point: &Point) -> bool
    ensures { result ≡ has_sink view.now owner point.now }
{
    match view.instance().effective(owner) {
        Some(effective) => is_named(effective.propagations.flows.items(), point.name().text()),
        None => false,
    }
}

fn is_named(flows: &[InClause<Flow>], name: &[u8]) -> bool
    ensures { result ≡ list_any (λ flow. is_sink_at name.now flow.item.kind) flows.now }
{
    for flow in flows {
        if is_sink_at(&flow.item().kind, name) {
            return true;
        }
    }
    false
}

/// Whether a flow is a sink that names the point of a name.
fn is_sink_at(kind: &FlowKind, name: &[u8]) -> bool
    ensures { result ≡ is_sink_at name.now kind.now }
{
    match kind {
        FlowKind::Sink(point, _) => match only_name(point.names.items()) {
            Some(other) => is_same(other.text(), name),
            None => false,
        },
        FlowKind::Source(_, _, _) | FlowKind::Path(_, _, _, _, _) => false,
    }
}

// ---- what the sinks of a point leave

/// The types that stop at a point with a sink, and that no sink takes there, if there are any.
#[derive(Clone, Copy)]
pub(crate) struct Leaves;

impl PointFinding for Leaves {
    ghost use Rattle.model_review.specs.Findings.{leave_at};

    ghost finding = { λ _. leave_at };

    fn tell(
        &self,
        alloc: Global,
        found: &mut List<Finding>,
        view: &View,
        at: PointPlace,
        point: &Point,
    ) -> Mem<()> {
        if !has_sink(view, at.owner, point) {
            return Ok(());
        }
        add_left(alloc, found, view, at.owner, at.number)
    }
}

/// Adds the types that stop at a point, and that no sink takes there.
fn add_left(
    alloc: Global,
    found: &mut List<Finding>,
    view: &View,
    owner: u32,
    number: u32,
) -> Mem<()>
    ensures { OnOk result (found.new ≡ found.old ++ if_any (λ types. SinkLeaves (types_at (inward_of owner number) types)) (types_where view.now (inward_of owner number) (is_left view.now owner number))) }
{
    let types = left_types(alloc, view, owner, number)?;
    let side = inward_of(owner, number);
    let at = TypesAt { side, types };
    tell_unless(found, at.is_empty(), Finding::SinkLeaves(at))
}

/// The types that stop at a point, and that no sink takes there.
fn left_types(alloc: Global, view: &View, owner: u32, number: u32) -> Mem<List<u32>>
    ensures { IfOk result (λ types. types ≡ types_where view.now (inward_of owner number) (is_left view.now owner number)) }
{
    let mut types = List::new(alloc);
    for kind in view.types(inward_of(owner, number)) {
        types.push_if(*kind, is_left(view, owner, number, *kind))?;
    }
    Ok(types)
}

/// Whether a type stops at a point, and no sink takes it there.
fn is_left(view: &View, owner: u32, number: u32, kind: u32) -> bool
    ensures { result ≡ is_left view.now owner number kind }
{
    is_stopped(view, owner, number, kind) && !has_taking(view, owner, number, kind)
}

/// Whether a sink of a component takes a type that comes in at a point.
fn has_taking(view: &View, owner: u32, number: u32, kind: u32) -> bool
    ensures { result ≡ list_any (sink_takes number kind) (model_at view.now.numbered.assembly owner).sinks }
{
    match view.model(owner) {
        Some(model) => is_sunk(number, kind, model.sinks.items()),
        None => false,
    }
}

/// Whether one of these sinks takes a type that comes in at a point.
fn is_sunk(number: u32, kind: u32, sinks: &[ReachedPoint]) -> bool
    ensures { result ≡ list_any (sink_takes number kind) sinks.now }
{
    for sink in sinks {
        if begins(sink, number, kind) {
            return true;
        }
    }
    false
}

// ---- what leads nowhere

/// The types that may come out of a part at a point, and occur in no formula, if there are any.
#[derive(Clone, Copy)]
pub(crate) struct NowhereOut;

impl PointFinding for NowhereOut {
    ghost use Rattle.model_review.specs.Findings.{nowhere_at};

    ghost finding = { λ _. nowhere_at };

    fn tell(
        &self,
        alloc: Global,
        found: &mut List<Finding>,
        view: &View,
        at: PointPlace,
        point: &Point,
    ) -> Mem<()> {
        let _ = point;
        if at.owner == 0 {
            return Ok(());
        }
        add_lost(alloc, found, view, outward_of(at.owner, at.number))
    }
}

/// Adds the types that may come out of a side, and occur in no formula, if there are any.
fn add_lost(alloc: Global, found: &mut List<Finding>, view: &View, side: PointAt) -> Mem<()>
    ensures { OnOk result (found.new ≡ found.old ++ nowhere_with view.now side) }
{
    let types = lost_types(alloc, view, side)?;
    let at = TypesAt { side, types };
    tell_unless(found, at.is_empty(), Finding::GoesNowhere(at))
}

/// The types that may come out of a side, and occur in no formula.
fn lost_types(alloc: Global, view: &View, side: PointAt) -> Mem<List<u32>>
    ensures { IfOk result (λ types. types ≡ lost_types view.now side) }
{
    let mut types = List::new(alloc);
    for kind in view.types(side) {
        types.push_if(*kind, view.stops(view.fact_at(side, *kind)))?;
    }
    Ok(types)
}

// ---- what always comes out

/// The types that come out at a point where no event occurs, if there are any.
#[derive(Clone, Copy)]
pub(crate) struct AlwaysOut;

impl PointFinding for AlwaysOut {
    ghost use Rattle.model_review.specs.Findings.{always_at};

    ghost finding = { λ _. always_at };

    fn tell(
        &self,
        alloc: Global,
        found: &mut List<Finding>,
        view: &View,
        at: PointPlace,
        point: &Point,
    ) -> Mem<()> {
        let _ = point;
        add_always_types(alloc, found, view, outward_of(at.owner, at.number))
    }
}

/// Adds the types that come out of a side where no event occurs, if there are any.
fn add_always_types(alloc: Global, found: &mut List<Finding>, view: &View, side: PointAt) -> Mem<()>
    ensures { OnOk result (found.new ≡ found.old ++ always_with view.now side) }
{
    let types = always_types(alloc, view, side)?;
    let at = TypesAt { side, types };
    tell_unless(found, at.is_empty(), Finding::Always(at))
}

/// The types that come out of a side where no event occurs.
fn always_types(alloc: Global, view: &View, side: PointAt) -> Mem<List<u32>>
    ensures { IfOk result (λ types. types ≡ always_types view.now side) }
{
    let mut types = List::new(alloc);
    for kind in view.types(side) {
        types.push_if(*kind, view.is_always(view.fact_at(side, *kind)))?;
    }
    Ok(types)
}

// ---- what never comes out

/// The types that are declared for the outward side of a point, and never come out, if there are any.
#[derive(Clone, Copy)]
pub(crate) struct NeverOut;

impl PointFinding for NeverOut {
    ghost use Rattle.model_review.specs.Findings.{never_at};

    ghost finding = { λ _. never_at };

    fn tell(
        &self,
        alloc: Global,
        found: &mut List<Finding>,
        view: &View,
        at: PointPlace,
        point: &Point,
    ) -> Mem<()> {
        match declared_for(point.side(true)) {
            Some(types) => add_never_types(
                alloc,
                found,
                view,
                outward_of(at.owner, at.number),
                types,
            ),
            None => Ok(()),
        }
    }
}

fn add_never_types(
    alloc: Global,
    found: &mut List<Finding>,
    view: &View,
    side: PointAt,
    declared: &[u32],
) -> Mem<()>
    ensures { OnOk result (found.new ≡ found.old ++ if_any (λ types. Never (types_at side types)) (filter (λ type. not (may_come view.now (number_at view.now side type))) declared.now)) }
{
    let mut types = List::new(alloc);
    for kind in declared {
        types.push_if(*kind, !view.may_come(view.fact_at(side, *kind)))?;
    }
    let at = TypesAt { side, types };
    tell_unless(found, at.is_empty(), Finding::Never(at))
}
