ghost use Rattle.std.specs.Prelude.{◌≡◌, IfOk};
ghost use Rattle.model_facts.specs.Facts.{event_in, event_number, inward_of, outward_of};
ghost use Rattle.model_facts.specs.declared.keys.EventKind.TheVariants.{Arrival};
ghost use Rattle.fact_formulas.specs.Facts.{enter_formula, exit_formula, flow_or_link, is_empty, kind_formula, meaning_of, state_formula};

use crate::causes::{conditions, steps};
use crate::exits::{emissions, flows};
use crate::numbers::Numbers;
use crate::site::Site;
use fault_system::Formula;
use model_facts::{EventKey, EventKind, FactKey, FactKind};
use plain_values::{List, Mem};
use propagation_links::PointAt;
use std::alloc::Global;

/// When a fact holds.
pub(crate) fn meaning_of(alloc: Global, numbers: &Numbers, fact: FactKey) -> Mem<Formula>
    ensures { IfOk result (λ formula. formula ≡ meaning_of numbers.now fact) }
{
    let site = numbers.site(fact.owner);
    kind_formula(alloc, &site, fact.kind)
}

/// When a fact of a component holds.
fn kind_formula(alloc: Global, site: &Site, kind: FactKind) -> Mem<Formula>
    ensures { IfOk result (λ formula. formula ≡ kind_formula site.now kind) }
{
    match kind {
        FactKind::State(state) => state_formula(alloc, site, state),
        FactKind::Enters(point, number) => enter_formula(alloc, site, point, number),
        FactKind::Exits(point, number) => exit_formula(alloc, site, point, number),
    }
}

/// When a component is in a state: always in an initial one; else, if it has clauses of composite states, where one of them
/// says so; and else where a transition leads there.
fn state_formula(alloc: Global, site: &Site, state: u32) -> Mem<Formula>
    ensures { IfOk result (λ formula. formula ≡ state_formula site.now state) }
{
    let kind = site.kind();
    if kind.is_initial(state) {
        return Ok(Formula::True);
    }
    if kind.model().is_composite {
        Ok(Formula::Or(conditions(alloc, site, kind.conditions_to(state))?))
    } else {
        Ok(Formula::Or(steps(alloc, site, kind.steps_to(state))?))
    }
}

/// When a type enters at a point: with its external event, if it has one, and else along links.
fn enter_formula(alloc: Global, site: &Site, point: u32, number: u32) -> Mem<Formula>
    ensures { IfOk result (λ formula. formula ≡ enter_formula site.now point number) }
{
    match arrival(site, point, number) {
        Some(event) => Ok(Formula::Event(event)),
        None => site
            .numbers()
            .linked(alloc, number, inward_of(site.owner(), point)),
    }
}

/// The number of the external event that a type arrives at a point, if it is one.
pub(crate) fn arrival(site: &Site, point: u32, number: u32) -> Option<u32>
    ensures { result ≡ event_number site.now.numbered.events (event_in site.now.owner (Arrival point number)) }
{
    site.numbers().event_number(EventKey {
        owner: site.owner(),
        kind: EventKind::Arrival(point, number),
    })
}

/// When a type exits at a point: by the outgoing conditions that cover it; where there are none, by the flows that cover it;
/// and where there are none either, along links.
fn exit_formula(alloc: Global, site: &Site, point: u32, number: u32) -> Mem<Formula>
    ensures { IfOk result (λ formula. formula ≡ exit_formula site.now point number) }
{
    let emitted = emissions(alloc, site, number, site.kind().emissions_at(point))?;
    if is_empty(&emitted) {
        return flow_or_link(alloc, site, point, number);
    }
    Ok(Formula::Or(emitted))
}

/// When a type exits at a point by no outgoing condition.
fn flow_or_link(alloc: Global, site: &Site, point: u32, number: u32) -> Mem<Formula>
    ensures { IfOk result (λ formula. formula ≡ flow_or_link site.now point number) }
{
    let flowing = flows(alloc, site, number, site.kind().flows_at(point))?;
    if is_empty(&flowing) {
        return site
            .numbers()
            .linked(alloc, number, outward_of(site.owner(), point));
    }
    Ok(Formula::Or(flowing))
}

fn is_empty(formulas: &List<Formula>) -> bool
    ensures { result ≡ is_empty formulas.now }
{
    match formulas.items() {
        [] => true,
        _ => false,
    }
}

/// The inward side of a point of a component.
pub(crate) fn inward_of(component: u32, point: u32) -> PointAt
    ensures { result ≡ inward_of component point }
{
    PointAt {
        component,
        point,
        outward: false,
    }
}

/// The outward side of a point of a component.
pub(crate) fn outward_of(component: u32, point: u32) -> PointAt
    ensures { result ≡ outward_of component point }
{
    PointAt {
        component,
        point,
        outward: true,
    }
}
