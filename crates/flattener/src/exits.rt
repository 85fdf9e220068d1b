ghost use Rattle.std.specs.Prelude.{◌≡◌, ◌++◌, ◌∷◌, [], IfOk, OnOk, map};
ghost use Rattle.fact_formulas.specs.Formulas.{all_flow_formulas, covers_type, emission_formula, emission_formulas, flow_formula, flow_formulas};
ghost use Rattle.flattener.specs.inner.Tables.{flow_seen};

use crate::causes::cause_formula;
use crate::site::{Site, has_number};
use error_behavior::Emission;
use error_flows::FlowMeaning;
use fault_system::Formula;
use model_facts::EventKind;
use plain_values::{List, Mem};
use std::alloc::Global;

/// The formulas of the outgoing conditions that cover a type, of these.
pub(crate) fn emissions(
    alloc: Global,
    site: &Site,
    number: u32,
    emissions: &[&Emission],
) -> Mem<List<Formula>>
    ensures { IfOk result (λ formulas. formulas ≡ emission_formulas site.now number (map (λ emission. emission.now) emissions.now)) }
{
    let mut formulas = List::new(alloc);
    for emission in emissions {
        add_emission(alloc, &mut formulas, site, number, emission)?;
    }
    Ok(formulas)
}

/// Adds the formula of an outgoing condition, if it covers a type.
fn add_emission(
    alloc: Global,
    formulas: &mut List<Formula>,
    site: &Site,
    number: u32,
    emission: &Emission,
) -> Mem<()>
    ensures { OnOk result (formulas.new ≡ formulas.old ++ emission_formulas site.now number (emission.now ∷ [])) }
{
    if emission.reached.types.covers(number) {
        formulas.push(emission_formula(alloc, site, emission)?)?;
    }
    Ok(())
}

/// An outgoing condition as a formula: its source, and its trigger if it has one.
fn emission_formula(alloc: Global, site: &Site, emission: &Emission) -> Mem<Formula>
    ensures { IfOk result (λ formula. formula ≡ emission_formula site.now emission.now) }
{
    let mut parts = List::new(alloc);
    parts.push(site.origin(alloc, &emission.origin)?)?;
    if let Some(trigger) = &emission.trigger {
        parts.push(cause_formula(alloc, site, trigger)?)?;
    }
    Ok(Formula::And(parts))
}

/// The formulas of the flows that cover a type, of these.
pub(crate) fn flows(
    alloc: Global,
    site: &Site,
    number: u32,
    flows: &[(u32, &FlowMeaning)],
) -> Mem<List<Formula>>
    ensures { IfOk result (λ formulas. formulas ≡ all_flow_formulas site.now number (map flow_seen flows.now)) }
{
    let mut formulas = List::new(alloc);
    for (place, flow) in flows {
        add_flow(alloc, &mut formulas, site, number, *place, flow)?;
    }
    Ok(formulas)
}

/// Adds the formula of the flow of this place, if it covers a type.
fn add_flow(
    alloc: Global,
    formulas: &mut List<Formula>,
    site: &Site,
    number: u32,
    place: u32,
    flow: &FlowMeaning,
) -> Mem<()>
    ensures { OnOk result (formulas.new ≡ formulas.old ++ flow_formulas site.now number place flow.now) }
{
    if covers(site, number, flow) {
        formulas.push(flow_formula(alloc, site, number, place, flow)?)?;
    }
    Ok(())
}

/// Whether a flow covers a type that comes out of its point.
pub(crate) fn covers(site: &Site, number: u32, flow: &FlowMeaning) -> bool
    ensures { result ≡ covers_type site.now number flow.now }
{
    match flow {
        FlowMeaning::Event(_, reached) => reached.types.covers(number),
        FlowMeaning::State(_, reached) => reached.types.covers(number),
        FlowMeaning::Carry(start, _) => site.is_reached(start, number),
        FlowMeaning::Change(_, _, types) => has_number(types.items(), number),
    }
}

/// What a flow of this place says of a type that it covers.
fn flow_formula(
    alloc: Global,
    site: &Site,
    number: u32,
    place: u32,
    flow: &FlowMeaning,
) -> Mem<Formula>
    ensures { IfOk result (λ formula. formula ≡ flow_formula site.now number place flow.now) }
{
    match flow {
        FlowMeaning::Event(_, _) => Ok(site.event(alloc, EventKind::Source(place))),
        FlowMeaning::State(held, _) => site.held(alloc, held),
        FlowMeaning::Carry(start, _) => Ok(site.entering(alloc, start.point, number)),
        FlowMeaning::Change(start, _, _) => site.some_entering(alloc, start),
    }
}
