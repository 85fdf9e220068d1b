//! States of a component that give nothing at one of its outward sides, though they give something at another one.

ghost use Rattle.std.specs.Prelude.{◌≡◌, ◌++◌, IfOk, OnOk, filter, flat_map, map};
ghost use Rattle.plain_values.specs.Numbered.{numbered_from, numbers_below};
ghost use Rattle.model_facts.specs.Assembly.{model_at};
ghost use Rattle.uneven_parts.specs.Quiet.{declared_sides, given_by, given_in, gives, gives_some, is_declared, is_of_state, is_state, quiet_at, quiet_by, quiet_in, quiet_of, quiet_state, quiet_states, states_in};

use crate::gives::{Given, Gives};
use crate::places::facts_in;
use error_models::ErrorModel;
use fault_system::{FactInfo, FaultSystem, Formula};
use model_facts::{Assembly, FactKey, FactKind, FactTable};
use plain_values::{List, Mem};
use propagation_links::PointAt;
use propagation_points::{Point, Side};
use std::alloc::{AllocError, Global};

/// A state of a component, by the number of the fact, and an outward side of the component at which it gives nothing.
#[derive(Clone, Copy)]
pub struct QuietState {
    pub state: u32,
    pub side: PointAt,
}

/// The states of components without clauses of composite states that give nothing at an outward side with declared types, and something at
/// another one: for each component in order, its states, and for each state the sides.
pub fn quiet_states(
    alloc: Global,
    assembly: &Assembly,
    system: &FaultSystem,
    facts: &FactTable,
) -> Mem<List<QuietState>>
    ensures { IfOk result (λ states. states ≡ quiet_states assembly.now system.now facts.now) }
{
    let all = given(alloc, facts.list(), system.fact_infos())?;
    let gives = Gives::of(alloc, all.items())?;
    all_quiet(alloc, assembly, facts, &gives)
}

// ---- what states give

/// All that the states in the formulas of these facts give.
fn given(alloc: Global, keys: &[FactKey], facts: &[FactInfo]) -> Mem<List<Given>>
    ensures { IfOk result (λ given. given ≡ numbered_from (given_in keys.now) 0 facts.now) }
{
    let mut given = List::new(alloc);
    for (number, fact) in facts.iter().enumerate() {
        add_given(alloc, &mut given, keys, number, fact)?;
    }
    Ok(given)
}

/// Adds what those in the formula of the fact of a number give.
fn add_given(
    alloc: Global,
    given: &mut List<Given>,
    keys: &[FactKey],
    number: usize,
    fact: &FactInfo,
) -> Mem<()>
    ensures { OnOk result (given.new ≡ given.old ++ given_in keys.now number fact.now) }
{
    match keys.get(number) {
        Some(key) => add_given_by(alloc, given, keys, key.owner, key.kind, &fact.formula),
        None => Ok(()),
    }
}

/// Adds what those in the formula of a fact of a component give, if the fact is that something exits.
fn add_given_by(
    alloc: Global,
    given: &mut List<Given>,
    keys: &[FactKey],
    owner: u32,
    kind: FactKind,
    formula: &Formula,
) -> Mem<()>
    ensures { OnOk result (given.new ≡ given.old ++ given_by keys.now owner kind formula.now) }
{
    match kind {
        FactKind::Exits(point, _) => {
            let states = states_in(alloc, keys, formula)?;
            add_given_at(given, owner, point, states.items())
        }
        FactKind::State(_) | FactKind::Enters(_, _) => Ok(()),
    }
}

fn add_given_at(given: &mut List<Given>, owner: u32, point: u32, states: &[u32]) -> Mem<()>
    ensures { OnOk result (given.new ≡ given.old ++ map (λ state. (owner, point, state)) states.now) }
{
    for state in states {
        given.push((owner, point, *state))?;
    }
    Ok(())
}

/// The states in a formula, one for each place.
fn states_in(alloc: Global, keys: &[FactKey], formula: &Formula) -> Mem<List<u32>>
    ensures { IfOk result (λ states. states ≡ states_in keys.now formula.now) }
{
    let places = facts_in(alloc, formula)?;
    states_among(alloc, keys, places.items())
}

fn states_among(alloc: Global, keys: &[FactKey], places: &[u32]) -> Mem<List<u32>>
    ensures { IfOk result (λ states. states ≡ filter (is_state keys.now) places.now) }
{
    let mut states = List::new(alloc);
    for number in places {
        states.push_if(*number, is_state(keys, *number))?;
    }
    Ok(states)
}

/// Whether the fact of a number is that a component is in a state.
fn is_state(keys: &[FactKey], number: u32) -> bool
    ensures { result ≡ is_state keys.now number }
{
    match keys.get(number as usize) {
        Some(key) => is_of_state(key.kind),
        None => false,
    }
}

fn is_of_state(kind: FactKind) -> bool
    ensures { result ≡ is_of_state kind }
{
    match kind {
        FactKind::State(_) => true,
        FactKind::Enters(_, _) | FactKind::Exits(_, _) => false,
    }
}

// ---- what is quiet

/// Those of all components.
fn all_quiet(
    alloc: Global,
    assembly: &Assembly,
    facts: &FactTable,
    all: &Gives,
) -> Mem<List<QuietState>>
    ensures { IfOk result (λ found. found ≡ numbered_from (quiet_in all.now assembly.now facts.now) 0 assembly.now.instance.components) }
{
    let mut found = List::new(alloc);
    for owner in 0..assembly.instance().components().len() {
        add_component(alloc, &mut found, assembly, facts, all, owner as u32)?;
    }
    Ok(found)
}

/// Adds those of the component of a number.
fn add_component(
    alloc: Global,
    found: &mut List<QuietState>,
    assembly: &Assembly,
    facts: &FactTable,
    all: &Gives,
    owner: u32,
) -> Mem<()>
    ensures { OnOk result (found.new ≡ found.old ++ quiet_of all.now facts.now owner (model_at assembly.now owner)) }
{
    match assembly.model(owner) {
        Some(model) => add_model(alloc, found, facts, all, owner, model),
        None => Ok(()),
    }
}

fn add_model(
    alloc: Global,
    found: &mut List<QuietState>,
    facts: &FactTable,
    all: &Gives,
    owner: u32,
    model: &ErrorModel,
) -> Mem<()>
    ensures { OnOk result (found.new ≡ found.old ++ quiet_of all.now facts.now owner model.now) }
{
    if model.is_composite {
        return Ok(());
    }
    let sides = declared_sides(alloc, model.points.list())?;
    let count = model.states.sorts.variants().len();
    add_states(found, facts, all, sides.items(), owner, count)
}

/// The points for whose outward sides types are declared.
fn declared_sides(alloc: Global, points: &[Point]) -> Mem<List<u32>>
    ensures { IfOk result (λ sides. sides ≡ declared_sides points.now) }
{
    let mut sides = List::new(alloc);
    for (number, point) in points.iter().enumerate() {
        if number > 4_294_967_295 {
            return Err(AllocError);
        }
        sides.push_if(number as u32, is_declared(point.side(true)))?;
    }
    Ok(sides)
}

/// Whether types are declared for a side.
fn is_declared(side: &Side) -> bool
    ensures { result ≡ is_declared side.now }
{
    match side {
        Side::Absent | Side::Free => false,
        Side::Declared(types) => !types.items().is_empty(),
    }
}

/// Adds those of the states of a component, of which there are so many.
fn add_states(
    found: &mut List<QuietState>,
    facts: &FactTable,
    all: &Gives,
    sides: &[u32],
    owner: u32,
    count: usize,
) -> Mem<()>
    ensures { OnOk result (found.new ≡ found.old ++ flat_map (quiet_state all.now facts.now sides.now owner) (numbers_below count)) }
{
    for place in 0..count {
        if place > 4_294_967_295 {
            return Err(AllocError);
        }
        add_state(found, facts, all, sides, owner, place as u32)?;
    }
    Ok(())
}

/// Adds those of the state of a component that has this place among its states.
fn add_state(
    found: &mut List<QuietState>,
    facts: &FactTable,
    all: &Gives,
    sides: &[u32],
    owner: u32,
    place: u32,
) -> Mem<()>
    ensures { OnOk result (found.new ≡ found.old ++ quiet_state all.now facts.now sides.now owner place) }
{
    let kind = FactKind::State(place);
    match facts.number(FactKey { owner, kind }) {
        Some(state) => add_by(found, all, sides, owner, state),
        None => Ok(()),
    }
}

/// Adds those of a state, if it gives something at some point.
fn add_by(
    found: &mut List<QuietState>,
    all: &Gives,
    sides: &[u32],
    owner: u32,
    state: u32,
) -> Mem<()>
    ensures { OnOk result (found.new ≡ found.old ++ quiet_by all.now sides.now owner state) }
{
    if !all.has_some(owner, state) {
        return Ok(());
    }
    add_at(found, all, sides, owner, state)
}

fn add_at(
    found: &mut List<QuietState>,
    all: &Gives,
    sides: &[u32],
    owner: u32,
    state: u32,
) -> Mem<()>
    ensures { OnOk result (found.new ≡ found.old ++ flat_map (quiet_at all.now owner state) sides.now) }
{
    for point in sides {
        let side = PointAt {
            component: owner,
            point: *point,
            outward: true,
        };
        let one = QuietState { state, side };
        found.push_if(one, !all.has(owner, *point, state))?;
    }
    Ok(())
}
