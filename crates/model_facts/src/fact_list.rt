ghost use Rattle.std.specs.Prelude.{◌≡◌, ◌≤◌, ◌∷◌, [], length, map, MatchResult};
ghost use Rattle.plain_values.specs.declared.refusal.Code.TheVariants.{TooManyFacts};
ghost use Rattle.plain_values.specs.Numbered.{numbers_below, numbered_from};
ghost use Rattle.propagation_points.specs.Uses.{side_types};
ghost use Rattle.model_facts.specs.Assembly.{model_at};
ghost use Rattle.model_facts.specs.Facts.{fact_in, facts_of, model_facts, point_facts};
ghost use Rattle.model_facts.specs.Limits.{most_facts};
ghost use Rattle.model_facts.specs.inner.Steps.{AddsFacts, Exceeds, at_side};
ghost use Rattle.model_facts.specs.declared.keys.FactKind.TheVariants.{State};

use crate::assembly::Assembly;
use crate::keys::{FactKey, FactKind};
use crate::lists::push_within;
use crate::sides::side_numbers;
use error_models::ErrorModel;
use plain_values::{Answer, Code, List, Stop};
use propagation_points::{Point, Side};
use std::alloc::Global;

/// The facts of all components, unless there are too many.
pub(crate) fn facts_of(
    alloc: Global,
    assembly: &Assembly,
    universe: &[u32],
) -> Answer<List<FactKey>>
    ensures { MatchResult result (λ facts. (facts ≡ facts_of assembly.now universe.now) × (length facts ≤ most_facts)) (Exceeds most_facts TooManyFacts (facts_of assembly.now universe.now)) }
{
    let mut facts = List::new(alloc);
    for number in 0..assembly.instance().components().len() {
        add_component(&mut facts, assembly, universe, number as u32)?;
    }
    Ok(facts)
}

/// Adds the facts of the component of a number.
fn add_component(
    facts: &mut List<FactKey>,
    assembly: &Assembly,
    universe: &[u32],
    number: u32,
) -> Answer<()>
    ensures { AddsFacts facts.old facts.new (map (fact_in number) (model_facts universe.now (model_at assembly.now number))) result }
{
    match assembly.model(number) {
        Some(model) => add_model(facts, number, universe, model),
        None => Ok(()),
    }
}

fn add_model(
    facts: &mut List<FactKey>,
    owner: u32,
    universe: &[u32],
    model: &ErrorModel,
) -> Answer<()>
    ensures { AddsFacts facts.old facts.new (map (fact_in owner) (model_facts universe.now model.now)) result }
{
    add_states(facts, owner, model.states.sorts.variants().len())?;
    add_points(facts, owner, universe, model.points.list())
}

fn add_states(facts: &mut List<FactKey>, owner: u32, count: usize) -> Answer<()>
    ensures { AddsFacts facts.old facts.new (map (λ state. fact_in owner (State state)) (numbers_below count)) result }
{
    for state in 0..count {
        add_state(facts, owner, state)?;
    }
    Ok(())
}

fn add_state(facts: &mut List<FactKey>, owner: u32, state: usize) -> Answer<()>
    ensures { AddsFacts facts.old facts.new (fact_in owner (State state) ∷ []) result }
{
    if state > 4_294_967_295 {
        return Err(Stop::Memory);
    }
    push_fact(facts, owner, FactKind::State(state as u32))
}

fn add_points(
    facts: &mut List<FactKey>,
    owner: u32,
    universe: &[u32],
    points: &[Point],
) -> Answer<()>
    ensures { AddsFacts facts.old facts.new (numbered_from (λ number point. map (fact_in owner) (point_facts universe.now number point)) 0 points.now) result }
{
    for (number, point) in points.iter().enumerate() {
        add_point(facts, owner, universe, number, point)?;
    }
    Ok(())
}

fn add_point(
    facts: &mut List<FactKey>,
    owner: u32,
    universe: &[u32],
    number: usize,
    point: &Point,
) -> Answer<()>
    ensures { AddsFacts facts.old facts.new (map (fact_in owner) (point_facts universe.now number point.now)) result }
{
    if number > 4_294_967_295 {
        return Err(Stop::Memory);
    }
    let place = number as u32;
    let inward = types_of(universe, point.side(false));
    add_types(facts, owner, place, false, inward)?;
    let outward = types_of(universe, point.side(true));
    add_types(facts, owner, place, true, outward)
}

/// The types that may be at a side.
fn types_of<'s>(universe: &'s [u32], side: &'s Side) -> &'s [u32]
    ensures { result.now ≡ side_types universe.now side.now }
{
    match side {
        Side::Free => universe,
        Side::Absent | Side::Declared(_) => side_numbers(side),
    }
}

/// Adds that these types enter at a point, or that they exit there.
fn add_types(
    facts: &mut List<FactKey>,
    owner: u32,
    point: u32,
    outward: bool,
    types: &[u32],
) -> Answer<()>
    ensures { AddsFacts facts.old facts.new (map (λ number. fact_in owner (at_side outward point number)) types.now) result }
{
    for number in types {
        push_fact(facts, owner, at_side(outward, point, *number))?;
    }
    Ok(())
}

fn at_side(outward: bool, point: u32, number: u32) -> FactKind
    ensures { result ≡ at_side outward point number }
{
    if outward {
        FactKind::Exits(point, number)
    } else {
        FactKind::Enters(point, number)
    }
}

fn push_fact(facts: &mut List<FactKey>, owner: u32, kind: FactKind) -> Answer<()>
    ensures { AddsFacts facts.old facts.new (fact_in owner kind ∷ []) result }
{
    push_within(facts, FactKey { owner, kind }, 262_144, Code::TooManyFacts)
}
