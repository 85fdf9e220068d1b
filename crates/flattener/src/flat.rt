ghost use Rattle.std.specs.Prelude.{◌≡◌, None, Some, IfOk, MatchResult, map};
ghost use Rattle.plain_values.specs.inner.Stops.{StopsAt};
ghost use Rattle.fact_formulas.specs.Flat.{event_info, fact_info, places_refusal, system_by};
ghost use Rattle.flattener.specs.inner.Flat.{Flattened};

use crate::counts::all_places;
use crate::facts::meaning_of;
use crate::kinds::{Kinds, no_model};
use crate::numbers::Numbers;
use fault_system::{EventInfo, FactInfo, FaultSystem, is_system};
use model_facts::{
    Assembly, EventKey, EventTable, FactKey, FactTable, event_key, event_name, fact_name,
};
use plain_values::{Answer, Code, List, Mem, Place, Refusal};
use std::alloc::{AllocError, Global};

/// The system of a model with this universe, and these facts and events: its facts with their formulas, and its events.
///
/// M9 where the formulas have more than 4,194,304 places.
pub fn flatten(
    alloc: Global,
    assembly: &Assembly,
    universe: &[u32],
    facts: &FactTable,
    events: &EventTable,
) -> Answer<FaultSystem>
    ensures { MatchResult result (Flattened (record { assembly = assembly.now; universe = universe.now; facts = facts.now; events = events.now })) (StopsAt (places_refusal (record { assembly = assembly.now; universe = universe.now; facts = facts.now; events = events.now }))) }
{
    let nothing = no_model(alloc);
    let kinds = Kinds::of(alloc, assembly.models(), &nothing)?;
    let numbers = Numbers::new(alloc, assembly, universe, facts, events, &kinds)?;
    within_limit(&numbers)?;
    Ok(system_by(alloc, &numbers)?)
}

/// Refuses a model whose formulas have too many places.
fn within_limit(numbers: &Numbers) -> Result<(), Refusal>
    ensures { MatchResult result (λ _. places_refusal numbers.now ≡ None) (λ refusal. places_refusal numbers.now ≡ Some refusal) }
{
    Refusal::over_limit(
        all_places(numbers) > 4_194_304,
        Code::TooManyPlaces,
        Place::Words,
    )
}

fn system_by(alloc: Global, numbers: &Numbers) -> Mem<FaultSystem>
    ensures { IfOk result (λ system. system ≡ system_by numbers.now) }
{
    let facts = fact_infos(alloc, numbers)?;
    let events = event_infos(alloc, numbers)?;
    made(alloc, facts, events)
}

/// The system of facts and events; want of memory is answered where they are none.
fn made(alloc: Global, facts: List<FactInfo>, events: List<EventInfo>) -> Mem<FaultSystem>
    ensures { IfOk result (λ system. system ≡ record { facts = facts; events = events }) }
{
    if !is_system(alloc, facts.items(), events.items())? {
        return Err(AllocError);
    }
    Ok(FaultSystem::new(facts, events))
}

fn fact_infos(alloc: Global, numbers: &Numbers) -> Mem<List<FactInfo>>
    ensures { IfOk result (λ infos. infos ≡ map (fact_info numbers.now) numbers.now.facts) }
{
    let mut infos = List::new(alloc);
    for fact in numbers.facts() {
        infos.push(fact_info(alloc, numbers, *fact)?)?;
    }
    Ok(infos)
}

/// A fact with its name and what makes it hold.
fn fact_info(alloc: Global, numbers: &Numbers, fact: FactKey) -> Mem<FactInfo>
    ensures { IfOk result (λ info. info ≡ fact_info numbers.now fact) }
{
    Ok(FactInfo {
        name: fact_name(alloc, numbers.assembly(), fact)?,
        owner: fact.owner,
        formula: meaning_of(alloc, numbers, fact)?,
    })
}

fn event_infos(alloc: Global, numbers: &Numbers) -> Mem<List<EventInfo>>
    ensures { IfOk result (λ infos. infos ≡ map (event_info numbers.now.assembly) numbers.now.events) }
{
    let mut infos = List::new(alloc);
    for event in numbers.events() {
        infos.push(event_info(alloc, numbers.assembly(), *event)?)?;
    }
    Ok(infos)
}

/// An event with its name, and by what its rates are found.
fn event_info(alloc: Global, assembly: &Assembly, event: EventKey) -> Mem<EventInfo>
    ensures { IfOk result (λ info. info ≡ event_info assembly.now event) }
{
    Ok(EventInfo {
        name: event_name(alloc, assembly, event)?,
        owner: event.owner,
        key: event_key(alloc, assembly, event)?,
    })
}
