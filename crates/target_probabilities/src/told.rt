//! What is told of the probability of a target.

ghost use Rattle.std.specs.Prelude.{◌≡◌, ◌<◌, [], None, IfNone, IfOk, IfSome, length};
ghost use Rattle.std.specs.List.{AllByRecursion};
ghost use Rattle.backward_slice.specs.Slices.{IsSlice};
ghost use Rattle.cutset_engine.specs.inner.Families.{HasMinimalCutSets};
ghost use Rattle.probabilities.specs.inner.Decided.{FitWhole};
ghost use Rattle.zdd_store.specs.inner.Store.{IsIn, Keeps, family_of};
ghost use Rattle.target_probabilities.specs.Probability.{bounds_known, told_events};
ghost use Rattle.target_probabilities.specs.inner.Probable.{AreOfFamily, AreToldSo, IsOfFamily, IsOver};

use crate::known::bounds_in;
use backward_slice::Slice;
use cutset_engine::{Asked, family};
use dependency_blocks::blocks;
use event_probabilities::EventRate;
use fault_system::FaultSystem;
use plain_values::Mem;
use probabilities::{Bounds, Importance, Rate as EventBounds, event_importance, family_bounds};
use probability_lines::EventImportance;
use std::alloc::Global;
use zdd_store::{Id, Store};

/// How many cases are looked at.
const MOST_CASES: usize = 4_194_304;

/// What is told of a target: its bounds, and the importance of events; nothing where there are more cases than are looked at.
#[derive(Drop)]
pub(crate) struct Told {
    pub bounds: Option<Bounds>,
    pub importances: Vec<EventImportance>,
}

/// How many zeros the whole has: there is room for the places of all events.
pub fn zeros() -> u32
    ensures { result ≡ 4000000000 }
{
    4_000_000_000
}

/// What is told of the target of a slice, of whose events this is known.
pub(crate) fn told_known(
    alloc: Global,
    system: &FaultSystem,
    part: &Slice,
    known: &[EventRate],
    asked: bool,
    whole: u32,
) -> Mem<Told>
    requires slice { IsSlice system.now part.now.target part.now }
    requires rates { FitWhole whole (bounds_known known.now) }
    requires all { length (bounds_known known.now) ≡ length system.now.events }
    ensures { IfOk result (AreToldSo whole system.now part.now.target (bounds_known known.now) (told_events asked part.now.events)) }
{
    let list = bounds_in(alloc, known)?;
    let events = told_events(part.events.items(), asked);
    told_of(alloc, system, part, list.as_slice(), events, whole)
}

/// The events whose importance is told.
fn told_events(events: &[u32], asked: bool) -> &[u32]
    ensures { result.now ≡ told_events asked events.now }
{
    if asked { events } else { &[] }
}

/// What is told of the target of a slice, with the importance of these events.
fn told_of(
    alloc: Global,
    system: &FaultSystem,
    part: &Slice,
    rates: &[EventBounds],
    events: &[u32],
    whole: u32,
) -> Mem<Told>
    requires slice { IsSlice system.now part.now.target part.now }
    requires rates { FitWhole whole rates.now }
    requires all { length rates.now ≡ length system.now.events }
    requires inside { AllByRecursion (λ event. event < length rates.now) events.now }
    ensures { IfOk result (AreToldSo whole system.now part.now.target rates.now events.now) }
{
    let _count = system.events();
    let mut store = Store::new(alloc);
    let family = cut_family(alloc, system, part, &mut store)?;
    store.laws();
    let Some(bounds) = family_bounds(alloc, &mut store, rates, whole, MOST_CASES, family)? else {
        return Ok(too_many(alloc));
    };
    let Some(importances) = importances_of(alloc, &mut store, family, rates, events, whole)? else {
        return Ok(too_many(alloc));
    };
    Ok(Told {
        bounds: Some(bounds),
        importances,
    })
}

/// The minimal cut sets of the target of a slice.
fn cut_family(alloc: Global, system: &FaultSystem, part: &Slice, store: &mut Store) -> Mem<Id>
    requires { IsSlice system.now part.now.target part.now }
    ensures found { IfOk result (IsIn store.new) }
    ensures exact { IfOk result (λ id. HasMinimalCutSets system.now part.now.target None (family_of store.new id)) }
{
    let found = blocks(alloc, system, part)?;
    let asked = Asked {
        system,
        slice: part,
        blocks: &found,
        most: None,
    };
    family(alloc, &asked, store)
}

/// What is told where there are more cases than are looked at.
fn too_many(alloc: Global) -> Told
    ensures bounds { result.bounds ≡ None }
    ensures importances { result.importances.items ≡ [] }
{
    Told {
        bounds: None,
        importances: Vec::new(alloc),
    }
}

/// The bounds of a family where an event never occurs, and where it always does, of each of some events; none where there are more cases
/// than are looked at.
fn importances_of(
    alloc: Global,
    store: &mut Store,
    family: Id,
    rates: &[EventBounds],
    events: &[u32],
    whole: u32,
) -> Mem<Option<Vec<EventImportance>>>
    requires found { IsIn store.old family }
    requires rates { FitWhole whole rates.now }
    requires inside { AllByRecursion (λ event. event < length rates.now) events.now }
    ensures all { IfOk result (λ answer. IfSome answer (λ list. AreOfFamily whole rates.now (family_of store.old family) events.now list.items)) }
    ensures none { IfOk result (λ answer. IfNone answer (IsOver rates.now (family_of store.old family))) }
{
    let mut list = Vec::new(alloc);
    for event in events {
        let Some(both) = importance_of(alloc, store, family, rates, *event, whole)? else {
            return Ok(None);
        };
        list.push(EventImportance {
            event: *event,
            both,
        })?;
    }
    Ok(Some(list))
}

/// The bounds of a family where an event never occurs, and where it always does.
fn importance_of(
    alloc: Global,
    store: &mut Store,
    family: Id,
    rates: &[EventBounds],
    event: u32,
    whole: u32,
) -> Mem<Option<Importance>>
    requires found { IsIn store.old family }
    requires rates { FitWhole whole rates.now }
    requires inside { event < length rates.now }
    ensures each { IfOk result (λ answer. IfSome answer (λ both. IsOfFamily whole rates.now (family_of store.old family) record { event = event; both = both })) }
    ensures none { IfOk result (λ answer. IfNone answer (IsOver rates.now (family_of store.old family))) }
    ensures kept { Keeps store.old store.new }
{
    event_importance(alloc, store, rates, event, whole, MOST_CASES, family)
}
