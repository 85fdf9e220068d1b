//! How many events each fact takes at least, of all facts of a system at once.
//!
//! Bounds are proposed, fact by fact until none changes, and then each is tested: where a formula takes no less than its fact
//! is said to, all bounds are right, also those of facts that depend on one another. Nothing of the proposal is trusted.

ghost use Rattle.std.specs.Prelude.{◌≡◌, ◌<◌, ℕ, List, [], IfOk, IsTrue};
ghost use Rattle.fault_system.specs.Truth.{Has, member, set_of};
ghost use Rattle.fault_system.specs.Systems.{System, applied};
ghost use Rattle.target_orders.specs.Orders.{NeedsAtLeast};
ghost use Rattle.target_orders.specs.inner.Bounds.{AreBounds, IsMet, met_facts};

use crate::agenda::Agenda;
use crate::bounds::{Bound, bound_at, bound_of, over_both, smaller};
use crate::places::event_places;
use fact_users::{Users, users_at};
use fault_system::FaultSystem;
use plain_values::Mem;
use std::alloc::Global;

/// The bounds of all facts, over places of the events.
#[derive(Drop)]
pub(crate) struct Lows {
    pub places: Vec<u32>,
    pub bounds: Vec<Bound>,
}

/// Bounds of the facts of a system. The order and the users decide how long it takes, and how narrow the ranges are.
pub(crate) fn lows_of(
    alloc: Global,
    system: &FaultSystem,
    order: &[u32],
    users: &Users,
) -> Mem<Lows>
    ensures { IfOk result (λ lows. AreBounds system.now lows.places.items lows.bounds.items) }
{
    let places = event_places(alloc, system, order)?;
    let bounds = proposed_bounds(alloc, system, places.as_slice(), order, users)?;
    Ok(tested(alloc, system, places, bounds))
}

// These bounds where they pass the test, and else none.
fn tested(alloc: Global, system: &FaultSystem, places: Vec<u32>, bounds: Vec<Bound>) -> Lows
    ensures { AreBounds system.now result.places.items result.bounds.items }
{
    if are_bounds(system, places.as_slice(), bounds.as_slice()) {
        return Lows { places, bounds };
    }
    let bounds = no_bounds(alloc);
    Lows { places, bounds }
}

fn no_bounds(alloc: Global) -> Vec<Bound>
    ensures { result.items ≡ [] }
{
    Vec::new(alloc)
}

/// How many events a fact takes at least, by its bound.
pub(crate) fn low_of(lows: &Lows, fact: u32) -> u32
    ensures { (system : System) → AreBounds system lows.now.places.items lows.now.bounds.items → NeedsAtLeast system fact result }
{
    bound_at(lows.bounds.as_slice(), fact).low
}

// Bounds of the facts: each is lowered to what its formula takes, until none changes.
fn proposed_bounds(
    alloc: Global,
    system: &FaultSystem,
    places: &[u32],
    order: &[u32],
    users: &Users,
) -> Mem<Vec<Bound>> {
    let mut bounds = greatest_bounds(alloc, system.facts())?;
    lower_all(alloc, system, places, order, users, bounds.as_mut_slice())?;
    Ok(bounds)
}

fn lower_all(
    alloc: Global,
    system: &FaultSystem,
    places: &[u32],
    order: &[u32],
    users: &Users,
    bounds: &mut [Bound],
) -> Mem<()> {
    let mut agenda = Agenda::new(alloc, system.facts(), order)?;
    for step in 0..u64::MAX {
        let Some(fact) = agenda.next() else {
            return Ok(());
        };
        lower_next(system, places, users, bounds, &mut agenda, fact)?;
    }
    Ok(())
}

// Lowers the bound of a fact, and has its users wait where it is another then.
fn lower_next(
    system: &FaultSystem,
    places: &[u32],
    users: &Users,
    bounds: &mut [Bound],
    agenda: &mut Agenda,
    fact: u32,
) -> Mem<()> {
    if lower(system, places, bounds, fact) {
        return agenda.tell(users_at(users.facts.as_slice(), fact));
    }
    Ok(())
}

fn greatest_bounds(alloc: Global, count: u32) -> Mem<Vec<Bound>> {
    let mut bounds = Vec::with_capacity(alloc, count as usize)?;
    for fact in 0..count {
        bounds.push(Bound {
            low: 4_294_967_295,
            from: 0,
            to: 0,
        })?;
    }
    Ok(bounds)
}

// Lowers the bound of a fact to what its formula takes; whether it is another then.
fn lower(system: &FaultSystem, places: &[u32], bounds: &mut [Bound], fact: u32) -> bool {
    let Some(info) = system.fact(fact) else {
        return false;
    };
    let before = bound_at(bounds, fact);
    let now = bound_of(places, bounds, &info.formula);
    if is_implied(before, now) {
        return false;
    }
    write_bound(
        bounds,
        fact,
        over_both(smaller(before.low, now.low), before, now),
    );
    true
}

fn write_bound(bounds: &mut [Bound], fact: u32, bound: Bound) {
    if (fact as usize) < bounds.len() {
        bounds[fact as usize] = bound;
    }
}

// Whether a bound is met where another one is.
#[tactic(auto, using(crate::proofs::BoundLaws::implied))]
fn is_implied(bound: Bound, other: Bound) -> bool
    ensures { IsTrue result → (places set : List ℕ) → IsMet places set other → IsMet places set bound }
{
    if bound.low == 0 {
        return true;
    }
    if other.low < bound.low || other.from < bound.from {
        return false;
    }
    other.to <= bound.to
}

// Whether the bound of each fact is met where its formula is true over facts whose bounds are.
fn are_bounds(system: &FaultSystem, places: &[u32], bounds: &[Bound]) -> bool
    ensures { IsTrue result → AreBounds system.now places.now bounds.now }
{
    for fact in 0..system.facts() {
        if !is_bound(system, places, bounds, fact) {
            return false;
        }
    }
    true
}

fn is_bound(system: &FaultSystem, places: &[u32], bounds: &[Bound], fact: u32) -> bool
    ensures { IsTrue result → (set : List ℕ) → Has (member (applied system.now (set_of set) (met_facts places.now bounds.now set))) fact
        → Has (met_facts places.now bounds.now set) fact }
{
    match system.fact(fact) {
        Some(info) => is_implied(
            bound_at(bounds, fact),
            bound_of(places, bounds, &info.formula),
        ),
        None => false,
    }
}
