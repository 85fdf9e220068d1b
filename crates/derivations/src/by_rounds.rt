//! The derivation of a target under a set of events, by rounds.
ghost use Rattle.std.specs.Prelude.{◌≡◌, ◌<◌, ◌^◌, ℕ, IfOk, MatchOption, length, slice_index_or};
ghost use Rattle.std.specs.List.Sorted.{IsStrictlyIncreasing};
ghost use Rattle.fault_system.specs.Truth.{Has, member, set_of};
ghost use Rattle.fault_system.specs.Systems.{Holds};
ghost use Rattle.fault_system.specs.Rounds.{AreRounds, time_of};
ghost use Rattle.derivations.specs.Steps.{IsGood};
ghost use Rattle.derivations.specs.Text.{HaveLines, event_names, fact_names};
ghost use Rattle.derivations.specs.Derived.{IsByRounds, IsDerivation, uses_event, uses_fact};
ghost use Rattle.derivations.specs.inner.Ordered.{AreMade, HasSteps, IsMade, place_at};

use crate::derivation::{Derivation, Firing};
use crate::gathering::{gather_events, round_of};
use crate::once::once_each;
use crate::ordering::{order_of, places_at, places_of};
use crate::uses::{reached, used_by};
use fault_system::{Bits, FaultSystem};
use plain_values::{List, Mem};
use std::alloc::Global;

/// The derivation of a target under a set of events: a step for the target and for each fact that is reached from it by
/// use, by round and then by number. A fact uses the facts of its formula that have an earlier round. None where the
/// target does not hold.
///
/// The derivation is good, and each of its steps has a line.
///
/// The time goes with the places of all formulas, and with the numbers of steps, events and uses where they are sorted.
pub fn derive(
    alloc: Global,
    system: &FaultSystem,
    target: u32,
    events: &Bits,
) -> Mem<Option<Derivation>>
    ensures derived { IfOk result (λ made. MatchOption made (Holds system.now (member events.now) target → ⊥)
        (λ derivation. IsByRounds system.now (member events.now) target derivation.steps)) }
    ensures good { IfOk result (λ made. MatchOption made (Unit {0})
        (λ derivation. IsGood system.now target (member events.now) derivation.steps)) }
    ensures lines { IfOk result (λ made. MatchOption made (Unit {0})
        (λ derivation. HaveLines (fact_names system.now) (event_names system.now) (member events.now) 0 derivation.steps)) }
    ensures holds { IfOk result (λ made. MatchOption made (Unit {0})
        (λ _. Holds system.now (member events.now) target)) }
{
    let rounds = system.rounds(alloc, events)?;
    if round_of(rounds.items(), target) == 0 {
        return Ok(None);
    }
    Ok(Some(derivation_by(alloc, system, rounds.items(), target, events)?))
}

// The derivation of a target by the rounds of the facts.
fn derivation_by(
    alloc: Global,
    system: &FaultSystem,
    rounds: &[u32],
    target: u32,
    events: &Bits,
) -> Mem<Derivation>
    requires rounds { AreRounds system.now (member events.now) rounds.now }
    requires target { 0 < time_of rounds.now target }
    ensures derived { IfOk result (λ derivation.
        IsDerivation system.now (member events.now) rounds.now target derivation.steps) }
    ensures good { IfOk result (λ derivation. IsGood system.now target (member events.now) derivation.steps) }
    ensures lines { IfOk result (λ derivation.
        HaveLines (fact_names system.now) (event_names system.now) (member events.now) 0 derivation.steps) }
    ensures holds { IfOk result (λ _. Holds system.now (member events.now) target) }
{
    let facts = reached(alloc, system, rounds, target)?;
    let order = order_of(alloc, rounds, &facts)?;
    Ok(steps_of(alloc, system, rounds, events, order.items())?)
}

// The steps of the facts of an order.
fn steps_of(
    alloc: Global,
    system: &FaultSystem,
    rounds: &[u32],
    events: &Bits,
    order: &[u32],
) -> Mem<Derivation>
    requires few { length order.now < 2 ^ 32 }
    requires within { (n : ℕ) → n < length order.now → slice_index_or order.now n 0 < length system.now.facts }
    requires differ { (m n : ℕ) → m < n → n < length order.now
        → slice_index_or order.now m 0 ≡ slice_index_or order.now n 0 → ⊥ }
    ensures { IfOk result (λ derivation.
        HasSteps system.now (member events.now) rounds.now order.now derivation.steps) }
{
    let places = places_of(alloc, order, system.facts())?;
    let steps = steps_at(alloc, system, rounds, events, order, places.as_slice())?;
    Ok(Derivation { steps })
}

// The steps of some facts, where facts have these places.
fn steps_at(
    alloc: Global,
    system: &FaultSystem,
    rounds: &[u32],
    events: &Bits,
    order: &[u32],
    places: &[u32],
) -> Mem<List<Firing>>
    ensures { IfOk result (AreMade system.now (member events.now) rounds.now places.now order.now) }
{
    let mut steps = List::new(alloc);
    for fact in order {
        let step = step_of(alloc, system, rounds, events, places, *fact)?;
        steps.push(step)?;
    }
    Ok(steps)
}

// The step of a fact, where facts have these places.
fn step_of(
    alloc: Global,
    system: &FaultSystem,
    rounds: &[u32],
    events: &Bits,
    places: &[u32],
    fact: u32,
) -> Mem<Firing>
    ensures fact { IfOk result (λ step. step.fact ≡ fact) }
    ensures made { IfOk result (IsMade system.now (member events.now) rounds.now places.now) }
{
    let found = once_each(events_of(alloc, system, events, fact)?)?;
    let uses = uses_of(alloc, system, rounds, places, fact)?;
    Ok(Firing {
        fact,
        events: found,
        uses,
    })
}

// The events of a set that occur in the formula of a fact.
fn events_of(alloc: Global, system: &FaultSystem, events: &Bits, fact: u32) -> Mem<Vec<u32>>
    ensures { IfOk result
        (λ found. (n : ℕ) → set_of found.items n ≡ uses_event system.now (member events.now) fact n) }
{
    let mut found = Vec::new(alloc);
    if let Some(info) = system.fact(fact) {
        gather_events(&info.formula, events, &mut found)?;
    }
    Ok(found)
}

// The places of the facts that a fact uses, each once and rising.
fn uses_of(
    alloc: Global,
    system: &FaultSystem,
    rounds: &[u32],
    places: &[u32],
    fact: u32,
) -> Mem<List<u32>>
    ensures rising { IfOk result IsStrictlyIncreasing }
    ensures each { IfOk result (λ list. (n : ℕ) → Has (set_of list) n
        → (other : ℕ) × Has (uses_fact system.now rounds.now fact) other × (place_at places.now other ≡ n)) }
    ensures all { IfOk result (λ list. (other : ℕ) → Has (uses_fact system.now rounds.now fact) other
        → Has (set_of list) (place_at places.now other)) }
{
    let used = used_by(alloc, system, rounds, fact)?;
    let numbers = places_at(alloc, places, used.as_slice())?;
    Ok(once_each(numbers)?)
}
