ghost use Rattle.std.specs.Prelude.{◌≡◌, ◌<◌, ◌≤◌, ◌+◌, ◌++◌, ◌∷◌, [], ℕ, All, IfOk, IfSome, OnOk, false, length};
ghost use Rattle.fault_system.specs.Truth.{NumberSet, count_true, set_of};
ghost use Rattle.fault_system.specs.Systems.{IsSystem};
ghost use Rattle.backward_slice.specs.inner.Marks.{Adds, IsMarking};
ghost use Rattle.backward_slice.specs.Slices.{most_slice_events, most_slice_facts};
ghost use Rattle.backward_slice.specs.inner.Reach.{IsReach, IsReachBy, IsSmallReach};

use crate::marking::{Marking, visit};
use crate::parts::{MOST_SLICE_EVENTS, MOST_SLICE_FACTS, Reach};
use crate::ways::{AllWays, Ways};
use fault_system::{Bits, FaultSystem};
use plain_values::Mem;
use std::alloc::Global;

/// All facts and events on which some of these facts depend, in a time that goes with the formulas that are reached.
pub fn reach(alloc: Global, system: &FaultSystem, from: &[u32]) -> Mem<Reach>
    requires { All (λ n. n < length system.now.facts) from.now }
    ensures { IfOk result (IsReach system.now from.now) }
{
    reach_by(alloc, system, &AllWays, from)
}

/// The same where it is not gone from each fact to all facts in its formula.
pub fn reach_by<W: Ways>(alloc: Global, system: &FaultSystem, ways: &W, from: &[u32]) -> Mem<Reach>
    requires { All (λ n. n < length system.now.facts) from.now }
    ensures { IfOk result (IsReachBy system.now (W.ways ways.now) from.now) }
{
    let mut marking = first_marking(alloc, system, from)?;
    while let Some(number) = marking.waiting.pop() {
        go_on(system, ways, &mut marking, from, number)?;
    }
    Ok(Reach {
        facts: marking.facts,
        events: marking.events,
    })
}

/// All facts and events on which some of these facts depend, if they are no more than a slice may have. Where more are met it is given
/// up, so the time goes with the formulas of so many facts.
pub fn small_reach(alloc: Global, system: &FaultSystem, from: &[u32]) -> Mem<Option<Reach>>
    requires { All (λ n. n < length system.now.facts) from.now }
    ensures { IfOk result (λ found. IfSome found (IsSmallReach system.now from.now)) }
{
    let mut marking = first_marking(alloc, system, from)?;
    while let Some(number) = marking.waiting.pop() {
        if is_over(&marking) {
            return Ok(None);
        }
        go_on(system, &AllWays, &mut marking, from, number)?;
    }
    Ok(if_small(Reach {
        facts: marking.facts,
        events: marking.events,
    }))
}

// Whether more facts or events were met than a slice may have.
fn is_over(marking: &Marking) -> bool {
    marking.met_facts > MOST_SLICE_FACTS || marking.met_events > MOST_SLICE_EVENTS
}

// A reach, if it has no more than a slice may have.
fn if_small(found: Reach) -> Option<Reach>
    ensures { IfSome result (λ small. (small ≡ found) × (count_true small.facts ≤ most_slice_facts) × (count_true small.events ≤ most_slice_events)) }
{
    if count(&found.facts) > MOST_SLICE_FACTS || count(&found.events) > MOST_SLICE_EVENTS {
        return None;
    }
    Some(found)
}

// How many numbers are in a set.
fn count(marks: &Bits) -> u32
    ensures { result ≡ count_true marks.now }
{
    let mut count = 0;
    for number in 0..marks.size() {
        if marks.has(number) {
            count += 1;
        }
    }
    count
}

// The facts from which it goes alone, which wait.
fn first_marking(alloc: Global, system: &FaultSystem, from: &[u32]) -> Mem<Marking>
    requires { All (λ n. n < length system.now.facts) from.now }
    ensures system { IsSystem system.now }
    ensures first { IfOk result (λ marking. (ways : ℕ → NumberSet)
        → IsMarking system.now ways from.now marking.facts marking.events marking.waiting.items) }
{
    let mut marking = Marking {
        facts: Bits::new(alloc, system.facts())?,
        events: Bits::new(alloc, system.events())?,
        waiting: Vec::new(alloc),
        met_facts: 0,
        met_events: 0,
    };
    mark_all(&mut marking, from)?;
    Ok(marking)
}

fn mark_all(marking: &mut Marking, numbers: &[u32]) -> Mem<()>
    ensures { OnOk result (Adds (set_of numbers.now) (λ n. false) marking.old marking.new) }
{
    for number in numbers {
        marking.mark_fact(*number, true)?;
    }
    Ok(())
}

// Looks at the formula of a fact that no longer waits.
fn go_on<W: Ways>(
    system: &FaultSystem,
    ways: &W,
    marking: &mut Marking,
    from: &[u32],
    number: u32,
) -> Mem<()>
    requires { IsMarking system.now (W.ways ways.now) from.now marking.old.facts marking.old.events
        (marking.old.waiting.items ++ number ∷ []) }
    ensures next { OnOk result (IsMarking system.now (W.ways ways.now) from.now
        marking.new.facts marking.new.events marking.new.waiting.items) }
    ensures less { OnOk result (length marking.new.waiting.items + count_true marking.old.facts
        ≡ length marking.old.waiting.items + count_true marking.new.facts) }
{
    match system.fact(number) {
        Some(fact) if marking.facts.has(number) => {
            visit(marking, ways, number, &fact.formula)?;
            Ok(())
        }
        _ => Ok(()),
    }
}
