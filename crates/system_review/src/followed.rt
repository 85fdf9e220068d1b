//! What follows from a fact by way of some others, where no event occurs.
//!
//! An order in which facts follow is proposed, and each of them is looked at once in that order; then each of the others, that it does not
//! follow. What passes is right. That what is proposed always passes is not proved, so where a test failed what follows would
//! be made round by round.

ghost use Rattle.std.specs.Prelude.{◌≡◌, ◌+◌, ◌&&◌, ◌||◌, ℕ, IfOk, IfSome, IsTrue, OnOk, length, nat_eq};
ghost use Rattle.std.specs.HashSet.{contains};
ghost use Rattle.fault_system.specs.Truth.{member};
ghost use Rattle.fault_system.specs.Systems.{applied};
ghost use Rattle.fault_system.specs.Rounds.{no_event};
ghost use Rattle.system_review.specs.Alone.{following};
ghost use Rattle.system_review.specs.inner.Steps.{IsClosedAmong, IsWithin};

use crate::alone::is_true_at;
use crate::proposing::propose;
use fault_system::{FaultSystem, Numbers};
use plain_values::Mem;
use std::alloc::Global;
use std::collections::HashSet;

/// Facts that were found.
#[derive(Drop)]
pub(crate) struct Found {
    numbers: HashSet<u32>,
}

impl Numbers for Found {
    ghost use Rattle.std.specs.Prelude.{nat_eq};
    ghost use Rattle.std.specs.HashSet.{contains};

    ghost set = { λ set. contains nat_eq set.numbers };

    fn is_in(&self, number: u32) -> bool {
        self.numbers.contains(&number)
    }
}

/// What follows from a fact by way of some others, if the order that is proposed passes.
pub(crate) fn followed(
    alloc: Global,
    system: &FaultSystem,
    among: &[u32],
    cause: u32,
) -> Mem<Option<Found>>
    ensures { IfOk result (λ found. IfSome found (λ facts. contains nat_eq facts.numbers ≡ following system.now among.now cause (length among.now))) }
{
    let order = propose(alloc, system, among, cause)?;
    if order.len() > among.len() {
        return Ok(None);
    }
    let mut found = first(alloc, cause)?;
    add_in_order(system, among, &mut found, order.as_slice())?;
    if is_closed(system, among, &found) {
        Ok(Some(found))
    } else {
        Ok(None)
    }
}

// A fact alone.
fn first(alloc: Global, cause: u32) -> Mem<Found>
    ensures { IfOk result (λ found. (n : ℕ) → contains nat_eq found.numbers n ≡ nat_eq cause n) }
{
    let mut numbers = HashSet::new(alloc);
    numbers.insert(cause)?;
    Ok(Found { numbers })
}

// Adds those at some places among some facts, one after another, where the formula of each is true over those before it.
fn add_in_order(system: &FaultSystem, among: &[u32], found: &mut Found, order: &[u32]) -> Mem<()>
    ensures { OnOk result ((cause : ℕ) → IsWithin system.now among.now cause 0 (contains nat_eq found.old.numbers)
        → IsWithin system.now among.now cause (length order.now) (contains nat_eq found.new.numbers)) }
{
    for place in order {
        add_at(system, among, found, *place)?;
    }
    Ok(())
}

// Adds the one at a place among some facts, if its formula is true over those that were found.
fn add_at(system: &FaultSystem, among: &[u32], found: &mut Found, place: u32) -> Mem<()>
    ensures { OnOk result ((cause rounds : ℕ) → IsWithin system.now among.now cause rounds (contains nat_eq found.old.numbers)
        → IsWithin system.now among.now cause (rounds + 1) (contains nat_eq found.new.numbers)) }
{
    match among.get(place as usize) {
        Some(number) => {
            add_true(system, found, *number)?;
            Ok(())
        }
        None => Ok(()),
    }
}

// Adds a fact, if its formula is true over those that were found.
fn add_true(system: &FaultSystem, found: &mut Found, number: u32) -> Mem<()>
    ensures { OnOk result ((n : ℕ) → contains nat_eq found.new.numbers n
        ≡ (contains nat_eq found.old.numbers n || (nat_eq number n && member (applied system.now no_event (contains nat_eq found.old.numbers)) number))) }
{
    if is_true_at(system, found, number) {
        found.numbers.insert(number)?;
    }
    Ok(())
}

// Whether each of some facts whose formula is true over those that were found is one of them.
fn is_closed(system: &FaultSystem, among: &[u32], found: &Found) -> bool
    ensures { IsTrue result → IsClosedAmong system.now among.now (contains nat_eq found.now.numbers) }
{
    for number in among {
        if is_true_at(system, found, *number) && !found.is_in(*number) {
            return false;
        }
    }
    true
}
