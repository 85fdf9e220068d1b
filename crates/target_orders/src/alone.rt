//! The facts that hold under one event alone.
//!
//! For each event it is gone from the facts in whose formulas it stands to those in whose formulas these stand, as far as
//! the formulas are true. Each fact that is found holds; that all are found is not claimed.

ghost use Rattle.std.specs.Prelude.{◌≡◌, ◌+◌, ◌<◌, ◌⊎◌, ℕ, IfOk, IsTrue, OnOk, length, replicate};
ghost use Rattle.fault_system.specs.Truth.{member};
ghost use Rattle.fault_system.specs.Systems.{Holds};
ghost use Rattle.fault_system.specs.Rounds.{time_of};
ghost use Rattle.target_orders.specs.inner.Alone.{AreAlone, AreAlways, IsRest, IsWalk};

use crate::known::Known;
use crate::marks::{put, take};
use fact_users::{Users, users_at, users_of};
use fault_system::{Bits, FaultSystem, Numbers};
use plain_values::Mem;
use std::alloc::Global;

/// Where the search stands. An event has its number from 1 as its stamp.
#[derive(Drop)]
pub(crate) struct Walk {
    // the event that is looked at
    pub events: Bits,
    // for each fact the stamp of the last event under which it was found to hold; 0 before
    pub stamps: Vec<u32>,
    // found facts whose users were not looked at yet
    pub waiting: Vec<u32>,
    // whether the users of facts that were found before are looked at again
    pub is_whole: bool,
    // how many times a formula was looked at
    pub steps: u64,
    // how many times one may be, before the next event is begun
    pub most: u64,
}

/// The facts that hold under no event, and those with one stamp.
#[derive(Clone, Copy)]
struct Held<'a, 'b> {
    always: &'a Bits,
    stamps: &'b [u32],
    stamp: u32,
}

impl<'a, 'b> Numbers for Held<'a, 'b> {
    ghost use Rattle.fault_system.specs.Truth.{member};
    ghost use Rattle.target_orders.specs.inner.Alone.{held_set};

    ghost set = { λ set. held_set (member set.always.now) set.stamps.now set.stamp };

    fn is_in(&self, number: u32) -> bool {
        self.always.has(number) || stamp_at(self.stamps, number) == self.stamp
    }
}

fn stamp_at(stamps: &[u32], fact: u32) -> u32
    ensures { result ≡ time_of stamps.now fact }
{
    stamps.get(fact as usize).copied().unwrap_or(0)
}

fn write_stamp(stamps: &mut Vec<u32>, fact: u32, stamp: u32)
    ensures { (n : ℕ) → (time_of stamps.new.items n ≡ time_of stamps.old.items n) ⊎ ((n ≡ fact) × (time_of stamps.new.items n ≡ stamp)) }
{
    if (fact as usize) < stamps.len() {
        stamps[fact as usize] = stamp;
    }
}

/// Facts that hold under one event alone, of those that hold under some event and are not known to be large; it is asked of the
/// facts of the list.
///
/// First each fact is gone on from under one event alone, so that each formula is looked at as often as it has places. What
/// is found is all where a fact holds if one fact of its formula does. Where some are left, all events are gone on from
/// once more, through all facts, for a number of steps that goes with how many are left. For few facts nothing is sought.
pub(crate) fn alone(alloc: Global, system: &FaultSystem, known: &Known, facts: &[u32]) -> Mem<Bits>
    requires { AreAlways system.now known.now.always }
    ensures { IfOk result (AreAlone system.now) }
{
    let mut found = Bits::new(alloc, system.facts())?;
    if left(known, &found, facts) < 16 {
        return Ok(found);
    }
    let users = users_of(alloc, system)?;
    let first = first_walk(alloc, system, false, u64::MAX)?;
    look_at_all(system, &users, &known.always, first, &mut found)?;
    let left = left(known, &found, facts);
    let most = left.saturating_mul(u64::from(system.facts())) / 8;
    let second = first_walk(alloc, system, true, most.min(16_777_216))?;
    look_at_all(system, &users, &known.always, second, &mut found)?;
    Ok(found)
}

/// How many of some facts hold under some event and are not large, as far as it is known, and are not found yet.
fn left(known: &Known, found: &Bits, facts: &[u32]) -> u64 {
    let mut left = 0u64;
    for fact in facts {
        if is_left(known, found, *fact) {
            left = left.saturating_add(1);
        }
    }
    left
}

/// Whether a fact holds under some event and is not large, as far as it is known, and is not found yet.
fn is_left(known: &Known, found: &Bits, fact: u32) -> bool {
    let is_known = known.always.has(fact) || known.sizes.large.has(fact) || found.has(fact);
    known.perhaps.has(fact) && !is_known
}

/// Finds facts event by event, until a walk has gone as far as it may.
fn look_at_all(
    system: &FaultSystem,
    users: &Users,
    always: &Bits,
    mut walk: Walk,
    found: &mut Bits,
) -> Mem<()>
    requires always { AreAlways system.now always.now }
    requires rest { IsRest 0 walk }
    requires found { AreAlone system.now found.old }
    ensures { OnOk result (AreAlone system.now found.new) }
{
    for event in 0..system.events() {
        if walk.steps >= walk.most {
            return Ok(());
        }
        look_at(system, users, always, &mut walk, found, event)?;
    }
    Ok(())
}

/// A walk at its beginning, which may look at so many formulas.
fn first_walk(alloc: Global, system: &FaultSystem, is_whole: bool, most: u64) -> Mem<Walk>
    ensures { IfOk result (IsRest 0) }
{
    let events = Bits::new(alloc, system.events())?;
    let stamps = no_stamps(alloc, system.facts())?;
    Ok(Walk {
        events,
        stamps,
        waiting: Vec::new(alloc),
        is_whole,
        steps: 0,
        most,
    })
}

fn no_stamps(alloc: Global, size: u32) -> Mem<Vec<u32>>
    ensures { IfOk result (λ stamps. stamps.items ≡ replicate size 0) }
{
    Ok(vec![in alloc; 0u32; size as usize]?)
}

// Finds facts that hold under this event alone.
fn look_at(
    system: &FaultSystem,
    users: &Users,
    always: &Bits,
    walk: &mut Walk,
    found: &mut Bits,
    event: u32,
) -> Mem<()>
    requires always { AreAlways system.now always.now }
    requires rest { IsRest event walk.old }
    requires found { AreAlone system.now found.old }
    requires event { event < length system.now.events }
    ensures rest { OnOk result (IsRest (event + 1) walk.new) }
    ensures found { OnOk result (AreAlone system.now found.new) }
{
    let _events = system.events();
    put(&mut walk.events, event);
    spread(system, users, always, walk, found, event + 1)?;
    take(&mut walk.events, event);
    Ok(())
}

// Goes from an event to its users, and from each fact that is found to its own.
fn spread(
    system: &FaultSystem,
    users: &Users,
    always: &Bits,
    walk: &mut Walk,
    found: &mut Bits,
    stamp: u32,
) -> Mem<()>
    requires always { AreAlways system.now always.now }
    requires walk { IsWalk system.now stamp walk.old }
    requires found { AreAlone system.now found.old }
    ensures walk { OnOk result (IsWalk system.now stamp walk.new) }
    ensures found { OnOk result (AreAlone system.now found.new) }
{
    tell(
        system,
        always,
        walk,
        found,
        stamp,
        users_at(users.events.as_slice(), stamp.saturating_sub(1)),
    )?;
    for step in 0..u64::MAX {
        let Some(fact) = walk.waiting.pop() else {
            return Ok(());
        };
        let next = users_at(users.facts.as_slice(), fact);
        tell(system, always, walk, found, stamp, next)?;
    }
    Ok(())
}

fn tell(
    system: &FaultSystem,
    always: &Bits,
    walk: &mut Walk,
    found: &mut Bits,
    stamp: u32,
    users: &[u32],
) -> Mem<()>
    requires always { AreAlways system.now always.now }
    requires walk { IsWalk system.now stamp walk.old }
    requires found { AreAlone system.now found.old }
    ensures walk { OnOk result (IsWalk system.now stamp walk.new) }
    ensures found { OnOk result (AreAlone system.now found.new) }
{
    for user in users {
        add_if(system, always, walk, found, stamp, *user)?;
    }
    Ok(())
}

// Adds a fact, if its formula is true over the facts that were found under the event, and those that hold under none.
fn add_if(
    system: &FaultSystem,
    always: &Bits,
    walk: &mut Walk,
    found: &mut Bits,
    stamp: u32,
    fact: u32,
) -> Mem<()>
    requires always { AreAlways system.now always.now }
    requires walk { IsWalk system.now stamp walk.old }
    requires found { AreAlone system.now found.old }
    ensures walk { OnOk result (IsWalk system.now stamp walk.new) }
    ensures found { OnOk result (AreAlone system.now found.new) }
{
    walk.steps = walk.steps.saturating_add(1);
    if is_made(system, always, walk, stamp, fact) {
        let goes_on = walk.is_whole || !found.has(fact);
        put(found, fact);
        write_stamp(&mut walk.stamps, fact, stamp);
        wait_if(&mut walk.waiting, fact, goes_on)?;
    }
    Ok(())
}

fn wait_if(waiting: &mut Vec<u32>, fact: u32, goes_on: bool) -> Mem<()> {
    if goes_on {
        waiting.push(fact)?;
    }
    Ok(())
}

fn is_made(system: &FaultSystem, always: &Bits, walk: &Walk, stamp: u32, fact: u32) -> bool
    requires always { AreAlways system.now always.now }
    requires walk { IsWalk system.now stamp walk.now }
    ensures { IsTrue result → Holds system.now (member walk.now.events) fact }
{
    let stamps = walk.stamps.as_slice();
    if always.has(fact) || stamp_at(stamps, fact) == stamp {
        return false;
    }
    let held = Held {
        always,
        stamps,
        stamp,
    };
    match system.fact(fact) {
        Some(info) => info.formula.is_true(&walk.events, &held),
        None => false,
    }
}
