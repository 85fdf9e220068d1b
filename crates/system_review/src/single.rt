//! The events that make no fact hold alone.
//!
//! What holds where no event occurs is made once. An event alone makes a further fact hold exactly where the formula of one that does not hold
//! yet is true with it, so each formula is looked at once, and no closure is made for an event.

ghost use Rattle.std.specs.Prelude.{◌≡◌, ◌↔◌, ◌<◌, ◌&&◌, ◌||◌, ◌⊎◌, ◌==◌, ℕ, IfOk, false, length, map, true};
ghost use Rattle.std.specs.List.{list_any};
ghost use Rattle.fault_system.specs.Truth.{Has, member, occurs_event, truth};
ghost use Rattle.fault_system.specs.Systems.{IsFact, holds_of};
ghost use Rattle.fault_system.specs.Rounds.{no_event, only};
ghost use Rattle.fault_system.specs.declared.formula.FactInfo.{FactInfo};
ghost use Rattle.system_review.specs.Listed.{AreAll};
ghost use Rattle.system_review.specs.Single.{IsNoSingleEvent, IsSingleEvent};
ghost use Rattle.system_review.specs.inner.Single.{Begins};

use crate::alone::{Only, is_true_over};
use crate::listing::missing;
use crate::occurring::{mark, used_events};
use crate::possible::always_facts;
use fault_system::{Bits, FaultSystem, Formula};
use plain_values::{List, Mem};
use std::alloc::Global;

/// The events that occur in formulas, and that alone make no fact hold which does not hold without any, rising.
pub fn no_single_events(alloc: Global, system: &FaultSystem) -> Mem<List<u32>>
    ensures { IfOk result (AreAll (IsNoSingleEvent system.now) (length system.now.events)) }
{
    let used = used_events(alloc, system)?;
    let single = single_events(alloc, system)?;
    let others = missing(alloc, system.events(), &used, &single)?;
    Ok(others)
}

// The events that alone make a fact hold which does not hold without any.
fn single_events(alloc: Global, system: &FaultSystem) -> Mem<Bits>
    ensures { IfOk result (λ events. (e : ℕ) → Has (member events) e ↔ IsSingleEvent system.now e) }
{
    let facts = always_facts(alloc, system)?;
    let mut events = Bits::new(alloc, system.events())?;
    mark_singles(system, &facts, &mut events);
    Ok(events)
}

fn mark_singles(system: &FaultSystem, facts: &Bits, marks: &mut Bits)
    requires { facts.now ≡ holds_of system.now no_event }
    ensures size { length marks.new ≡ length marks.old }
    ensures kept { (m : ℕ) → Has (member marks.old) m → Has (member marks.new) m }
    ensures right { (m : ℕ) → Has (member marks.new) m → Has (member marks.old) m ⊎ Begins system.now (member facts.now) m }
    ensures done { (n m : ℕ) (fact : FactInfo) → IsFact system.now n fact → m < length marks.old
        → member facts.now n ≡ false → truth (only m) (member facts.now) fact.formula ≡ true → Has (member marks.new) m }
{
    for number in 0..system.facts() {
        mark_singles_by(system, facts, marks, number);
    }
}

// Marks the events that alone make a fact hold, if it is none of those that hold.
fn mark_singles_by(system: &FaultSystem, facts: &Bits, marks: &mut Bits, number: u32)
    requires { facts.now ≡ holds_of system.now no_event }
    ensures size { length marks.new ≡ length marks.old }
    ensures kept { (m : ℕ) → Has (member marks.old) m → Has (member marks.new) m }
    ensures right { (m : ℕ) → Has (member marks.new) m → Has (member marks.old) m ⊎ Begins system.now (member facts.now) m }
    ensures done { (m : ℕ) (fact : FactInfo) → IsFact system.now number fact → m < length marks.old
        → member facts.now number ≡ false → truth (only m) (member facts.now) fact.formula ≡ true → Has (member marks.new) m }
{
    if facts.has(number) {
        return;
    }
    match system.fact(number) {
        Some(fact) => mark_single(marks, facts, &fact.formula),
        None => {}
    }
}

// Marks the events with each of which alone a formula is true that is not without any.
#[cycle(singles)]
fn mark_single(marks: &mut Bits, facts: &Bits, formula: &Formula)
    ensures size { length marks.new ≡ length marks.old }
    ensures marks { truth no_event (member facts.now) formula.now ≡ false → (m : ℕ) → m < length marks.old
        → member marks.new m ≡ (member marks.old m || truth (only m) (member facts.now) formula.now) }
{
    match formula {
        Formula::True | Formula::Fact(_) => {}
        Formula::Event(number) => mark(marks, *number),
        Formula::Or(parts) => mark_single_of(marks, facts, parts.items()),
        Formula::And(_) | Formula::AtLeast(_, _) => mark_tried(marks, formula, facts, formula),
    }
}

#[cycle(singles)]
fn mark_single_of(marks: &mut Bits, facts: &Bits, parts: &[Formula])
    ensures size { length marks.new ≡ length marks.old }
    ensures marks { list_any (λ part. part) (map (truth no_event (member facts.now)) parts.now) ≡ false → (m : ℕ) → m < length marks.old
        → member marks.new m ≡ (member marks.old m || list_any (λ part. part) (map (truth (only m) (member facts.now)) parts.now)) }
{
    for part in parts {
        mark_single(marks, facts, part);
    }
}

// Marks the events of a part with each of which alone the whole formula is true.
#[cycle(tried)]
fn mark_tried(marks: &mut Bits, part: &Formula, facts: &Bits, whole: &Formula)
    ensures size { length marks.new ≡ length marks.old }
    ensures marks { (m : ℕ) → m < length marks.old
        → member marks.new m ≡ (member marks.old m || (occurs_event m part.now && truth (only m) (member facts.now) whole.now)) }
{
    match part {
        Formula::True | Formula::Fact(_) => {}
        Formula::Event(number) => try_event(marks, facts, whole, *number),
        Formula::And(parts) | Formula::Or(parts) | Formula::AtLeast(_, parts) => {
            mark_tried_of(marks, parts.items(), facts, whole)
        }
    }
}

#[cycle(tried)]
fn mark_tried_of(marks: &mut Bits, parts: &[Formula], facts: &Bits, whole: &Formula)
    ensures size { length marks.new ≡ length marks.old }
    ensures marks { (m : ℕ) → m < length marks.old
        → member marks.new m ≡ (member marks.old m || (list_any (λ part. part) (map (occurs_event m) parts.now) && truth (only m) (member facts.now) whole.now)) }
{
    for part in parts {
        mark_tried(marks, part, facts, whole);
    }
}

// Marks an event, if a formula is true with it alone.
fn try_event(marks: &mut Bits, facts: &Bits, whole: &Formula, number: u32)
    ensures size { length marks.new ≡ length marks.old }
    ensures marks { (m : ℕ) → m < length marks.old
        → member marks.new m ≡ (member marks.old m || (number == m && truth (only m) (member facts.now) whole.now)) }
{
    if !marks.has(number) && is_true_over(whole, &Only(number), facts) {
        mark(marks, number);
    }
}
