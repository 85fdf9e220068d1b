//! Rounds that are told from an effect on: no event reaches it in fewer rounds than its distance says, and one reaches it in so many
//! where along a shortest way each fact makes the next one hold, alone or with facts that always hold, as initial states do.

ghost use Rattle.std.specs.Prelude.{◌≡◌, ◌==◌, ◌<◌, ◌+◌, ◌^◌, ℕ, IfOk, IsTrue, false, length, map};
ghost use Rattle.std.specs.List.{list_all, list_any};
ghost use Rattle.fault_system.specs.Truth.{Has, member, occurs, occurs_event, truth};
ghost use Rattle.fault_system.specs.Rounds.{no_event, only, time_of};
ghost use Rattle.fmea_rows.specs.inner.Columns.{AreAround, AreConstant, AreEnds, AreNear, AreSure, IsAround, IsColumn, IsConstant, IsNear, IsPass, IsToldAt, Spreads, with_one};

use crate::change::time_at;
use crate::distances::Distances;
use crate::truth::is_within;
use fault_system::{Bits, FaultSystem, Formula};
use plain_values::Mem;
use std::alloc::Global;

/// The rounds in which an effect comes to hold under each event alone, as far as they are told.
#[derive(Drop)]
pub(crate) struct Column {
    /// The effect.
    pub effect: u32,
    // the distance of each event from it; 0 where it does not lead there
    rounds: Vec<u32>,
    // the events that make it hold in so many rounds
    sure: Bits,
}

/// Facts and events that make an effect hold as many rounds later as their distance says.
#[derive(Drop)]
pub(crate) struct Sure {
    facts: Bits,
    events: Bits,
}

impl Column {
    /// Those of an effect.
    pub fn of(alloc: Global, system: &FaultSystem, ends: &Ends, effect: u32) -> Mem<Column>
        requires { AreEnds system.now ends.now }
        ensures { IfOk result (λ column. IsColumn system.now effect column) }
    {
        let found = Distances::of(alloc, system, ends, effect)?;
        let facts = found.facts.as_slice();
        let events = found.events.as_slice();
        let sure = sure_of(
            alloc,
            system,
            ends,
            facts,
            events,
            found.order.as_slice(),
            effect,
        )?;
        if time_at(facts, effect) != 1 || !are_near(system, ends, facts, events) {
            return Column::untold(alloc, system, effect);
        }
        Ok(Column {
            effect,
            rounds: found.events,
            sure: sure.events,
        })
    }

    // None of them is told.
    fn untold(alloc: Global, system: &FaultSystem, effect: u32) -> Mem<Column>
        ensures { IfOk result (λ column. IsColumn system.now effect column) }
    {
        Ok(Column {
            effect,
            rounds: vec![in alloc; 1u32; system.events() as usize]?,
            sure: Bits::new(alloc, system.events())?,
        })
    }

    /// Whether the round is told under an event.
    pub fn is_told(&self, event: u32) -> bool
        ensures { IsTrue result → IsToldAt self.now event }
    {
        self.round(event) == 0 || self.sure.has(event)
    }

    /// The round under an event; 0 where the effect does not come to hold.
    pub fn round(&self, event: u32) -> u32
        ensures { result ≡ time_of self.now.rounds.items event }
    {
        time_at(self.rounds.as_slice(), event)
    }
}

/// The sets under which formulas are looked at.
#[derive(Drop)]
pub(crate) struct Ends {
    /// All events.
    pub all: Bits,
    /// No event.
    pub no_event: Bits,
    /// No fact.
    pub no_fact: Bits,
    /// Facts that hold in each round but the first of all.
    pub constant: Bits,
}

impl Ends {
    /// Those of a system.
    pub fn of(alloc: Global, system: &FaultSystem) -> Mem<Ends>
        ensures { IfOk result (AreEnds system.now) }
    {
        let no_event = Bits::new(alloc, system.events())?;
        let no_fact = Bits::new(alloc, system.facts())?;
        Ok(Ends {
            all: all_of(alloc, system.events())?,
            constant: constant_of(alloc, system, &no_event, &no_fact)?,
            no_event,
            no_fact,
        })
    }
}

// All numbers below a size.
fn all_of(alloc: Global, size: u32) -> Mem<Bits>
    ensures size { IfOk result (λ all. length all ≡ size) }
    ensures all { IfOk result (λ all. (n : ℕ) → n < size → Has (member all) n) }
{
    let mut all = Bits::new(alloc, size)?;
    for number in 0..size {
        all.put(number);
    }
    Ok(all)
}

// The facts whose formulas are true under nothing.
fn constant_of(alloc: Global, system: &FaultSystem, no_event: &Bits, no_fact: &Bits) -> Mem<Bits>
    requires no_event { (n : ℕ) → member no_event.now n ≡ false }
    requires no_fact { (n : ℕ) → member no_fact.now n ≡ false }
    ensures { IfOk result (λ constant. AreConstant system.now (member constant)) }
{
    let mut constant = Bits::new(alloc, system.facts())?;
    for number in 0..system.facts() {
        note_constant(system, no_event, no_fact, number, &mut constant);
    }
    Ok(constant)
}

// Adds a fact, if its formula is true under nothing.
fn note_constant(
    system: &FaultSystem,
    no_event: &Bits,
    no_fact: &Bits,
    number: u32,
    constant: &mut Bits,
)
    requires room { number < length constant.old }
    requires constant { AreConstant system.now (member constant.old) }
    requires no_event { (n : ℕ) → member no_event.now n ≡ false }
    requires no_fact { (n : ℕ) → member no_fact.now n ≡ false }
    ensures size { length constant.new ≡ length constant.old }
    ensures constant { AreConstant system.now (member constant.new) }
{
    if is_constant(system, no_event, no_fact, number) {
        constant.put(number);
    }
}

// Whether the formula of a fact is true under nothing.
fn is_constant(system: &FaultSystem, no_event: &Bits, no_fact: &Bits, number: u32) -> bool
    requires no_event { (n : ℕ) → member no_event.now n ≡ false }
    requires no_fact { (n : ℕ) → member no_fact.now n ≡ false }
    ensures { IsTrue result → IsConstant system.now number }
{
    match system.fact(number) {
        Some(fact) => fact.formula.is_true(no_event, no_fact),
        None => false,
    }
}

// Whether all distances of facts and events are within those of the facts in whose formulas they occur.
fn are_near(system: &FaultSystem, ends: &Ends, facts: &[u32], events: &[u32]) -> bool
    requires { AreEnds system.now ends.now }
    ensures { IsTrue result → AreNear system.now (time_of facts.now) (time_of events.now) (length system.now.facts) }
{
    for number in 0..system.facts() {
        if !is_near(system, ends, facts, events, number) {
            return false;
        }
    }
    true
}

// Whether what occurs in the formula of a fact that leads to the effect is near enough.
fn is_near(system: &FaultSystem, ends: &Ends, facts: &[u32], events: &[u32], number: u32) -> bool
    requires { AreEnds system.now ends.now }
    ensures { IsTrue result → IsNear system.now (time_of facts.now) (time_of events.now) number }
{
    let distance = time_at(facts, number);
    if distance == u32::MAX {
        return false;
    }
    match system.fact(number) {
        Some(fact) if distance > 0 => is_formula_near(
            ends,
            facts,
            events,
            &fact.formula,
            distance,
            system.events(),
        ),
        _ => true,
    }
}

// Whether what occurs in a formula is near enough.
fn is_formula_near(
    ends: &Ends,
    facts: &[u32],
    events: &[u32],
    formula: &Formula,
    distance: u32,
    count: u32,
) -> bool
    requires next { distance + 1 < 2 ^ 32 }
    requires all { (n : ℕ) → n < count → Has (member ends.now.all) n }
    requires none { (n : ℕ) → member ends.now.no_fact n ≡ false }
    ensures { IsTrue result → IsAround (time_of facts.now) (time_of events.now) distance count formula.now }
{
    if formula.is_true(&ends.all, &ends.no_fact) {
        return is_around(facts, events, formula, distance, distance);
    }
    is_around(facts, events, formula, distance, distance + 1)
}

// Whether what occurs in a formula is near enough, where events may be so far.
#[cycle(around)]
fn is_around(facts: &[u32], events: &[u32], formula: &Formula, distance: u32, latest: u32) -> bool
    requires { distance + 1 < 2 ^ 32 }
    ensures { IsTrue result → AreAround (time_of facts.now) (time_of events.now) distance latest (λ n. occurs n formula.now) (λ n. occurs_event n formula.now) }
{
    match formula {
        Formula::True => true,
        Formula::Event(number) => is_within(events, latest, *number),
        Formula::Fact(number) => is_within(facts, distance + 1, *number),
        Formula::And(parts) | Formula::Or(parts) | Formula::AtLeast(_, parts) => {
            are_around(facts, events, parts.items(), distance, latest)
        }
    }
}

// Whether what occurs in these formulas is near enough.
#[cycle(around)]
fn are_around(facts: &[u32], events: &[u32], parts: &[Formula], distance: u32, latest: u32) -> bool
    requires { distance + 1 < 2 ^ 32 }
    ensures { IsTrue result → AreAround (time_of facts.now) (time_of events.now) distance latest
        (λ n. list_any (λ part. part) (map (occurs n) parts.now)) (λ n. list_any (λ part. part) (map (occurs_event n) parts.now)) }
{
    for part in parts {
        if !is_around(facts, events, part, distance, latest) {
            return false;
        }
    }
    true
}

// What surely makes an effect hold, where facts are looked at in an order.
fn sure_of(
    alloc: Global,
    system: &FaultSystem,
    ends: &Ends,
    facts: &[u32],
    events: &[u32],
    order: &[u32],
    effect: u32,
) -> Mem<Sure>
    requires { AreEnds system.now ends.now }
    ensures { IfOk result (AreSure system.now effect (time_of facts.now) (time_of events.now)) }
{
    let mut sure = first_sure(alloc, system, facts, effect)?;
    for number in order {
        spread_from(system, ends, facts, events, effect, *number, &mut sure);
    }
    Ok(sure)
}

// The effect alone.
fn first_sure(alloc: Global, system: &FaultSystem, facts: &[u32], effect: u32) -> Mem<Sure>
    ensures { IfOk result (λ sure. (events : ℕ → ℕ) → AreSure system.now effect (time_of facts.now) events sure) }
{
    let none = Bits::new(alloc, system.facts())?;
    let events = Bits::new(alloc, system.events())?;
    let mut sure = Sure {
        facts: none,
        events,
    };
    put_fact(facts, effect, 0, &mut sure);
    Ok(sure)
}

// What makes a sure fact hold at once is sure, and what makes it hold a round later with what is constant.
fn spread_from(
    system: &FaultSystem,
    ends: &Ends,
    facts: &[u32],
    events: &[u32],
    effect: u32,
    number: u32,
    sure: &mut Sure,
)
    requires ends { AreEnds system.now ends.now }
    requires sure { AreSure system.now effect (time_of facts.now) (time_of events.now) sure.old }
    ensures { AreSure system.now effect (time_of facts.now) (time_of events.now) sure.new }
{
    let distance = time_at(facts, number);
    if distance == u32::MAX {
        return;
    }
    let early = Way {
        facts,
        events,
        no_event: &ends.no_event,
        held: &ends.no_fact,
        distance,
        latest: distance,
    };
    let late = Way {
        held: &ends.constant,
        latest: distance + 1,
        ..early
    };
    spread_by(system, &early, effect, number, sure);
    spread_by(system, &late, effect, number, sure);
}

/// How far facts and events are, and what is supposed where a formula is looked at.
#[derive(Clone, Copy)]
pub(crate) struct Way<'a> {
    /// The distances of facts.
    facts: &'a [u32],
    /// Those of events.
    events: &'a [u32],
    /// No event.
    no_event: &'a Bits,
    /// The facts that are supposed to hold.
    held: &'a Bits,
    /// The distance of the fact whose formula it is.
    distance: u32,
    /// The distance of events that make it true.
    latest: u32,
}

// What makes a sure fact hold is sure.
fn spread_by(system: &FaultSystem, way: &Way, effect: u32, number: u32, sure: &mut Sure)
    requires distance { way.now.distance ≡ time_of way.now.facts.now number }
    requires next { way.now.distance + 1 < 2 ^ 32 }
    requires none { (n : ℕ) → member way.now.no_event.now n ≡ false }
    requires pass { IsPass system.now (member way.now.held.now) way.now.distance way.now.latest }
    requires sure { AreSure system.now effect (time_of way.now.facts.now) (time_of way.now.events.now) sure.old }
    ensures { AreSure system.now effect (time_of way.now.facts.now) (time_of way.now.events.now) sure.new }
{
    if !sure.facts.has(number) {
        return;
    }
    match system.fact(number) {
        Some(fact) => spread(way, &fact.formula, sure),
        None => {}
    }
}

// Adds the facts and the events at the right distance each of which makes a formula true, with what is supposed.
#[cycle(spread)]
fn spread(way: &Way, formula: &Formula, sure: &mut Sure)
    requires next { way.now.distance + 1 < 2 ^ 32 }
    requires none { (n : ℕ) → member way.now.no_event.now n ≡ false }
    ensures { Spreads (time_of way.now.facts.now) (time_of way.now.events.now) way.now.distance way.now.latest
        (λ n. truth no_event (with_one (member way.now.held.now) n) formula.now) (λ n. truth (only n) (member way.now.held.now) formula.now) sure.old sure.new }
{
    match formula {
        Formula::Event(number) => put_event(way.events, *number, way.latest, sure),
        Formula::Fact(number) => put_fact(way.facts, *number, way.distance, sure),
        Formula::Or(parts) => spread_parts(way, parts.items(), sure),
        Formula::And(parts) => spread_beside(way, parts.items(), sure),
        _ => {}
    }
}

#[cycle(spread)]
fn spread_parts(way: &Way, parts: &[Formula], sure: &mut Sure)
    requires next { way.now.distance + 1 < 2 ^ 32 }
    requires none { (n : ℕ) → member way.now.no_event.now n ≡ false }
    ensures { Spreads (time_of way.now.facts.now) (time_of way.now.events.now) way.now.distance way.now.latest
        (λ n. list_any (λ part. part) (map (truth no_event (with_one (member way.now.held.now) n)) parts.now))
        (λ n. list_any (λ part. part) (map (truth (only n) (member way.now.held.now)) parts.now)) sure.old sure.new }
{
    for part in parts {
        spread(way, part, sure);
    }
}

// Of one part, or of one of two where the other one is true anyway.
#[cycle(spread)]
fn spread_beside(way: &Way, parts: &[Formula], sure: &mut Sure)
    requires next { way.now.distance + 1 < 2 ^ 32 }
    requires none { (n : ℕ) → member way.now.no_event.now n ≡ false }
    ensures { Spreads (time_of way.now.facts.now) (time_of way.now.events.now) way.now.distance way.now.latest
        (λ n. list_all (λ part. part) (map (truth no_event (with_one (member way.now.held.now) n)) parts.now))
        (λ n. list_all (λ part. part) (map (truth (only n) (member way.now.held.now)) parts.now)) sure.old sure.new }
{
    if parts.len() == 1 {
        return spread(way, &parts[0], sure);
    }
    if parts.len() != 2 {
        return;
    }
    if parts[0].is_true(way.no_event, way.held) {
        return spread(way, &parts[1], sure);
    }
    if parts[1].is_true(way.no_event, way.held) {
        spread(way, &parts[0], sure)
    }
}

// Adds a fact, if it is one farther.
fn put_fact(facts: &[u32], number: u32, distance: u32, sure: &mut Sure)
    requires { distance + 1 < 2 ^ 32 }
    ensures { (events : ℕ → ℕ) (latest : ℕ) → Spreads (time_of facts.now) events distance latest (λ n. number == n) (λ n. false) sure.old sure.new }
{
    if number < sure.facts.size() && time_at(facts, number) == distance + 1 {
        sure.facts.put(number);
    }
}

// Adds an event, if it is as far.
fn put_event(events: &[u32], number: u32, latest: u32, sure: &mut Sure)
    ensures { (facts : ℕ → ℕ) (distance : ℕ) → Spreads facts (time_of events.now) distance latest (λ n. false) (λ n. number == n) sure.old sure.new }
{
    if number < sure.events.size() && time_at(events, number) == latest {
        sure.events.put(number);
    }
}
