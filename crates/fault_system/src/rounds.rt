//! The rounds in which facts come to hold, and whether a table has them.
//!
//! A table is proposed by one pass over the formulas, and then each time is tested. Only the table of the rounds fits, so
//! what passes is right. What the pass proposes is always right; that is not proved, so where a test failed the table
//! would be made round by round.

ghost use Rattle.std.specs.Prelude.{◌≡◌, ◌↔◌, ◌<◌, ◌+◌, ◌^◌, ℕ, IfOk, IsTrue, length, replicate};
ghost use Rattle.fault_system.specs.Truth.{member, truth};
ghost use Rattle.fault_system.specs.Rounds.{AreRounds, time_of};
ghost use Rattle.fault_system.specs.inner.Rounds.{FitsFact, FitsTime, IsTable, IsTableTo, ever, within};

use crate::bits::{Bits, Numbers};
use crate::formula::Formula;
use crate::places::rounds_of;
use crate::system::FaultSystem;
use plain_values::{List, Mem};
use std::alloc::Global;

/// The facts that have a time in a table, at most so much.
#[derive(Clone, Copy)]
struct Within<'a> {
    times: &'a [u32],
    most: u32,
}

impl<'a> Numbers for Within<'a> {
    ghost set = { λ set. within (time_of set.times.now) set.most };

    fn is_in(&self, number: u32) -> bool {
        let time = time_at(self.times, number);
        time > 0 && time <= self.most
    }
}

// The time of a fact in a table; 0 where it has none.
fn time_at(times: &[u32], number: u32) -> u32
    ensures { result ≡ time_of times.now number }
{
    times.get(number as usize).copied().unwrap_or(0)
}

// Whether a time fits a formula.
fn fits_time(formula: &Formula, events: &Bits, times: &[u32], time: u32) -> bool
    ensures { IsTrue result ↔ FitsTime (member events.now) (time_of times.now) formula.now time }
{
    if time == 0 {
        return !is_true_within(formula, events, times, u32::MAX);
    }
    let comes = is_true_within(formula, events, times, time - 1);
    if time == 1 {
        return comes;
    }
    comes && !is_true_within(formula, events, times, time - 2)
}

// Whether a formula is true over the facts that have a time, at most so much.
fn is_true_within(formula: &Formula, events: &Bits, times: &[u32], most: u32) -> bool
    ensures { result ≡ truth (member events.now) (within (time_of times.now) most) formula.now }
{
    formula.is_true(events, &Within { times, most })
}

impl FaultSystem {
    /// The round in which each fact comes to hold under a set of events: the least number of times after which it holds if
    /// all formulas are applied at once so often, from no fact; 0 where it does not hold.
    pub fn rounds(&self, alloc: Global, events: &Bits) -> Mem<List<u32>>
        ensures { IfOk result (AreRounds self.now (member events.now)) }
    {
        let proposed = List::of(rounds_of(alloc, self.fact_infos(), events)?)?;
        if self.is_table(events, proposed.items()) {
            return Ok(proposed);
        }
        self.plain_rounds(alloc, events)
    }

    /// Whether each time of a table fits the formula of its fact; the table of the rounds alone does.
    pub fn is_table(&self, events: &Bits, times: &[u32]) -> bool
        ensures { IsTrue result ↔ IsTable self.now (member events.now) times.now }
    {
        if times.len() != self.facts() as usize {
            return false;
        }
        for number in 0..self.facts() {
            if !self.fits(events, times, number) {
                return false;
            }
        }
        true
    }

    /// Whether the time of a fact fits its formula.
    pub fn fits(&self, events: &Bits, times: &[u32], number: u32) -> bool
        ensures { IsTrue result ↔ FitsFact self.now (member events.now) (time_of times.now) number }
    {
        match self.fact(number) {
            Some(fact) => fits_time(&fact.formula, events, times, time_at(times, number)),
            None => true,
        }
    }

    // The table of the rounds, made round by round.
    fn plain_rounds(&self, alloc: Global, events: &Bits) -> Mem<List<u32>>
        ensures { IfOk result (AreRounds self.now (member events.now)) }
    {
        let mut times = no_times(alloc, self.facts())?;
        for round in 0..self.facts() {
            self.add_round(events, times.as_mut_slice(), round);
        }
        Ok(List::of(times)?)
    }

    // Gives a time to the facts that come to hold in one round more.
    fn add_round(&self, events: &Bits, times: &mut [u32], round: u32)
        requires room { round + 1 < 2 ^ 32 }
        requires so_far { IsTableTo self.now (member events.now) times.old round }
        ensures { IsTableTo self.now (member events.now) times.new (round + 1) }
    {
        for (number, fact) in self.fact_infos().iter().enumerate() {
            if times[number] == 0 && is_true_within(&fact.formula, events, times, round) {
                times[number] = round + 1;
            }
        }
    }
}

// A table in which no fact has a time.
fn no_times(alloc: Global, size: u32) -> Mem<Vec<u32>>
    ensures { IfOk result (λ times. times.items ≡ replicate size 0) }
{
    Ok(vec![in alloc; 0u32; size as usize]?)
}

/// The facts that have a time in a table.
pub(crate) fn timed(alloc: Global, times: &List<u32>) -> Mem<Bits>
    ensures size { IfOk result (λ facts. length facts ≡ length times.now) }
    ensures facts { IfOk result (λ facts. (n : ℕ) → member facts n ≡ ever (time_of times.now) n) }
{
    let mut facts = Bits::new(alloc, times.len_u32())?;
    for number in 0..times.len_u32() {
        if time_at(times.items(), number) > 0 {
            facts.put(number);
        }
    }
    Ok(facts)
}
