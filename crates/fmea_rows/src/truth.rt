//! Whether the time of a fact in a table fits its formula.
//!
//! Where one true part is enough, it is begun with the one that the places of the formulas name. Nothing is claimed of that one: it
//! decides how long the test takes, and not what it says.

ghost use Rattle.std.specs.Prelude.{◌≡◌, IsTrue, map, nat_le};
ghost use Rattle.std.specs.List.{list_all, list_any};
ghost use Rattle.fault_system.specs.Truth.{count_true, member, truth};
ghost use Rattle.fault_system.specs.Rounds.{time_of};
ghost use Rattle.fault_system.specs.inner.Rounds.{FitsFact, FitsTime, within};

use crate::change::time_at;
use crate::places::{Place, place_at};
use fault_system::{Bits, FaultSystem, Formula};

/// What is tested: the table of a run of a system under one event alone.
#[derive(Clone, Copy)]
pub(crate) struct Run<'a> {
    /// The system.
    pub system: &'a FaultSystem,
    /// The set of that event alone.
    pub only: &'a Bits,
    /// The round of each fact, and 0 for none.
    pub times: &'a [u32],
    /// The places of the formulas, which say what is looked at first.
    pub places: &'a [Place],
}

/// Whether the time of a fact fits its formula.
pub(crate) fn fits(run: &Run<'_>, number: u32) -> bool
    ensures { IsTrue result → FitsFact run.now.system.now (member run.now.only.now) (time_of run.now.times.now) number }
{
    match run.system.fact(number) {
        Some(fact) => fits_time(run, run.times, &fact.formula, number),
        None => true,
    }
}

// Whether the time of a fact fits its formula.
fn fits_time(run: &Run<'_>, times: &[u32], formula: &Formula, number: u32) -> bool
    requires { times.now ≡ run.now.times.now }
    ensures { IsTrue result → FitsTime (member run.now.only.now) (time_of run.now.times.now) formula.now (time_of run.now.times.now number) }
{
    let time = time_at(times, number);
    if time == 0 {
        return !is_true(run, formula, u32::MAX, number);
    }
    let comes = is_true(run, formula, time - 1, number);
    if time == 1 {
        return comes;
    }
    comes && !is_true(run, formula, time - 2, number)
}

/// Whether a fact has a time in a table, at most so much.
pub(crate) fn is_within(times: &[u32], most: u32, number: u32) -> bool
    ensures { result ≡ within (time_of times.now) most number }
{
    let time = time_at(times, number);
    time > 0 && time <= most
}

// Whether a formula is true over the facts that have a time, at most so much.
#[cycle(truth)]
fn is_true(run: &Run<'_>, formula: &Formula, most: u32, at: u32) -> bool
    ensures { result ≡ truth (member run.now.only.now) (within (time_of run.now.times.now) most) formula.now }
{
    let place = place_at(run.places, at);
    match formula {
        Formula::True => true,
        Formula::Event(number) => run.only.has(*number),
        Formula::Fact(number) => is_within(run.times, most, *number),
        Formula::And(parts) => are_all(run, parts.items(), most, place),
        Formula::Or(parts) => is_any(run, parts.items(), most, place),
        Formula::AtLeast(least, parts) => are_true(
            run,
            parts.items(),
            *least as usize,
            most,
            place,
        ),
    }
}

// Whether all parts are true.
#[cycle(truth)]
fn are_all(run: &Run<'_>, parts: &[Formula], most: u32, place: Place) -> bool
    ensures { result ≡ list_all (λ part. part) (map (truth (member run.now.only.now) (within (time_of run.now.times.now) most)) parts.now) }
{
    let mut at = place.first;
    for part in parts {
        if !is_true(run, part, most, at) {
            return false;
        }
        at = at.saturating_add(1);
    }
    true
}

// Whether a part is true; it is begun with the part that came to be true first.
#[cycle(truth)]
fn is_any(run: &Run<'_>, parts: &[Formula], most: u32, place: Place) -> bool
    ensures { result ≡ list_any (λ part. part) (map (truth (member run.now.only.now) (within (time_of run.now.times.now) most)) parts.now) }
{
    let begin = (place.marked as usize).min(parts.len());
    let mut at = place.first.saturating_add(place.marked);
    for part in &parts[begin..] {
        if is_true(run, part, most, at) {
            return true;
        }
        at = at.saturating_add(1);
    }
    at = place.first;
    for part in &parts[..begin] {
        if is_true(run, part, most, at) {
            return true;
        }
        at = at.saturating_add(1);
    }
    false
}

// Whether at least so many parts are true.
#[cycle(truth)]
fn are_true(run: &Run<'_>, parts: &[Formula], least: usize, most: u32, place: Place) -> bool
    ensures { result ≡ nat_le least (count_true (map (truth (member run.now.only.now) (within (time_of run.now.times.now) most)) parts.now)) }
{
    let mut count = 0;
    let mut at = place.first;
    for part in parts {
        if is_true(run, part, most, at) {
            count += 1;
        }
        at = at.saturating_add(1);
    }
    count >= least
}
