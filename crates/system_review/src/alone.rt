//! What is so where one event or one fact stands alone.

ghost use Rattle.std.specs.Prelude.{◌≡◌, IfOk, false, map, nat_le};
ghost use Rattle.fault_system.specs.Truth.{count_true, member, truth};
ghost use Rattle.fault_system.specs.Systems.{applied};
ghost use Rattle.fault_system.specs.Rounds.{no_event};
ghost use Rattle.system_review.specs.Alone.{made_by_event, made_by_fact};

use crate::by_rounds::{Listed, following};
use crate::followed::followed;
use fault_system::{FaultSystem, Formula, Numbers};
use plain_values::Mem;
use std::alloc::Global;

/// The set of no number.
#[derive(Clone, Copy)]
struct Nothing;

impl Numbers for Nothing {
    ghost use Rattle.std.specs.Prelude.{false};

    ghost set = { λ _ number. false };

    fn is_in(&self, number: u32) -> bool {
        let _ = number;
        false
    }
}

/// The set of one number.
#[derive(Clone, Copy)]
pub(crate) struct Only(pub u32);

impl Numbers for Only {
    ghost use Rattle.fault_system.specs.Rounds.{only};

    ghost set = { λ set. only set.0 };

    fn is_in(&self, number: u32) -> bool {
        number == self.0
    }
}

/// Whether a fact holds by itself where this event alone occurs: its formula is true, and no other fact need hold.
pub fn made_by_event(system: &FaultSystem, target: u32, event: u32) -> bool
    ensures { result ≡ made_by_event system.now target event }
{
    match system.fact(target) {
        Some(fact) => is_true_over(&fact.formula, &Only(event), &Nothing),
        None => false,
    }
}

/// Whether a fact makes another one hold by itself, by way of some facts alone: the formula of the other is true where what
/// follows from the one holds, and no event occurs.
///
/// Mostly the one fact alone is enough, and then nothing else is looked at; else the time goes with the formulas of the facts by way
/// of which it may go.
pub fn made_by_fact(
    alloc: Global,
    system: &FaultSystem,
    among: &[u32],
    target: u32,
    cause: u32,
) -> Mem<bool>
    ensures { IfOk result (λ made. made ≡ made_by_fact system.now among.now target cause) }
{
    if is_true_at(system, &Only(cause), target) {
        return Ok(true);
    }
    match followed(alloc, system, among, cause)? {
        Some(found) => Ok(is_true_at(system, &found, target)),
        None => made_by_rounds(alloc, system, among, target, cause),
    }
}

// The same, round by round.
fn made_by_rounds(
    alloc: Global,
    system: &FaultSystem,
    among: &[u32],
    target: u32,
    cause: u32,
) -> Mem<bool>
    ensures { IfOk result (λ made. made ≡ made_by_fact system.now among.now target cause) }
{
    let found = following(alloc, system, among, cause)?;
    Ok(is_true_at(
        system,
        &Listed {
            numbers: found.items(),
        },
        target,
    ))
}

/// Whether the formula of a fact is true where these facts hold and no event occurs.
pub(crate) fn is_true_at<S: Numbers>(system: &FaultSystem, facts: &S, number: u32) -> bool
    ensures { result ≡ member (applied system.now no_event (S.set facts.now)) number }
{
    match system.fact(number) {
        Some(fact) => is_true_over(&fact.formula, &Nothing, facts),
        None => false,
    }
}

/// Whether a formula is true under a set of events and a set of facts.
#[cycle(truth)]
pub(crate) fn is_true_over<E: Numbers, S: Numbers>(formula: &Formula, events: &E, facts: &S) -> bool
    ensures { result ≡ truth (E.set events.now) (S.set facts.now) formula.now }
{
    match formula {
        Formula::True => true,
        Formula::Event(number) => events.is_in(*number),
        Formula::Fact(number) => facts.is_in(*number),
        Formula::And(parts) => are_true(parts.items(), parts.items().len(), events, facts),
        Formula::Or(parts) => are_true(parts.items(), 1, events, facts),
        Formula::AtLeast(least, parts) => are_true(parts.items(), *least as usize, events, facts),
    }
}

// Whether at least so many of the places are true.
#[cycle(truth)]
fn are_true<E: Numbers, S: Numbers>(parts: &[Formula], least: usize, events: &E, facts: &S) -> bool
    ensures { result ≡ nat_le least (count_true (map (truth (E.set events.now) (S.set facts.now)) parts.now)) }
{
    let mut count = 0;
    for part in parts {
        if is_true_over(part, events, facts) {
            count += 1;
        }
    }
    count >= least
}
