//! The truth of a formula under the events of a step and the facts of the steps that it uses.
//!
//! Marks say at once whether a number is one of these, where there are marks for it; the lists say it for any number.
ghost use Rattle.std.specs.Prelude.{◌≡◌, map, nat_le, slice_get};
ghost use Rattle.std.specs.List.{list_all, list_any};
ghost use Rattle.fault_system.specs.Truth.{count_true, set_of, truth};
ghost use Rattle.derivations.specs.Steps.{facts_of, is_of};
ghost use Rattle.derivations.specs.inner.Marked.{AreMarked};

use crate::derivation::Firing;
use fault_system::Formula;

// The step that is looked at, with all steps, and marks for what its formula is to be true under.
#[derive(Clone, Copy)]
pub(crate) struct Given<'a> {
    pub steps: &'a [Firing],
    pub step: &'a Firing,
    pub facts: &'a [bool],
    pub events: &'a [bool],
}

// Whether a formula is true under the events of the step and the facts of the steps that it uses.
#[cycle(given)]
pub(crate) fn is_true(formula: &Formula, given: &Given<'_>) -> bool
    requires { AreMarked given.now.steps.now given.now.step.now given.now.facts.now given.now.events.now }
    ensures { result ≡ truth (set_of given.now.step.now.events)
        (facts_of given.now.steps.now given.now.step.now.uses) formula.now }
{
    match formula {
        Formula::True => true,
        Formula::Event(number) => has_event(given, *number),
        Formula::Fact(number) => has_fact(given, *number),
        Formula::And(parts) => all_true(parts.items(), given),
        Formula::Or(parts) => any_true(parts.items(), given),
        Formula::AtLeast(least, parts) => are_true(parts.items(), *least as usize, given),
    }
}

// Whether all parts are true.
#[cycle(given)]
fn all_true(parts: &[Formula], given: &Given<'_>) -> bool
    requires { AreMarked given.now.steps.now given.now.step.now given.now.facts.now given.now.events.now }
    ensures { result ≡ list_all (λ part. part) (map (truth (set_of given.now.step.now.events)
        (facts_of given.now.steps.now given.now.step.now.uses)) parts.now) }
{
    for part in parts {
        if !is_true(part, given) {
            return false;
        }
    }
    true
}

// Whether a part is true.
#[cycle(given)]
fn any_true(parts: &[Formula], given: &Given<'_>) -> bool
    requires { AreMarked given.now.steps.now given.now.step.now given.now.facts.now given.now.events.now }
    ensures { result ≡ list_any (λ part. part) (map (truth (set_of given.now.step.now.events)
        (facts_of given.now.steps.now given.now.step.now.uses)) parts.now) }
{
    for part in parts {
        if is_true(part, given) {
            return true;
        }
    }
    false
}

// Whether at least so many of the places are true.
#[cycle(given)]
fn are_true(parts: &[Formula], least: usize, given: &Given<'_>) -> bool
    requires { AreMarked given.now.steps.now given.now.step.now given.now.facts.now given.now.events.now }
    ensures { result ≡ nat_le least (count_true (map (truth (set_of given.now.step.now.events)
        (facts_of given.now.steps.now given.now.step.now.uses)) parts.now)) }
{
    let mut count = 0;
    for part in parts {
        if count >= least {
            return true;
        }
        if is_true(part, given) {
            count += 1;
        }
    }
    count >= least
}

// Whether an event is one of the step.
fn has_event(given: &Given<'_>, event: u32) -> bool
    requires { AreMarked given.now.steps.now given.now.step.now given.now.facts.now given.now.events.now }
    ensures { result ≡ set_of given.now.step.now.events event }
{
    if (event as usize) < given.events.len() {
        return given.events[event as usize];
    }
    is_listed(given.step.events.items(), event)
}

// Whether a fact is that of a step which this one uses.
fn has_fact(given: &Given<'_>, fact: u32) -> bool
    requires { AreMarked given.now.steps.now given.now.step.now given.now.facts.now given.now.events.now }
    ensures { result ≡ facts_of given.now.steps.now given.now.step.now.uses fact }
{
    if (fact as usize) < given.facts.len() {
        return given.facts[fact as usize];
    }
    is_used(given.steps, given.step.uses.items(), fact)
}

// Whether a number is one of these.
fn is_listed(numbers: &[u32], number: u32) -> bool
    ensures { result ≡ set_of numbers.now number }
{
    for other in numbers {
        if *other == number {
            return true;
        }
    }
    false
}

// Whether a fact is that of one of the steps of these numbers.
fn is_used(steps: &[Firing], numbers: &[u32], fact: u32) -> bool
    ensures { result ≡ facts_of steps.now numbers.now fact }
{
    for number in numbers {
        if is_of(steps, *number, fact) {
            return true;
        }
    }
    false
}

// Whether there is a step of this number, and it is of the fact.
fn is_of(steps: &[Firing], number: u32, fact: u32) -> bool
    ensures { result ≡ is_of fact (slice_get steps.now number) }
{
    match steps.get(number as usize) {
        Some(step) => step.fact == fact,
        None => false,
    }
}
