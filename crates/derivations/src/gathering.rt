//! The derivation of a target under a set of events, by rounds.
ghost use Rattle.std.specs.Prelude.{◌≡◌, ◌&&◌, ◌==◌, ◌<◌, OnOk, map};
ghost use Rattle.std.specs.List.{list_any};
ghost use Rattle.fault_system.specs.Truth.{member, occurs, occurs_event};
ghost use Rattle.fault_system.specs.Rounds.{time_of};
ghost use Rattle.derivations.specs.Derived.{is_before_round};
ghost use Rattle.derivations.specs.inner.Gathered.{HasMore};

use fault_system::{Bits, Formula};
use plain_values::Mem;

/// The round of a fact; 0 where it has none.
pub(crate) fn round_of(rounds: &[u32], fact: u32) -> u32
    ensures { result ≡ time_of rounds.now fact }
{
    rounds.get(fact as usize).copied().unwrap_or(0)
}

/// Whether a fact has a round, and an earlier one.
pub(crate) fn is_before_round(rounds: &[u32], round: u32, fact: u32) -> bool
    ensures { result ≡ is_before_round rounds.now round fact }
{
    let earlier = round_of(rounds, fact);
    earlier > 0 && earlier < round
}

// Adds a number, where this is so.
fn push_if(numbers: &mut Vec<u32>, number: u32, is_so: bool) -> Mem<()>
    ensures { OnOk result (HasMore (λ n. (number == n) && is_so) numbers.old.items numbers.new.items) }
{
    if is_so {
        numbers.push(number)?;
    }
    Ok(())
}

/// Adds the events of a formula that are in the set.
#[cycle(events)]
pub(crate) fn gather_events(formula: &Formula, events: &Bits, found: &mut Vec<u32>) -> Mem<()>
    ensures { OnOk result (HasMore (λ n. occurs_event n formula.now && member events.now n)
        found.old.items found.new.items) }
{
    match formula {
        Formula::True => Ok(()),
        Formula::Fact(_) => Ok(()),
        Formula::Event(number) => push_if(found, *number, events.has(*number)),
        Formula::And(parts) | Formula::Or(parts) | Formula::AtLeast(_, parts) => {
            gather_all_events(parts.items(), events, found)
        }
    }
}

#[cycle(events)]
fn gather_all_events(parts: &[Formula], events: &Bits, found: &mut Vec<u32>) -> Mem<()>
    ensures { OnOk result (HasMore
        (λ n. list_any (λ part. part) (map (occurs_event n) parts.now) && member events.now n)
        found.old.items found.new.items) }
{
    for part in parts {
        gather_events(part, events, found)?;
    }
    Ok(())
}

/// Adds the facts of a formula that have an earlier round.
#[cycle(facts)]
pub(crate) fn gather_facts(
    formula: &Formula,
    rounds: &[u32],
    round: u32,
    used: &mut Vec<u32>,
) -> Mem<()>
    ensures { OnOk result (HasMore (λ n. occurs n formula.now && is_before_round rounds.now round n)
        used.old.items used.new.items) }
{
    match formula {
        Formula::True => Ok(()),
        Formula::Event(_) => Ok(()),
        Formula::Fact(number) => push_if(used, *number, is_before_round(rounds, round, *number)),
        Formula::And(parts) | Formula::Or(parts) | Formula::AtLeast(_, parts) => {
            gather_all_facts(parts.items(), rounds, round, used)
        }
    }
}

#[cycle(facts)]
fn gather_all_facts(parts: &[Formula], rounds: &[u32], round: u32, used: &mut Vec<u32>) -> Mem<()>
    ensures { OnOk result (HasMore
        (λ n. list_any (λ part. part) (map (occurs n) parts.now) && is_before_round rounds.now round n)
        used.old.items used.new.items) }
{
    for part in parts {
        gather_facts(part, rounds, round, used)?;
    }
    Ok(())
}
