ghost use Rattle.std.specs.Prelude.{◌≡◌, map, nat_le};
ghost use Rattle.std.specs.List.{list_all};
ghost use Rattle.fault_system.specs.Truth.{count_true, in_range, member, truth};

use crate::bits::{Bits, Numbers};
use plain_values::{List, Name};

/// What makes a fact hold, over events and facts by their numbers.
#[derive(Drop)]
pub enum Formula {
    /// Always true.
    True,
    /// True where the event of this number occurs.
    Event(u32),
    /// True where the fact of this number holds.
    Fact(u32),
    /// True where all parts are; with no part it is true.
    And(List<Formula>),
    /// True where a part is; with no part it is false.
    Or(List<Formula>),
    /// True where at least so many of the places are, counted by place and not by value.
    AtLeast(u32, List<Formula>),
}

impl Formula {
    /// Whether the formula is true under a set of events and a set of facts.
    #[cycle(truth)]
    pub fn is_true<S: Numbers>(&self, events: &Bits, facts: &S) -> bool
        ensures { result ≡ truth (member events.now) (S.set facts.now) self.now }
    {
        match self {
            Formula::True => true,
            Formula::Event(number) => events.has(*number),
            Formula::Fact(number) => facts.is_in(*number),
            Formula::And(parts) => are_true(parts.items(), parts.items().len(), events, facts),
            Formula::Or(parts) => are_true(parts.items(), 1, events, facts),
            Formula::AtLeast(least, parts) => are_true(
                parts.items(),
                *least as usize,
                events,
                facts,
            ),
        }
    }

    /// Whether each number in the formula is one of so many facts, or of so many events.
    #[cycle(range)]
    pub fn is_in_range(&self, facts: usize, events: usize) -> bool
        ensures { result ≡ in_range facts events self.now }
    {
        match self {
            Formula::True => true,
            Formula::Event(number) => (*number as usize) < events,
            Formula::Fact(number) => (*number as usize) < facts,
            Formula::And(parts) | Formula::Or(parts) | Formula::AtLeast(_, parts) => {
                are_in_range(parts.items(), facts, events)
            }
        }
    }
}

// Whether at least so many of the places are true.
#[cycle(truth)]
fn are_true<S: Numbers>(parts: &[Formula], least: usize, events: &Bits, facts: &S) -> bool
    ensures { result
        ≡ nat_le least (count_true (map (truth (member events.now) (S.set facts.now)) parts.now)) }
{
    let mut count = 0;
    for part in parts {
        if part.is_true(events, facts) {
            count += 1;
        }
    }
    count >= least
}

// Whether each number in these formulas is in range.
#[cycle(range)]
fn are_in_range(parts: &[Formula], facts: usize, events: usize) -> bool
    ensures { result ≡ list_all (λ part. part) (map (in_range facts events) parts.now) }
{
    for part in parts {
        if !part.is_in_range(facts, events) {
            return false;
        }
    }
    true
}

/// A fact: its name, the number of the component that owns it, and the formula that makes it hold.
#[derive(Drop)]
pub struct FactInfo {
    pub name: Name,
    pub owner: u32,
    pub formula: Formula,
}

/// An event: its name, the number of the component that owns it, and the names by which rates are found.
#[derive(Drop)]
pub struct EventInfo {
    pub name: Name,
    pub owner: u32,
    pub key: List<Name>,
}
