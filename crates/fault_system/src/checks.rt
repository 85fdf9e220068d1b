ghost use Rattle.std.specs.Prelude.{◌≡◌, ◌↔◌, ◌<◌, All, IsTrue, IfOk, IfSome, MatchOption, length, map, position, true};
ghost use Rattle.plain_values.specs.Name.{is_same_text};
ghost use Rattle.fault_system.specs.Truth.{in_range};
ghost use Rattle.fault_system.specs.Systems.{IsSystem, NamesDiffer};

use crate::formula::{EventInfo, FactInfo};
use indexmap::IndexSet;
use plain_values::Mem;
use std::alloc::Global;
use std::marker::Model;

/// What has a name.
pub trait Named {
    ghost use Rattle.std.specs.Prelude.{◌≡◌, List, ℕ};

    ghost name_of: { Self → List ℕ };

    /// The name.
    fn name(&self) -> &[u8]
        ensures { result.now ≡ name_of self.now };
}

impl Named for FactInfo {
    ghost name_of = { λ fact. fact.name };

    fn name(&self) -> &[u8] {
        self.name.items()
    }
}

impl Named for EventInfo {
    ghost name_of = { λ event. event.name };

    fn name(&self) -> &[u8] {
        self.name.items()
    }
}

/// Names of which no two are the same. Contracts see them as the list of these names.
#[derive(Drop)]
pub struct Names<'a> {
    set: IndexSet<&'a [u8]>,
}

impl<'a> Model for Names<'a> {
    ghost use Rattle.std.specs.Prelude.{ℕ, List, map};

    ghost Value = { List (List ℕ) };

    ghost view = { λ names. map (λ name. name.now) names.set.keys };
}

impl<'a> Names<'a> {
    /// The names of these; none where two share one. The time goes with the length of the names.
    pub fn of<T: Named>(alloc: Global, items: &'a [T]) -> Mem<Option<Names<'a>>>
        ensures { IfOk result (λ found. MatchOption found (NamesDiffer (map T.name_of items.now) → ⊥)
            (λ names. NamesDiffer (map T.name_of items.now) × (names ≡ map T.name_of items.now))) }
    {
        let mut set = IndexSet::new(alloc);
        for (i, item) in items.iter().enumerate() {
            let (_, is_new) = set.insert_full(item.name())?;
            if !is_new {
                return Ok(None);
            }
        }
        Ok(Some(Names { set }))
    }

    /// How many names there are.
    pub fn len(&self) -> usize
        ensures { result ≡ length self.now }
    {
        self.set.len()
    }

    /// The place of a name, from 0; none where it is not one of these.
    pub fn place(&self, name: &[u8]) -> Option<usize>
        ensures place { result ≡ position (λ other. is_same_text other name.now) self.now }
        ensures within { IfSome result (λ place. place < length self.now) }
    {
        self.set.get_index_of(name)
    }
}

/// Whether facts and events make a system: each number in a formula is in range, no two facts share a name, and no
/// two events do.
pub fn is_system(alloc: Global, facts: &[FactInfo], events: &[EventInfo]) -> Mem<bool>
    ensures { IfOk result (λ yes. IsTrue yes ↔ IsSystem (record { facts = facts.now; events = events.now })) }
{
    let facts_differ = names_differ(alloc, facts)?;
    let events_differ = names_differ(alloc, events)?;
    Ok(are_ranged(facts, events.len()) && facts_differ && events_differ)
}

fn are_ranged(facts: &[FactInfo], events: usize) -> bool
    ensures { IsTrue result
        ↔ All (λ fact. in_range (length facts.now) events fact.formula ≡ true) facts.now }
{
    let count = facts.len();
    facts
        .iter()
        .all(|fact| fact.formula.is_in_range(count, events))
}

/// Whether no two of these share a name.
pub fn names_differ<T: Named>(alloc: Global, items: &[T]) -> Mem<bool>
    ensures { IfOk result (λ yes. IsTrue yes ↔ NamesDiffer (map T.name_of items.now)) }
{
    let names = Names::of(alloc, items)?;
    Ok(names.is_some())
}
