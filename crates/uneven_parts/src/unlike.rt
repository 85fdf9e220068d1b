//! States of parts that do not occur in a formula of the component around them, though the same state of a part of the same kind does.

ghost use Rattle.std.specs.Prelude.{◌≡◌, ◌++◌, ◌||◌, ℕ, IfOk, OnOk, filter, nat_eq, not, take};
ghost use Rattle.std.specs.HashMap.{get};
ghost use Rattle.std.specs.HashSet.{contains};
ghost use Rattle.std.specs.List.{list_any};
ghost use Rattle.plain_values.specs.Numbered.{numbered_from};
ghost use Rattle.uneven_parts.specs.Unlike.{Likeness as Common, is_own, likeness_at, member_with, missing, same_likeness, unlike_among, unlike_by, unlike_in, unlike_states, unlike_with};
ghost use Rattle.uneven_parts.specs.inner.Tables.{KnowsLikenesses, KnowsMembers, KnowsNumbers, row_at};

use crate::parts::Parts;
use crate::places::parts_in;
use crate::rows::{add, at};
use fault_system::{FactInfo, FaultSystem};
use instantiator::Instance;
use model_facts::FactKey;
use plain_values::{List, Mem};
use std::alloc::{AllocError, Global};
use std::collections::{HashMap, HashSet};

/// A state of a part that does not occur in the formula of a fact, though that of a part of the same kind does, by the numbers of the facts.
#[derive(Clone, Copy)]
pub struct UnlikeState {
    pub state: u32,
    pub fact: u32,
}

/// What parts have in common: the component around them, their kind, and a state that each has.
type Likeness = (u32, usize, u32);

/// The states of parts that do not occur in a formula of the component around them, though the same state of a part of the same kind does: for
/// each fact in order, by the places in its formula.
pub fn unlike_states<'i>(
    alloc: Global,
    instance: &'i Instance<'i, 'i>,
    system: &FaultSystem,
    facts: &[FactKey],
) -> Mem<List<UnlikeState>>
    ensures { IfOk result (λ states. states ≡ unlike_states instance.now system.now facts.now) }
{
    let parts = Parts::of(alloc, instance)?;
    let rows = members_of(alloc, &parts, facts)?;
    all_unlike(alloc, &parts, system, facts, &rows, system.fact_infos())
}

/// The facts that have something in common, by what they have in common.
fn members_of(alloc: Global, parts: &Parts, facts: &[FactKey]) -> Mem<HashMap<Likeness, List<u32>>>
    ensures { IfOk result (λ rows. KnowsMembers parts.now facts.now (get same_likeness rows)) }
{
    let mut rows = HashMap::new(alloc);
    for (number, fact) in facts.iter().enumerate() {
        add_member(alloc, &mut rows, parts, number, *fact)?;
    }
    Ok(rows)
}

/// Adds the fact of a number to the row of what it has in common with others, if it has something.
fn add_member(
    alloc: Global,
    rows: &mut HashMap<Likeness, List<u32>>,
    parts: &Parts,
    number: usize,
    fact: FactKey,
) -> Mem<()>
    ensures { OnOk result ((one : Common) → row_at (get same_likeness rows.new one) ≡ row_at (get same_likeness rows.old one) ++ member_with parts.now one number fact) }
{
    if number > 4_294_967_295 {
        return Err(AllocError);
    }
    match parts.likeness(fact) {
        Some(own) => add(alloc, rows, own, number as u32),
        None => Ok(()),
    }
}

/// What is unlike in the formulas of some facts, which are numbered from 0.
fn all_unlike(
    alloc: Global,
    parts: &Parts,
    system: &FaultSystem,
    keys: &[FactKey],
    rows: &HashMap<Likeness, List<u32>>,
    facts: &[FactInfo],
) -> Mem<List<UnlikeState>>
    requires { KnowsMembers parts.now keys.now (get same_likeness rows.now) }
    ensures { IfOk result (λ found. found ≡ numbered_from (unlike_in parts.now system.now keys.now) 0 facts.now) }
{
    let mut found = List::new(alloc);
    for (number, fact) in facts.iter().enumerate() {
        add_in(alloc, &mut found, parts, system, keys, rows, number, fact)?;
    }
    Ok(found)
}

/// Adds what is unlike in the formula of the fact of a number.
fn add_in(
    alloc: Global,
    found: &mut List<UnlikeState>,
    parts: &Parts,
    system: &FaultSystem,
    keys: &[FactKey],
    rows: &HashMap<Likeness, List<u32>>,
    number: usize,
    fact: &FactInfo,
) -> Mem<()>
    requires { KnowsMembers parts.now keys.now (get same_likeness rows.now) }
    ensures { OnOk result (found.new ≡ found.old ++ unlike_in parts.now system.now keys.now number fact.now) }
{
    if number > 4_294_967_295 {
        return Err(AllocError);
    }
    let places = parts_in(alloc, parts, system, fact.owner, &fact.formula)?;
    add_among(
        alloc,
        found,
        parts,
        keys,
        rows,
        number as u32,
        places.items(),
    )
}

/// Adds what is unlike in the formula of a fact in which facts of parts stand at these places.
fn add_among(
    alloc: Global,
    found: &mut List<UnlikeState>,
    parts: &Parts,
    keys: &[FactKey],
    rows: &HashMap<Likeness, List<u32>>,
    fact: u32,
    places: &[u32],
) -> Mem<()>
    requires { KnowsMembers parts.now keys.now (get same_likeness rows.now) }
    ensures { OnOk result (found.new ≡ found.old ++ unlike_among parts.now keys.now fact places.now) }
{
    let occurring = numbers_of(alloc, places)?;
    let mut seen = HashSet::new(alloc);
    for (place, number) in places.iter().enumerate() {
        let own = likeness_at(parts, keys, *number);
        add_at(
            found, parts, keys, rows, &occurring, &seen, fact, places, place, own,
        )?;
        insert_some(&mut seen, own)?;
    }
    Ok(())
}

/// These numbers.
fn numbers_of(alloc: Global, numbers: &[u32]) -> Mem<HashSet<u32>>
    ensures { IfOk result (λ set. KnowsNumbers numbers.now (contains nat_eq set)) }
{
    let mut set = HashSet::new(alloc);
    for number in numbers {
        set.insert(*number)?;
    }
    Ok(set)
}

/// What the fact of a number has in common with others.
fn likeness_at(parts: &Parts, keys: &[FactKey], number: u32) -> Option<Likeness>
    ensures { result ≡ likeness_at parts.now keys.now number }
{
    let key = keys.get(number as usize)?;
    parts.likeness(*key)
}

/// Puts what a fact has in common with others into a set, if it has something.
fn insert_some(seen: &mut HashSet<Likeness>, own: Option<Likeness>) -> Mem<()>
    ensures { OnOk result ((one : Common) → contains same_likeness seen.new one ≡ contains same_likeness seen.old one || is_own own one) }
{
    match own {
        Some(own) => {
            seen.insert(own)?;
            Ok(())
        }
        None => Ok(()),
    }
}

/// Adds what is unlike by the fact at a place, which has this in common with others, where these facts stand at places, and what is seen is what the
/// facts before have in common.
fn add_at(
    found: &mut List<UnlikeState>,
    parts: &Parts,
    keys: &[FactKey],
    rows: &HashMap<Likeness, List<u32>>,
    occurring: &HashSet<u32>,
    seen: &HashSet<Likeness>,
    fact: u32,
    places: &[u32],
    place: usize,
    own: Option<Likeness>,
) -> Mem<()>
    requires rows { KnowsMembers parts.now keys.now (get same_likeness rows.now) }
    requires occurring { KnowsNumbers places.now (contains nat_eq occurring.now) }
    requires seen { KnowsLikenesses parts.now keys.now (take place places.now) (contains same_likeness seen.now) }
    ensures { OnOk result (found.new ≡ found.old ++ unlike_by parts.now keys.now places.now fact place own) }
{
    match own {
        Some(own) => {
            if seen.contains(&own) {
                return Ok(());
            }
            add_missing(found, parts, keys, rows, occurring, fact, places, own)
        }
        None => Ok(()),
    }
}

/// Adds those that have this in common, and do not occur.
fn add_missing(
    found: &mut List<UnlikeState>,
    parts: &Parts,
    keys: &[FactKey],
    rows: &HashMap<Likeness, List<u32>>,
    occurring: &HashSet<u32>,
    fact: u32,
    places: &[u32],
    own: Likeness,
) -> Mem<()>
    requires rows { KnowsMembers parts.now keys.now (get same_likeness rows.now) }
    requires occurring { KnowsNumbers places.now (contains nat_eq occurring.now) }
    ensures { OnOk result (found.new ≡ found.old ++ unlike_with fact (missing parts.now keys.now places.now own)) }
{
    let _ = parts;
    let _ = keys;
    add_others(found, occurring, fact, places, at(rows, own))
}

/// Adds those of these numbers that do not occur.
fn add_others(
    found: &mut List<UnlikeState>,
    occurring: &HashSet<u32>,
    fact: u32,
    places: &[u32],
    members: &[u32],
) -> Mem<()>
    requires { KnowsNumbers places.now (contains nat_eq occurring.now) }
    ensures { OnOk result (found.new ≡ found.old ++ unlike_with fact (filter (λ number. not (list_any (λ place. nat_eq place number) places.now)) members.now)) }
{
    let _ = places;
    for state in members {
        let one = UnlikeState {
            state: *state,
            fact,
        };
        found.push_if(one, !occurring.contains(state))?;
    }
    Ok(())
}
