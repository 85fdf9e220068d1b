//! The order of the steps: by round, and then by the number of the fact.
ghost use Rattle.std.specs.Prelude.{◌≡◌, ◌+◌, ◌<◌, ◌^◌, ◌%◌, ◌++◌, ◌∷◌, [], ℕ, IfOk, OnOk, cond, length, map, slice_index_or};
ghost use Rattle.std.specs.List.Sorted.{IsStrictlyIncreasing};
ghost use Rattle.fault_system.specs.Truth.{set_of};
ghost use Rattle.derivations.specs.inner.Ordered.{AreKeys, ArePlaces, IsOrder, key_of, place_at};

use crate::gathering::round_of;
use fault_system::Bits;
use plain_values::{List, Mem};
use std::alloc::Global;

/// The marked facts, by round and then by number.
pub(crate) fn order_of(alloc: Global, rounds: &[u32], marks: &Bits) -> Mem<List<u32>>
    ensures { IfOk result (IsOrder rounds.now marks.now) }
{
    let keys = keys_of(alloc, rounds, marks)?;
    let sorted = sorted_keys(keys)?;
    Ok(facts_of_keys(alloc, sorted.items())?)
}

// The keys of the marked facts.
fn keys_of(alloc: Global, rounds: &[u32], marks: &Bits) -> Mem<Vec<u64>>
    ensures few { length marks.now < 2 ^ 32 }
    ensures keys { IfOk result (λ keys. AreKeys rounds.now marks.now (length marks.now) keys.items) }
{
    let mut keys = Vec::new(alloc);
    for fact in 0..marks.size() {
        push_if(&mut keys, key_of(rounds, fact), marks.has(fact))?;
    }
    Ok(keys)
}

// Adds a key, where this is so.
fn push_if(keys: &mut Vec<u64>, key: u64, is_so: bool) -> Mem<()>
    ensures { OnOk result (keys.new.items ≡ keys.old.items ++ cond is_so (key ∷ []) []) }
{
    if is_so {
        keys.push(key)?;
    }
    Ok(())
}

// The key of a fact: its round and its number.
fn key_of(rounds: &[u32], fact: u32) -> u64
    ensures { result ≡ key_of rounds.now fact }
{
    round_of(rounds, fact) as u64 * 4_294_967_296 + fact as u64
}

// Keys, each once and rising.
fn sorted_keys(keys: Vec<u64>) -> Mem<List<u64>>
    ensures rising { IfOk result IsStrictlyIncreasing }
    ensures same { IfOk result (λ list. (n : ℕ) → set_of list n ≡ set_of keys.items n) }
{
    let mut keys = keys;
    keys.sort()?;
    keys.dedup();
    Ok(List::of(keys)?)
}

// The facts of keys.
fn facts_of_keys(alloc: Global, keys: &[u64]) -> Mem<List<u32>>
    ensures { IfOk result (λ facts. facts ≡ map (λ key. key % 2 ^ 32) keys.now) }
{
    let mut facts = List::new(alloc);
    for key in keys {
        facts.push((*key % 4_294_967_296) as u32)?;
    }
    Ok(facts)
}

/// The place of each fact of an order.
pub(crate) fn places_of(alloc: Global, order: &[u32], facts: u32) -> Mem<Vec<u32>>
    requires few { length order.now < 2 ^ 32 }
    requires within { (n : ℕ) → n < length order.now → slice_index_or order.now n 0 < facts }
    requires differ { (m n : ℕ) → m < n → n < length order.now
        → slice_index_or order.now m 0 ≡ slice_index_or order.now n 0 → ⊥ }
    ensures { IfOk result (λ places. ArePlaces order.now places.items) }
{
    let mut places = no_places(alloc, facts)?;
    put_places(order, places.as_mut_slice());
    Ok(places)
}

// Writes the place of each fact of an order.
fn put_places(order: &[u32], places: &mut [u32])
    requires few { length order.now < 2 ^ 32 }
    requires within { (n : ℕ) → n < length order.now → slice_index_or order.now n 0 < length places.old }
    requires differ { (m n : ℕ) → m < n → n < length order.now
        → slice_index_or order.now m 0 ≡ slice_index_or order.now n 0 → ⊥ }
    ensures { ArePlaces order.now places.new }
{
    for (place, fact) in order.iter().enumerate() {
        places[*fact as usize] = place as u32;
    }
}

// A place for each fact.
fn no_places(alloc: Global, facts: u32) -> Mem<Vec<u32>>
    ensures { IfOk result (λ places. length places.items ≡ facts) }
{
    Ok(vec![in alloc; 0u32; facts as usize]?)
}

/// The places of some facts.
pub(crate) fn places_at(alloc: Global, places: &[u32], facts: &[u32]) -> Mem<Vec<u32>>
    ensures { IfOk result (λ found. found.items ≡ map (place_at places.now) facts.now) }
{
    let mut found = Vec::new(alloc);
    for fact in facts {
        found.push(place_at(places, *fact))?;
    }
    Ok(found)
}

// The place of a fact.
fn place_at(places: &[u32], fact: u32) -> u32
    ensures { result ≡ place_at places.now fact }
{
    places.get(fact as usize).copied().unwrap_or(0)
}
