//! The minimal cut sets of a target: first those of one event, and then all others, in a system without these events.

ghost use Rattle.std.specs.Prelude.{◌≡◌, ◌<◌, ◌⊎◌, ℕ, List, Some, IfOk, IfSome, IsTrue, length};
ghost use Rattle.fault_system.specs.Truth.{Has, member};
ghost use Rattle.fault_system.specs.Listings.{IsWithinOrder};
ghost use Rattle.zdd_store.specs.inner.Family.{IsAntichain};
ghost use Rattle.zdd_store.specs.inner.Store.{IsIn, family_of, Keeps};
ghost use Rattle.zdd_families.specs.inner.Unions.{HasMinimalSets, IsInEither};
ghost use Rattle.backward_slice.specs.Slices.{IsSlice};
ghost use Rattle.cutset_engine.specs.inner.Families.{HasAsked, HasMinimalCutSets, IsAskedOfSlice};
ghost use Rattle.cutset_engine.specs.inner.ThinSystems.{AreSingles};

use crate::families::{first_family, raced_family};
use crate::setting::Asked;
use crate::thinning::thinned;
use crate::unfound::Unfound;
use backward_slice::{Slice, slice};
use dependency_blocks::blocks;
use fault_system::{Bits, FaultSystem};
use plain_values::{Mem, Stop};
use std::alloc::{AllocError, Global};
use zdd_families::{look, min_union};
use zdd_store::{Id, Node, Store};

/// The minimal cut sets that are asked for, as a family of sets of event numbers.
///
/// Where they are not found at once, the sets of one event are found first. The others have none of these events, and none needs the
/// target on the way to the target: so they are found in a smaller system. Each number of the store keeps its family, also where
/// memory is refused. It is not given up, since there are fewer rounds of tries than are allowed.
pub fn family(alloc: Global, asked: &Asked<'_>, store: &mut Store) -> Mem<Id>
    requires { IsAskedOfSlice asked.now }
    ensures found { IfOk result (IsIn store.new) }
    ensures exact { IfOk result (λ id. HasAsked asked.now (family_of store.new id)) }
    ensures kept { Keeps store.old store.new }
{
    match family_in_rounds(alloc, asked, u32::MAX, store) {
        Ok(id) => Ok(id),
        Err(_) => Err(AllocError),
    }
}

/// The same, given up after so many rounds of tries, each of which may remember sixteen times as much as those of the round before.
pub fn family_in_rounds(
    alloc: Global,
    asked: &Asked<'_>,
    rounds: u32,
    store: &mut Store,
) -> Result<Id, Unfound>
    requires { IsAskedOfSlice asked.now }
    ensures found { IfOk result (IsIn store.new) }
    ensures exact { IfOk result (λ id. HasAsked asked.now (family_of store.new id)) }
    ensures kept { Keeps store.old store.new }
{
    if let Ok(id) = first_family(alloc, asked, store) {
        return Ok(id);
    }
    if allows_one(asked.most) {
        return ones_first(alloc, asked, rounds, store);
    }
    raced_family(alloc, asked, rounds, store)
}

/// Whether sets of one event are asked for.
fn allows_one(most: Option<u32>) -> bool
    ensures { IsTrue result → (set : List ℕ) → IsWithinOrder (Some 1) set → IsWithinOrder most set }
{
    match most {
        Some(most) => most > 0,
        None => true,
    }
}

/// The events of the sets of a family that have one event each.
fn single_events(alloc: Global, store: &Store, events: u32, id: Id) -> Mem<Bits>
    requires { IsIn store.now id }
    ensures { IfOk result (AreSingles (family_of store.now id)) }
{
    store.laws();
    let mut alone = Bits::new(alloc, events)?;
    let mut at = id;
    for step in 0..u64::MAX {
        let Some(node) = look(store, at) else {
            return Ok(alone);
        };
        put_single(&mut alone, node);
        at = node.lo;
    }
    Ok(alone)
}

/// Puts the variable of a node into a set of numbers, if it is a set of the node's family alone.
fn put_single(alone: &mut Bits, node: Node)
    ensures { (n : ℕ) → Has (member alone.new) n → Has (member alone.old) n ⊎ ((n ≡ node.var) × (node.hi.position ≡ 1)) }
{
    if node.hi.position == 1 && node.var < alone.size() {
        alone.put(node.var);
    }
}

/// The minimal cut sets of the target, where sets of one event are asked for.
fn ones_first(
    alloc: Global,
    asked: &Asked<'_>,
    rounds: u32,
    store: &mut Store,
) -> Result<Id, Unfound>
    requires slice { IsAskedOfSlice asked.now }
    requires allowed { (set : List ℕ) → IsWithinOrder (Some 1) set → IsWithinOrder asked.now.most set }
    ensures found { IfOk result (IsIn store.new) }
    ensures exact { IfOk result (λ id. HasAsked asked.now (family_of store.new id)) }
    ensures kept { Keeps store.old store.new }
{
    let single = Asked {
        system: asked.system,
        slice: asked.slice,
        blocks: asked.blocks,
        most: Some(1),
    };
    let ones = raced_family(alloc, &single, u32::MAX, store)?;
    let alone = single_events(alloc, store, asked.system.events(), ones)?;
    with_others(alloc, asked, rounds, ones, &alone, store)
}

/// The minimal cut sets of the target, where those of one event are known.
fn with_others(
    alloc: Global,
    asked: &Asked<'_>,
    rounds: u32,
    ones: Id,
    alone: &Bits,
    store: &mut Store,
) -> Result<Id, Unfound>
    requires slice { IsAskedOfSlice asked.now }
    requires allowed { (set : List ℕ) → IsWithinOrder (Some 1) set → IsWithinOrder asked.now.most set }
    requires ones_in { IsIn store.old ones }
    requires ones { HasMinimalCutSets asked.now.system.now asked.now.slice.now.target (Some 1) (family_of store.old ones) }
    requires alone { AreSingles (family_of store.old ones) alone.now }
    ensures found { IfOk result (IsIn store.new) }
    ensures exact { IfOk result (λ id. HasAsked asked.now (family_of store.new id)) }
    ensures kept { Keeps store.old store.new }
{
    let target = asked.slice.target;
    let thin = thinned(alloc, asked.system, alone, target)?;
    let others = sliced_family(alloc, &thin, target, asked.most, rounds, store)?;
    match others {
        Some(rest) => Ok(joined(store, ones, rest)?),
        None => raced_family(alloc, asked, rounds, store),
    }
}

/// The minimal sets of two families, of which the second has minimal sets alone, so that none is looked for in it.
fn joined(store: &mut Store, ones: Id, rest: Id) -> Mem<Id>
    requires ones_in { IsIn store.old ones }
    requires rest_in { IsIn store.old rest }
    requires apart { IsAntichain (family_of store.old rest) }
    ensures found { IfOk result (IsIn store.new) }
    ensures minimal { IfOk result (λ id. HasMinimalSets (family_of store.new id) (IsInEither (family_of store.old ones) (family_of store.old rest))) }
    ensures kept { Keeps store.old store.new }
{
    store.note_apart(rest);
    min_union(store, ones, rest)
}

/// The minimal cut sets of a target of a system, found in its slice; none where this is too large.
fn sliced_family(
    alloc: Global,
    system: &FaultSystem,
    target: u32,
    most: Option<u32>,
    rounds: u32,
    store: &mut Store,
) -> Result<Option<Id>, Unfound>
    requires { target < length system.now.facts }
    ensures found { IfOk result (λ answer. IfSome answer (IsIn store.new)) }
    ensures exact { IfOk result (λ answer. IfSome answer (λ id. HasMinimalCutSets system.now target most (family_of store.new id))) }
    ensures kept { Keeps store.old store.new }
{
    store.laws();
    match slice(alloc, system, target) {
        Ok(part) => Ok(Some(part_family(alloc, system, &part, most, rounds, store)?)),
        Err(Stop::Refused(_)) => Ok(None),
        Err(Stop::Memory) => Err(Unfound::Memory),
    }
}

/// The minimal cut sets of the target of a slice of a system.
fn part_family(
    alloc: Global,
    system: &FaultSystem,
    part: &Slice,
    most: Option<u32>,
    rounds: u32,
    store: &mut Store,
) -> Result<Id, Unfound>
    requires { IsSlice system.now part.now.target part.now }
    ensures found { IfOk result (IsIn store.new) }
    ensures exact { IfOk result (λ id. HasMinimalCutSets system.now part.now.target most (family_of store.new id)) }
    ensures kept { Keeps store.old store.new }
{
    let blocks = blocks(alloc, system, part)?;
    let asked = Asked {
        system,
        slice: part,
        blocks: &blocks,
        most,
    };
    raced_family(alloc, &asked, rounds, store)
}
