//! The first set of a family, and the first minimal cut set that contains none of some sets.

ghost use Rattle.std.specs.Prelude.{◌≡◌, ◌++◌, ◌∷◌, ◌<◌, ◌≤◌, ℕ, [], List as Items, Contains, IfOk, OnOk, MatchOption};
ghost use Rattle.std.specs.List.{AllByRecursion};
ghost use Rattle.zdd_store.specs.inner.Family.{Family, IsRising};
ghost use Rattle.zdd_store.specs.inner.Store.{IsIn, Keeps, family_of};
ghost use Rattle.requirement_verdicts.specs.Meanings.{HoldsAnyway};
ghost use Rattle.requirement_verdicts.specs.Verdicts.{IsFirstMinimal};
ghost use Rattle.requirement_verdicts.specs.inner.Verdicts.{HasNoMinimal};
ghost use Rattle.forbidden_sets.specs.inner.Families.{AreFound, HasSizes, IsFirstOf, IsHead, IsJudged, IsOther};

use crate::families::other_sets;
use crate::found::FoundFamily;
use crate::judged::Judged;
use plain_values::{List, Mem};
use std::alloc::Global;
use zdd_families::{look, of_size};
use zdd_store::{Id, Store};

/// Of the minimal cut sets of at most so many events the first, in listing order, that contains none of these sets.
///
/// Orders are tried from the least on, each half as great again as the one before it, so that few sets are found where one of few events
/// serves, and few orders are tried where none does.
pub(crate) fn first_other(
    alloc: Global,
    judged: &Judged<'_>,
    parts: &[List<u32>],
    most: u32,
    families: &mut List<FoundFamily>,
    store: &mut Store,
) -> Mem<Option<List<u32>>>
    requires slice { IsJudged judged.now }
    requires families { AreFound judged.now.system.now store.old families.old }
    requires rising { AllByRecursion IsRising parts.now }
    requires some { HoldsAnyway judged.now.system.now judged.now.slice.now.target → ⊥ }
    ensures first { IfOk result (λ found. MatchOption found
        (HasNoMinimal judged.now.system.now judged.now.slice.now.target (IsOther parts.now most))
        (IsFirstMinimal judged.now.system.now judged.now.slice.now.target (IsOther parts.now most))) }
    ensures kept { Keeps store.old store.new }
    ensures families { AreFound judged.now.system.now store.new families.new }
{
    let mut tried = 0;
    while tried < most {
        let order = next_order(tried, most);
        let found = first_within(alloc, judged, parts, order, families, store)?;
        if let Some(set) = found {
            return Ok(Some(set));
        }
        tried = order;
    }
    Ok(None)
}

/// The same, where all sets of at most so many events are found.
fn first_within(
    alloc: Global,
    judged: &Judged<'_>,
    parts: &[List<u32>],
    order: u32,
    families: &mut List<FoundFamily>,
    store: &mut Store,
) -> Mem<Option<List<u32>>>
    requires slice { IsJudged judged.now }
    requires families { AreFound judged.now.system.now store.old families.old }
    requires rising { AllByRecursion IsRising parts.now }
    requires some { HoldsAnyway judged.now.system.now judged.now.slice.now.target → ⊥ }
    ensures first { IfOk result (λ found. MatchOption found
        (HasNoMinimal judged.now.system.now judged.now.slice.now.target (IsOther parts.now order))
        (IsFirstMinimal judged.now.system.now judged.now.slice.now.target (IsOther parts.now order))) }
    ensures kept { Keeps store.old store.new }
    ensures families { AreFound judged.now.system.now store.new families.new }
{
    let id = other_sets(alloc, judged, order, parts, families, store)?;
    smallest(alloc, store, id, order)
}

/// A greater order, half as great again, but not above the greatest.
fn next_order(tried: u32, most: u32) -> u32
    requires { tried < most }
    ensures more { tried < result }
    ensures most { result ≤ most }
{
    let next = tried.saturating_add(tried / 2).saturating_add(1);
    next.min(most)
}

/// The first set, in listing order, of a family whose sets have some numbers, and at most so many; none where it has no set.
pub(crate) fn smallest(
    alloc: Global,
    store: &mut Store,
    id: Id,
    most: u32,
) -> Mem<Option<List<u32>>>
    requires found { IsIn store.old id }
    requires sizes { HasSizes most (family_of store.old id) }
    ensures first { IfOk result (λ found. MatchOption found
        ((set : Items ℕ) → Contains (family_of store.old id) set → ⊥)
        (IsFirstOf (family_of store.old id))) }
    ensures kept { Keeps store.old store.new }
{
    for size in 0..most {
        let part = of_size(store, id, size + 1)?;
        let found = head_of(alloc, store, part)?;
        if let Some(set) = found {
            return Ok(Some(set));
        }
    }
    Ok(None)
}

/// The set that stands first in a family; none where it has no set.
fn head_of(alloc: Global, store: &Store, id: Id) -> Mem<Option<List<u32>>>
    requires { IsIn store.now id }
    ensures { IfOk result (λ found. MatchOption found (family_of store.now id ≡ []) (IsHead (family_of store.now id))) }
{
    store.laws();
    if id.position == 0 {
        return Ok(None);
    }
    let mut set = List::new(alloc);
    push_first(store, id, &mut set)?;
    Ok(Some(set))
}

/// Adds the numbers of the first set of a family that has one. It goes as deep as this has numbers.
fn push_first(store: &Store, id: Id, set: &mut List<u32>) -> Mem<()>
    requires found { IsIn store.now id }
    requires some { 0 < id.position }
    ensures { OnOk result ((first : Items ℕ) × (others : Family) × (set.new ≡ set.old ++ first) × (family_of store.now id ≡ first ∷ others)) }
{
    store.laws();
    let Some(node) = look(store, id) else {
        return Ok(());
    };
    set.push(node.var)?;
    push_first(store, node.hi, set)?;
    Ok(())
}
