//! Families of the minimal cut sets that a sentence forbids.

ghost use Rattle.std.specs.Prelude.{◌≡◌, ◌↔◌, ◌∷◌, [], true, ℕ, List as Items, Contains, IfOk, IfSome, IsTrue, Some};
ghost use Rattle.std.specs.List.{AllByRecursion};
ghost use Rattle.zdd_store.specs.inner.Family.{IsRising, covers};
ghost use Rattle.zdd_store.specs.inner.Store.{IsIn, Keeps, family_of};
ghost use Rattle.cutset_engine.specs.inner.Families.{HasMinimalCutSets};
ghost use Rattle.forbidden_sets.specs.inner.Families.{AreFound, HasOthers, HasThoseWith, IsJudged};

use crate::found::FoundFamily;
use crate::judged::Judged;
use cutset_engine::{Asked, family};
use plain_values::{List, Mem};
use std::alloc::Global;
use zdd_families::{single, wide_union, without};
use zdd_store::{Id, Store};

/// The minimal cut sets, of at most so many events where that is given. They are looked for once for each target and greatest order.
fn cut_sets(
    alloc: Global,
    judged: &Judged<'_>,
    most: Option<u32>,
    families: &mut List<FoundFamily>,
    store: &mut Store,
) -> Mem<Id>
    requires slice { IsJudged judged.now }
    requires families { AreFound judged.now.system.now store.old families.old }
    ensures found { IfOk result (IsIn store.new) }
    ensures exact { IfOk result (λ id. HasMinimalCutSets judged.now.system.now judged.now.slice.now.target most (family_of store.new id)) }
    ensures kept { Keeps store.old store.new }
    ensures families { AreFound judged.now.system.now store.new families.new }
{
    let target = judged.slice.target;
    if let Some(id) = found_family(families.items(), target, most) {
        return Ok(id);
    }
    let id = new_family(alloc, judged, most, store)?;
    families.push(FoundFamily { target, most, id })?;
    Ok(id)
}

/// The family that was found of a target for this greatest order, if one was.
fn found_family(families: &[FoundFamily], target: u32, most: Option<u32>) -> Option<Id>
    ensures { IfSome result (λ id. Contains families.now (record { target = target; most = most; id = id })) }
{
    for one in families {
        if one.target == target && is_same_order(one.most, most) {
            return Some(one.id);
        }
    }
    None
}

/// Whether two greatest orders are one; none is one of its own.
fn is_same_order(one: Option<u32>, other: Option<u32>) -> bool
    ensures { IsTrue result → one ≡ other }
{
    match one {
        Some(one) => is_order(one, other),
        None => other.is_none(),
    }
}

/// Whether this is the greatest order that is given.
fn is_order(one: u32, other: Option<u32>) -> bool
    ensures { IsTrue result → Some one ≡ other }
{
    match other {
        Some(other) => one == other,
        None => false,
    }
}

/// The minimal cut sets, of at most so many events where that is given.
fn new_family(alloc: Global, judged: &Judged<'_>, most: Option<u32>, store: &mut Store) -> Mem<Id>
    requires { IsJudged judged.now }
    ensures found { IfOk result (IsIn store.new) }
    ensures exact { IfOk result (λ id. HasMinimalCutSets judged.now.system.now judged.now.slice.now.target most (family_of store.new id)) }
    ensures kept { Keeps store.old store.new }
{
    let asked = Asked {
        system: judged.system,
        slice: judged.slice,
        blocks: judged.blocks,
        most,
    };
    family(alloc, &asked, store)
}

/// The minimal cut sets of at most so many events that contain none of these sets.
pub(crate) fn other_sets(
    alloc: Global,
    judged: &Judged<'_>,
    most: u32,
    parts: &[List<u32>],
    families: &mut List<FoundFamily>,
    store: &mut Store,
) -> Mem<Id>
    requires slice { IsJudged judged.now }
    requires rising { AllByRecursion IsRising parts.now }
    requires families { AreFound judged.now.system.now store.old families.old }
    ensures found { IfOk result (IsIn store.new) }
    ensures exact { IfOk result (λ id. HasOthers judged.now.system.now judged.now.slice.now.target most parts.now (family_of store.new id)) }
    ensures kept { Keeps store.old store.new }
    ensures families { AreFound judged.now.system.now store.new families.new }
{
    let sets = cut_sets(alloc, judged, Some(most), families, store)?;
    let all = sets_family(store, parts)?;
    let id = without(store, sets, all)?;
    Ok(id)
}

/// A family that covers what contains one of these sets.
fn sets_family(store: &mut Store, sets: &[List<u32>]) -> Mem<Id>
    requires { AllByRecursion IsRising sets.now }
    ensures found { IfOk result (IsIn store.new) }
    ensures covers { IfOk result (λ id. (set : Items ℕ) → covers (family_of store.new id) set ≡ covers sets.now set) }
    ensures kept { Keeps store.old store.new }
{
    store.laws();
    let mut all = Id::EMPTY;
    for set in sets {
        let one = set_family(store, set.items())?;
        let more = wide_union(store, all, one)?;
        all = more;
    }
    Ok(all)
}

/// The family of one set.
fn set_family(store: &mut Store, set: &[u32]) -> Mem<Id>
    requires { IsRising set.now }
    ensures found { IfOk result (IsIn store.new) }
    ensures family { IfOk result (λ id. family_of store.new id ≡ set.now ∷ []) }
    ensures kept { Keeps store.old store.new }
{
    store.laws();
    let Some((first, rest)) = set.split_first() else {
        return Ok(Id::UNIT);
    };
    let hi = set_family(store, rest)?;
    let id = store.make(*first, Id::EMPTY, hi)?;
    Ok(id)
}

/// The minimal cut sets that have an event.
pub(crate) fn sets_with(
    alloc: Global,
    judged: &Judged<'_>,
    event: u32,
    families: &mut List<FoundFamily>,
    store: &mut Store,
) -> Mem<Id>
    requires slice { IsJudged judged.now }
    requires families { AreFound judged.now.system.now store.old families.old }
    ensures found { IfOk result (IsIn store.new) }
    ensures exact { IfOk result (λ id. HasThoseWith judged.now.system.now judged.now.slice.now.target event (family_of store.new id)) }
    ensures kept { Keeps store.old store.new }
    ensures families { AreFound judged.now.system.now store.new families.new }
{
    let all = cut_sets(alloc, judged, None, families, store)?;
    let one = single(store, event)?;
    let others = without(store, all, one)?;
    let id = without(store, all, others)?;
    Ok(id)
}
