ghost use Rattle.std.specs.Prelude.{◌≡◌, ◌<◌, ◌≤◌, length, All, IfOk, OnOk, IfSome, IfNone, map, [], ◌∷◌};
ghost use Rattle.std.specs.List.{insert};
ghost use Rattle.zdd_store.specs.inner.Family.{IsRising, least_of};
ghost use Rattle.zdd_store.specs.inner.Store.{IsIn, family_of, Keeps};
ghost use Rattle.zdd_families.specs.inner.Unions.{with_number};
ghost use Rattle.family_renaming.specs.inner.Renaming.{AreRenamed};
ghost use Rattle.family_renaming.specs.inner.Lists.{ListsMore, OneMore, HasSets};

use crate::from_top::name;
use crate::variable_order::VariableOrder;
use plain_values::Mem;
use std::alloc::Global;
use zdd_families::look;
use zdd_store::{Id, Store};

/// The place at which a number is to be put into a rising list; none where it stands there.
fn place_in(set: &[u32], number: u32) -> Option<usize>
    ensures none { IfNone result (set.now ≡ with_number number set.now) }
    ensures within { IfSome result (λ place. place ≤ length set.now) }
    ensures some { IfSome result (λ place. insert set.now place number ≡ with_number number set.now) }
{
    for place in 0..set.len() {
        if number == set[place] {
            return None;
        }
        if number < set[place] {
            return Some(place);
        }
    }
    Some(set.len())
}

/// Puts a number at its place in a rising list, where it is not there yet.
fn put(set: &mut Vec<u32>, number: u32) -> Mem<()>
    ensures { OnOk result (set.new.items ≡ with_number number set.old.items) }
{
    match place_in(set.as_slice(), number) {
        Some(place) => {
            set.insert(place, number)?;
            Ok(())
        }
        None => Ok(()),
    }
}

/// A set with one number more.
fn with(alloc: Global, set: &[u32], number: u32) -> Mem<Vec<u32>>
    ensures items { IfOk result (λ more. more.items ≡ with_number number set.now) }
    ensures rising { IsRising set.now → IfOk result (λ more. IsRising more.items) }
{
    let mut more = set.to_vec(alloc)?;
    put(&mut more, number)?;
    Ok(more)
}

/// Lists the sets of a family, each renamed, with the numbers of one set more. It goes as deep as there are variables on a
/// path of the diagram.
fn list_sets(
    alloc: Global,
    store: &Store,
    order: &VariableOrder,
    id: Id,
    set: &[u32],
    sets: &mut Vec<Vec<u32>>,
) -> Mem<()>
    requires id_in { IsIn store.now id }
    requires set_rises { IsRising set.now }
    requires rising { All (λ s. IsRising s.items) sets.old.items }
    ensures rising { All (λ s. IsRising s.items) sets.new.items }
    ensures listed { OnOk result (ListsMore order.now.events set.now (family_of store.now id) (map (λ s. s.items) sets.old.items) (map (λ s. s.items) sets.new.items)) }
{
    store.laws();
    if id == Id::EMPTY {
        return Ok(());
    }
    let Some(node) = look(store, id) else {
        let whole = set.to_vec(alloc)?;
        sets.push(whole)?;
        return Ok(());
    };
    let more = with(alloc, set, name(order.events(), node.var))?;
    list_sets(alloc, store, order, node.hi, more.as_slice(), sets)?;
    list_sets(alloc, store, order, node.lo, set, sets)
}

/// A family with the empty set.
fn with_empty(store: &mut Store, id: Id) -> Mem<Id>
    requires { IsIn store.old id }
    ensures { OneMore store.old store.new [] id result }
{
    store.laws();
    let Some(node) = look(store, id) else {
        return Ok(Id::UNIT);
    };
    let lo = with_empty(store, node.lo)?;
    store.make(node.var, lo, node.hi)
}

/// The first number of a rising list, and the others.
fn first_of(set: &[u32]) -> Option<(u32, &[u32])>
    requires { IsRising set.now }
    ensures none { IfNone result (set.now ≡ []) }
    ensures some { IfSome result (λ p. (set.now ≡ p.0 ∷ p.1.now) × (IsRising p.1.now × (p.0 < least_of p.1.now))) }
{
    if set.is_empty() {
        return None;
    }
    Some((set[0], &set[1..]))
}

/// The family of one set alone.
fn set_alone(store: &mut Store, set: &[u32]) -> Mem<Id>
    requires { IsRising set.now }
    ensures { OneMore store.old store.new set.now (record { position = 0 }) result }
{
    store.laws();
    let Some((first, rest)) = first_of(set) else {
        return Ok(Id::UNIT);
    };
    let hi = set_alone(store, rest)?;
    store.make(first, Id::EMPTY, hi)
}

/// A family with one set more. It goes as deep as there are numbers in the set, and, where the set is not the first one
/// of the family, variables on a path of the diagram.
fn with_set(store: &mut Store, set: &[u32], id: Id) -> Mem<Id>
    requires id_in { IsIn store.old id }
    requires rising { IsRising set.now }
    ensures { OneMore store.old store.new set.now id result }
{
    store.laws();
    let Some((first, rest)) = first_of(set) else {
        return with_empty(store, id);
    };
    match look(store, id) {
        Some(node) if node.var < first => {
            let lo = with_set(store, set, node.lo)?;
            store.make(node.var, lo, node.hi)
        }
        Some(node) if node.var == first => {
            let hi = with_set(store, rest, node.hi)?;
            store.make(node.var, node.lo, hi)
        }
        _ => {
            let hi = set_alone(store, rest)?;
            store.make(first, id, hi)
        }
    }
}

/// The family of the sets of a list. They are put in from the last to the first; where the list is in order, each is
/// then the first set of the family, and it costs as much as it has numbers.
fn family_of_sets(store: &mut Store, sets: &[Vec<u32>]) -> Mem<Id>
    requires { All (λ s. IsRising s.items) sets.now }
    ensures kept { Keeps store.old store.new }
    ensures sets { IfOk result (HasSets store.new (map (λ s. s.items) sets.now)) }
{
    store.laws();
    let mut family = Id::EMPTY;
    let mut at = sets.len();
    while at > 0 {
        at -= 1;
        family = with_set(store, sets[at].as_slice(), family)?;
    }
    Ok(family)
}

/// The sets of a family, each renamed, in order.
fn sorted_sets(alloc: Global, store: &Store, order: &VariableOrder, id: Id) -> Mem<Vec<Vec<u32>>>
    requires { IsIn store.now id }
    ensures rising { IfOk result (λ sets. All (λ s. IsRising s.items) sets.items) }
    ensures renamed { IfOk result
        (λ sets. AreRenamed order.now.events (family_of store.now id) (map (λ s. s.items) sets.items)) }
{
    let mut sets = Vec::new(alloc);
    list_sets(alloc, store, order, id, &[], &mut sets)?;
    sets.sort()?;
    Ok(sets)
}

/// The family renamed, from a list of its sets: it costs little where there are few sets, however large the diagram of
/// the answer is on the way.
pub(crate) fn by_listing(alloc: Global, store: &mut Store, order: &VariableOrder, id: Id) -> Mem<Id>
    requires { IsIn store.old id }
    ensures found { IfOk result (IsIn store.new) }
    ensures renamed { IfOk result
        (λ answer. AreRenamed order.now.events (family_of store.old id) (family_of store.new answer)) }
    ensures kept { Keeps store.old store.new }
{
    let sets = sorted_sets(alloc, store, order, id)?;
    family_of_sets(store, sets.as_slice())
}
