//! What is counted of a family on its diagram, where each node is looked at once, however many sets there are.

ghost use Rattle.std.specs.Prelude.{◌≡◌, ◌+◌, ◌<◌, ◌≤◌, ◌++◌, ◌∷◌, [], ℕ, IfSome, Some, length, slice_get, true, vec_len};
ghost use Rattle.zdd_store.specs.inner.Store.{Families, IsIn, Keeps, family_at, family_of, family_with};
ghost use Rattle.fta_outside.specs.Counts.{AreCounts, AreCountsOf, AreMarks, HaveWidth, capped, count_of, has_event, has_size};
ghost use Rattle.cut_reports.specs.inner.Diagram.{AreBelow, IsSpread, PassedOn};

use crate::counting::{add_at, no_counts};
use crate::singles::{mark_at, no_marks};
use fta_outside::FamilyCounts;
use std::alloc::Global;
use zdd_families::{look, of_size};
use zdd_store::{Id, Node, Store};

/// The count of a number's position, if it stands there already.
fn count_at(counts: &[u64], id: Id) -> Option<u64>
    ensures { result ≡ slice_get counts.now id.position }
{
    counts.get(id.position as usize).copied()
}

/// How many sets a node has, by the counts of its children; none where these do not stand before it.
fn node_count(counts: &[u64], node: Node) -> Option<u64>
    ensures { (store : Families) → AreBelow store counts.now → IfSome result (λ count. count ≡ capped (length (family_with store node))) }
{
    let Some(lo) = count_at(counts, node.lo) else {
        return None;
    };
    let Some(hi) = count_at(counts, node.hi) else {
        return None;
    };
    Some(lo.saturating_add(hi))
}

/// How many sets the first number has of which there is no count yet.
#[tactic(auto, using(crate::proofs::Spreading::first_counts, crate::proofs::Spreading::next_node))]
fn next_count(store: &Store, counts: &[u64]) -> Option<u64>
    requires below { AreBelow store.now counts.now }
    ensures { IfSome result (λ count. count ≡ capped (length (family_at store.now (length counts.now)))) }
{
    store.laws();
    let position = counts.len();
    if position < 2 {
        return Some(position as u64);
    }
    if position > u32::MAX as usize {
        return None;
    }
    let id = Id {
        position: position as u32,
    };
    let Some(node) = look(store, id) else {
        return None;
    };
    node_count(counts, node)
}

/// Counts the sets of one number more; whether there was memory.
fn push_next(store: &Store, counts: &mut Vec<u64>) -> bool
    requires below { AreBelow store.now counts.old.items }
    requires inside { vec_len counts.old < length store.now }
    ensures below { AreBelow store.now counts.new.items }
    ensures more { result ≡ true → vec_len counts.new ≡ vec_len counts.old + 1 }
{
    let Some(count) = next_count(store, counts.as_slice()) else {
        return false;
    };
    match counts.push(count) {
        Ok(()) => true,
        Err(_) => false,
    }
}

/// How many sets a number has; what is counted on the way is kept.
fn sets_at(store: &Store, counts: &mut Vec<u64>, id: Id) -> Option<u64>
    requires found { IsIn store.now id }
    requires below { AreBelow store.now counts.old.items }
    ensures below { AreBelow store.now counts.new.items }
    ensures count { IfSome result (λ count. count ≡ capped (length (family_of store.now id))) }
    ensures inside { IfSome result (λ _. id.position < vec_len counts.new) }
{
    while counts.len() <= id.position as usize {
        if !push_next(store, counts) {
            return None;
        }
    }
    Some(counts[id.position as usize])
}

/// Counts the sets of one size of a family; whether there was memory.
fn push_order(
    store: &mut Store,
    family: Id,
    size: u32,
    counts: &mut Vec<u64>,
    orders: &mut Vec<u64>,
) -> bool
    requires found { IsIn store.old family }
    requires below { AreBelow store.old counts.old.items }
    ensures below { AreBelow store.new counts.new.items }
    ensures kept { Keeps store.old store.new }
    ensures order { result ≡ true → orders.new.items ≡ orders.old.items ++ count_of (has_size size) (family_of store.old family) ∷ [] }
{
    let Ok(part) = of_size(store, family, size) else {
        return false;
    };
    let Some(count) = sets_at(store, counts, part) else {
        return false;
    };
    match orders.push(count) {
        Ok(()) => true,
        Err(_) => false,
    }
}

/// How many sets of a family have so many events, from none to all.
fn orders_of(
    alloc: Global,
    store: &mut Store,
    family: Id,
    events: u32,
    counts: &mut Vec<u64>,
) -> Option<Vec<u64>>
    requires found { IsIn store.old family }
    requires fits { events < 4294967295 }
    requires below { AreBelow store.old counts.old.items }
    ensures below { AreBelow store.new counts.new.items }
    ensures kept { Keeps store.old store.new }
    ensures orders { IfSome result (λ orders. AreCounts has_size orders.items (family_of store.old family)) }
    ensures count { IfSome result (λ orders. vec_len orders ≡ events + 1) }
{
    let mut orders = Vec::new(alloc);
    for size in 0..events + 1 {
        if !push_order(store, family, size, counts, &mut orders) {
            return None;
        }
    }
    Some(orders)
}

/// Passes the weight of a node on to its children, and counts its event for the sets below; whether the children stand before it.
fn pass_on(
    counts: &[u64],
    node: Node,
    position: usize,
    weights: &mut Vec<u64>,
    uses: &mut Vec<u64>,
) -> bool
    requires there { position < vec_len weights.old }
    requires counted { vec_len weights.old ≤ length counts.now }
    ensures passed { result ≡ true → PassedOn counts.now node position weights.old.items weights.new.items uses.old.items uses.new.items }
    ensures weights { vec_len weights.new ≡ vec_len weights.old }
    ensures uses { vec_len uses.new ≡ vec_len uses.old }
{
    let lo = node.lo.position as usize;
    let hi = node.hi.position as usize;
    let event = node.var as usize;
    if lo >= position {
        return false;
    }
    if hi >= position {
        return false;
    }
    if event >= uses.len() {
        return false;
    }
    let weight = weights[position];
    add_at(weights, lo, weight);
    add_at(weights, hi, weight);
    add_at(uses, event, weight.saturating_mul(counts[hi]));
    true
}

/// Passes on the weight of a position.
fn spread(
    store: &Store,
    counts: &[u64],
    position: usize,
    weights: &mut Vec<u64>,
    uses: &mut Vec<u64>,
) -> bool
    requires there { position < vec_len weights.old }
    requires fits { position < 4294967296 }
    requires counted { vec_len weights.old ≤ length counts.now }
    requires below { AreBelow store.now counts.now }
    ensures spread { result ≡ true → (root : ℕ) → IsSpread store.now root uses.old.items weights.old.items (position + 1) → IsSpread store.now root uses.new.items weights.new.items position }
    ensures weights { vec_len weights.new ≡ vec_len weights.old }
    ensures uses { vec_len uses.new ≡ vec_len uses.old }
{
    if weights[position] == 0 {
        return true;
    }
    let id = Id {
        position: position as u32,
    };
    let Some(node) = look(store, id) else {
        return false;
    };
    pass_on(counts, node, position, weights, uses)
}

/// Passes on the weights of all positions, from the highest one down.
fn spread_all(store: &Store, counts: &[u64], weights: &mut Vec<u64>, uses: &mut Vec<u64>) -> bool
    requires fits { vec_len weights.old ≤ 4294967296 }
    requires counted { vec_len weights.old ≤ length counts.now }
    requires below { AreBelow store.now counts.now }
    ensures spread { result ≡ true → (root : ℕ) → IsSpread store.now root uses.old.items weights.old.items (vec_len weights.old)
        → (end : ℕ) × (end ≤ 2) × IsSpread store.now root uses.new.items weights.new.items end }
    ensures uses { vec_len uses.new ≡ vec_len uses.old }
{
    let mut position = weights.len();
    while position > 2 {
        position -= 1;
        if !spread(store, counts, position, weights, uses) {
            return false;
        }
    }
    true
}

/// How many sets of a family have each event.
fn uses_of(
    alloc: Global,
    store: &Store,
    family: Id,
    events: u32,
    counts: &[u64],
) -> Option<Vec<u64>>
    requires found { family.position < length counts.now }
    requires below { AreBelow store.now counts.now }
    ensures uses { IfSome result (λ uses. AreCounts has_event uses.items (family_of store.now family)) }
    ensures count { IfSome result (λ uses. vec_len uses ≡ events) }
{
    store.laws();
    let Ok(mut weights) = no_counts(alloc, family.position as usize + 1) else {
        return None;
    };
    let Ok(mut uses) = no_counts(alloc, events as usize) else {
        return None;
    };
    add_at(&mut weights, family.position as usize, 1);
    if !spread_all(store, counts, &mut weights, &mut uses) {
        return None;
    }
    Some(uses)
}

/// Marks the events of a family of sets of one event each; whether it is one.
fn mark_each(store: &Store, part: Id, marks: &mut Vec<bool>) -> bool
    requires found { IsIn store.now part }
    ensures marks { result ≡ true → AreMarks marks.old.items [] → AreMarks marks.new.items (family_of store.now part) }
    ensures count { vec_len marks.new ≡ vec_len marks.old }
{
    store.laws();
    let mut id = part;
    while let Some(node) = look(store, id) {
        let event = node.var as usize;
        if node.hi != Id::UNIT {
            return false;
        }
        if event >= marks.len() {
            return false;
        }
        mark_at(marks, event, true);
        id = node.lo;
    }
    true
}

/// Which events alone are one of the sets of a family.
fn singles_of(alloc: Global, store: &mut Store, family: Id, events: u32) -> Option<Vec<bool>>
    requires found { IsIn store.old family }
    ensures kept { Keeps store.old store.new }
    ensures marks { IfSome result (λ marks. AreMarks marks.items (family_of store.old family)) }
    ensures count { IfSome result (λ marks. vec_len marks ≡ events) }
{
    let Ok(mut marks) = no_marks(alloc, events as usize) else {
        return None;
    };
    let Ok(part) = of_size(store, family, 1) else {
        return None;
    };
    if !mark_each(store, part, &mut marks) {
        return None;
    }
    Some(marks)
}

/// What is counted of a family, where there are so many events, in the time that its diagram takes; none where memory is wanting.
pub fn count_family(
    alloc: Global,
    store: &mut Store,
    family: Id,
    events: u32,
) -> Option<FamilyCounts>
    requires { IsIn store.old family }
    ensures counts { IfSome result (λ counts. AreCountsOf counts (family_of store.old family)) }
    ensures width { IfSome result (HaveWidth (Some events)) }
    ensures kept { Keeps store.old store.new }
{
    if events == u32::MAX {
        return None;
    }
    let mut counts = Vec::new(alloc);
    let Some(orders) = orders_of(alloc, store, family, events, &mut counts) else {
        return None;
    };
    let Some(_sets) = sets_at(store, &mut counts, family) else {
        return None;
    };
    let Some(uses) = uses_of(alloc, store, family, events, counts.as_slice()) else {
        return None;
    };
    let Some(singles) = singles_of(alloc, store, family, events) else {
        return None;
    };
    Some(FamilyCounts {
        orders,
        uses,
        singles,
    })
}
