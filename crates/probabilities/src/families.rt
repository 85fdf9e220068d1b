//! The bounds of the probability of a family of a store.

ghost use Rattle.std.specs.Prelude.{◌<◌, ◌≡◌, IfOk, IfSome, IfNone, Some, length};
ghost use Rattle.std.specs.HashMap.{get};
ghost use Rattle.zdd_store.specs.inner.Family.{Family, IsAntichain};
ghost use Rattle.zdd_store.specs.inner.Store.{IsIn, Keeps, family_of};
ghost use Rattle.probabilities.specs.Decided.{rates_of};
ghost use Rattle.probabilities.specs.inner.Decided.{AreBoundsOf, AreEnds, FitWhole};
ghost use Rattle.probabilities.specs.inner.Widths.{IsNarrowed};
ghost use Rattle.probabilities.specs.inner.Sharp.{IsSharp};
ghost use Rattle.probabilities.specs.inner.Remembered.{IsBoundedAt, KnowsBounds, Bounded};
ghost use Rattle.probabilities.specs.inner.Cofactors.{IsCofactorAt, KnowsCofactors, IsGivenUp, IsTraced};

use crate::rates::{Bounds, Rate};
use crate::steps::{end_bounds, family_step, rate_of};
use plain_values::Mem;
use std::alloc::Global;
use std::collections::HashMap;
use zdd_families::{look, min_union};
use zdd_store::{Id, Store};

/// The bounds of a family that are remembered, if there are some.
fn known_bounds(
    store: &Store,
    rates: &[Rate],
    whole: u32,
    known: &HashMap<Id, Bounds>,
    id: Id,
) -> Option<Bounds>
    requires { KnowsBounds whole rates.now store.now (get ⟦<Id as PartialEq>⟧.eq known.now) }
    ensures value { result ≡ get ⟦<Id as PartialEq>⟧.eq known.now id }
    ensures bounds { IfSome result (IsBoundedAt whole rates.now store.now id) }
{
    let _count = rates.len();
    known.get(&id).copied()
}

/// Remembers the bounds of a family, and gives them back.
fn note_bounds(
    store: &Store,
    rates: &[Rate],
    whole: u32,
    known: &mut HashMap<Id, Bounds>,
    id: Id,
    bounds: Bounds,
) -> Mem<Option<Bounds>>
    requires bounds { IsBoundedAt whole rates.now store.now id bounds }
    requires known { KnowsBounds whole rates.now store.now (get ⟦<Id as PartialEq>⟧.eq known.old) }
    ensures known { KnowsBounds whole rates.now store.now (get ⟦<Id as PartialEq>⟧.eq known.new) }
    ensures cofactors { (root : Family) → IsCofactorAt root store.now id → KnowsCofactors root store.now (get ⟦<Id as PartialEq>⟧.eq known.old)
        → KnowsCofactors root store.now (get ⟦<Id as PartialEq>⟧.eq known.new) }
    ensures bounds { IfOk result (λ found. IfSome found (IsBoundedAt whole rates.now store.now id)) }
    ensures found { IfOk result (λ found. found ≡ Some bounds) }
{
    known.insert(id, bounds)?;
    Ok(Some(bounds))
}

/// The bounds of a family; those of what it covers without its first event and with it come first. None where more families
/// come up than there may be, or an event has no rate.
pub(crate) fn bounds_in(
    store: &mut Store,
    rates: &[Rate],
    whole: u32,
    most: usize,
    known: &mut HashMap<Id, Bounds>,
    id: Id,
) -> Mem<Option<Bounds>>
    requires id_in { IsIn store.old id }
    requires known { KnowsBounds whole rates.now store.old (get ⟦<Id as PartialEq>⟧.eq known.old) }
    ensures bounds { Bounded whole rates.now store.old store.new id result }
    ensures known { KnowsBounds whole rates.now store.new (get ⟦<Id as PartialEq>⟧.eq known.new) }
    ensures traced { (root : Family) → IsCofactorAt root store.old id → KnowsCofactors root store.old (get ⟦<Id as PartialEq>⟧.eq known.old)
        → IfOk result (IsTraced (length rates.now) most root store.new (get ⟦<Id as PartialEq>⟧.eq known.new)) }
{
    store.laws();
    let Some(node) = look(store, id) else {
        return Ok(Some(end_bounds(store, rates, id, whole)));
    };
    if let Some(bounds) = known_bounds(store, rates, whole, known, id) {
        return Ok(Some(bounds));
    }
    let Some(rate) = rate_of(rates, node.var) else {
        return Ok(None);
    };
    if known.len() >= most {
        return Ok(None);
    }
    let with = min_union(store, node.lo, node.hi)?;
    let Some(lo) = bounds_in(store, rates, whole, most, known, node.lo)? else {
        return Ok(None);
    };
    let Some(hi) = bounds_in(store, rates, whole, most, known, with)? else {
        return Ok(None);
    };
    note_bounds(
        store,
        rates,
        whole,
        known,
        id,
        family_step(rate, lo, hi, whole),
    )
}

/// The bounds of the probability that the events which occur contain a set of the family, where they are independent, from
/// the rate of each event by its number. None where it is given up, since more than `most` families come up on the way, or where
/// an event of the family has no rate (`Rate::unknown` is one). The whole has `whole` zeros. It goes as deep as there are
/// events.
pub fn family_bounds(
    alloc: Global,
    store: &mut Store,
    rates: &[Rate],
    whole: u32,
    most: usize,
    id: Id,
) -> Mem<Option<Bounds>>
    requires id_in { IsIn store.old id }
    requires rates { FitWhole whole rates.now }
    ensures bounds { IfOk result (λ found. IfSome found (AreBoundsOf whole (rates_of whole rates.now) (length rates.now) (family_of store.old id))) }
    ensures narrow { IfOk result (λ found. IfSome found (IsNarrowed whole rates.now (family_of store.old id))) }
    ensures sharp { IfOk result (λ found. IfSome found (IsSharp whole rates.now (family_of store.old id))) }
    ensures none { IsAntichain (family_of store.old id) → IfOk result (λ found. IfNone found (IsGivenUp (length rates.now) most (family_of store.old id))) }
    ensures ends { IfOk result (λ found. IfSome found (AreEnds whole (family_of store.old id))) }
    ensures kept { Keeps store.old store.new }
{
    let Some(_node) = look(store, id) else {
        return Ok(Some(end_bounds(store, rates, id, whole)));
    };
    let mut known = HashMap::new(alloc);
    bounds_in(store, rates, whole, most, &mut known, id)
}
