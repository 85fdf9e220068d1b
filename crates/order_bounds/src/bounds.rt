//! The bounds by the smallest sets.

ghost use Rattle.std.specs.Prelude.{◌<◌, ◌^◌, IfNone, IfOk, IfSome, length};
ghost use Rattle.zdd_store.specs.inner.Family.{IsAntichain};
ghost use Rattle.zdd_store.specs.inner.Store.{IsIn, Keeps, family_of};
ghost use Rattle.probabilities.specs.inner.Decided.{FitWhole};
ghost use Rattle.order_bounds.specs.inner.Orders.{AreOrderBounds, IsLeftOut};

use crate::many::many_family;
use plain_values::Mem;
use probabilities::{Bounds, Rate, family_bounds};
use std::alloc::Global;
use zdd_families::min_union;
use zdd_store::{Id, Store};

/// The minimal cut sets of at most so many events of a target, and the events on which it depends.
#[derive(Clone, Copy)]
pub(crate) struct Small<'a> {
    /// The family of these sets.
    pub id: Id,
    /// The events on which the target depends.
    pub events: &'a [u32],
    /// The greatest number of events of a set.
    pub most: u32,
}

/// At least how often one of these sets occurs, and at most how often one of them does or more events than they have, from the rate of
/// each event by its number. None where it is given up, since more than `looked` families come up for one of the two, or where an event has
/// no rate. The whole has `whole` zeros.
pub(crate) fn order_bounds(
    alloc: Global,
    store: &mut Store,
    rates: &[Rate],
    whole: u32,
    looked: usize,
    small: &Small<'_>,
) -> Mem<Option<Bounds>>
    requires id_in { IsIn store.old small.now.id }
    requires rates { FitWhole whole rates.now }
    requires few { length small.now.events.now < 2 ^ 32 }
    ensures bounds { IfOk result (λ found. IfSome found (AreOrderBounds whole rates.now (family_of store.old small.now.id) small.now.most small.now.events.now)) }
    ensures none { IsAntichain (family_of store.old small.now.id) → IfOk result (λ found. IfNone found (IsLeftOut (length rates.now) looked (family_of store.old small.now.id) small.now.most small.now.events.now)) }
    ensures kept { Keeps store.old store.new }
{
    let many = many_family(alloc, store, small.events, small.most)?;
    let all = min_union(store, small.id, many)?;
    let Some(least) = family_bounds(alloc, store, rates, whole, looked, small.id)? else {
        return Ok(None);
    };
    let Some(most) = family_bounds(alloc, store, rates, whole, looked, all)? else {
        return Ok(None);
    };
    Ok(Some(Bounds {
        lower: least.lower,
        upper: most.upper,
    }))
}
