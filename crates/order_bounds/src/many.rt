//! Families of all sets with more than so many of some events.

ghost use Rattle.std.specs.Prelude.{◌≡◌, ◌<◌, ◌^◌, ℕ, List, IfOk, length};
ghost use Rattle.zdd_store.specs.inner.Store.{IsIn, Keeps, family_of};
ghost use Rattle.order_bounds.specs.Orders.{has_more};
ghost use Rattle.order_bounds.specs.inner.Many.{AreAlone};
ghost use Rattle.zdd_store.specs.inner.Family.{covers};

use plain_values::Mem;
use std::alloc::Global;
use zdd_families::{at_least, single};
use zdd_store::{Id, Store};

/// For each event the family of the one set that has it alone.
fn alone(alloc: Global, store: &mut Store, events: &[u32]) -> Mem<Vec<Id>>
    ensures families { IfOk result (λ ids. AreAlone store.new events.now ids.items) }
    ensures kept { Keeps store.old store.new }
{
    let mut ids = Vec::new(alloc);
    for event in events {
        let id = single(store, *event)?;
        ids.push(id)?;
    }
    Ok(ids)
}

/// A family that covers each set with more than so many of these events.
pub(crate) fn many_family(alloc: Global, store: &mut Store, events: &[u32], most: u32) -> Mem<Id>
    requires { length events.now < 2 ^ 32 }
    ensures found { IfOk result (IsIn store.new) }
    ensures covers { IfOk result (λ id. (set : List ℕ) → covers (family_of store.new id) set ≡ has_more most events.now set) }
    ensures kept { Keeps store.old store.new }
{
    let ids = alone(alloc, store, events)?;
    store.laws();
    if most as usize >= events.len() {
        return Ok(Id::EMPTY);
    }
    let id = at_least(alloc, store, most + 1, ids.as_slice())?;
    Ok(id)
}
