ghost use Rattle.std.specs.Prelude.{◌+◌, ◌<◌, ◌^◌, IfOk};
ghost use Rattle.zdd_store.specs.inner.Store.{IsIn, Keeps};

use plain_values::Mem;
use std::alloc::Global;
use zdd_families::{at_least, min_product, min_union, single};
use zdd_store::{Id, Store};

/// The family of the two sets that have one of two numbers each.
fn either(store: &mut Store, first: u32, second: u32) -> Mem<Id>
    ensures found { IfOk result (IsIn store.new) }
    ensures kept { Keeps store.old store.new }
{
    let a = single(store, first)?;
    let b = single(store, second)?;
    min_union(store, a, b)
}

/// The minimal cut sets of `(a1 or b1) and .. and (an or bn)`, with the numbers in this order; no more than 2 ^ 31 pairs.
pub fn pairs(store: &mut Store, count: u32) -> Mem<Id>
    ensures found { IfOk result (IsIn store.new) }
{
    store.laws();
    let mut all = Id::UNIT;
    let mut at = count.min(1 << 31);
    while at > 0 {
        at -= 1;
        let pair = either(store, 2 * at, 2 * at + 1)?;
        all = min_product(store, pair, all)?;
    }
    Ok(all)
}

/// The minimal cut sets of at least k of so many events.
pub fn choose(alloc: Global, store: &mut Store, k: u32, count: u32) -> Mem<Id>
    ensures found { IfOk result (IsIn store.new) }
{
    let mut parts = Vec::new(alloc);
    for var in 0..count {
        let part = single(store, var)?;
        parts.push(part)?;
    }
    at_least(alloc, store, k, parts.as_slice())
}
