//! The families of the sets of each size.

ghost use Rattle.std.specs.Prelude.{◌≡◌, ◌+◌, ◌-◌, ◌<◌, ◌≤◌, ◌++◌, [], length, drop, slice_index_or, IfOk};
ghost use Rattle.std.specs.List.{flat_map};
ghost use Rattle.zdd_store.specs.inner.Family.{Family};
ghost use Rattle.zdd_store.specs.inner.Store.{Families, IsIn, IsSound, Keeps, family_of};
ghost use Rattle.cutset_lister.specs.inner.Trails.{greatest_size};
ghost use Rattle.cutset_lister.specs.inner.Walks.{AreSizes};

use plain_values::Mem;
use std::alloc::Global;
use zdd_families::of_size;
use zdd_store::{Id, Store};

/// The families of the sets of no number, of one number, and so on up to `most` numbers.
pub(crate) fn parts_by_size(alloc: Global, store: &mut Store, family: Id, most: u32) -> Mem<Vec<Id>>
    requires found { IsIn store.old family }
    requires fits { most < 4294967295 }
    ensures parts { IfOk result (λ parts. AreSizes store.new (family_of store.old family) 0 parts.items) }
    ensures count { IfOk result (λ parts. length parts.items ≡ most + 1) }
    ensures kept { Keeps store.old store.new }
{
    let mut parts = Vec::new(alloc);
    for size in 0..most + 1 {
        let part = of_size(store, family, size)?;
        parts.push(part)?;
    }
    Ok(parts)
}

/// The family of the sets of a size; EMPTY where none is kept.
pub(crate) fn part_of_size(parts: &[Id], size: usize) -> Id
    ensures { result ≡ slice_index_or parts.now size (record { position = 0 }) }
{
    match parts.get(size) {
        Some(id) => *id,
        None => Id::EMPTY,
    }
}

/// The first of some families from a place on that is not EMPTY, and the place behind it; EMPTY where there is none.
pub(crate) fn next_part(parts: &[Id], begun: usize) -> (usize, Id)
    ensures left { (store : Families) → IsSound store
        → family_of store result.1 ++ flat_map (family_of store) (drop result.0 parts.now) ≡ flat_map (family_of store) (drop begun parts.now) }
    ensures found { (store : Families) (family : Family) → IsSound store → AreSizes store family 0 parts.now → IsIn store result.1 }
    ensures size { (store : Families) (family : Family) → IsSound store → AreSizes store family 0 parts.now → greatest_size (family_of store result.1) ≤ length parts.now - 1 }
    ensures end { result.1.position ≡ 0 → drop result.0 parts.now ≡ [] }
{
    for k in begun..parts.len() {
        if parts[k] != Id::EMPTY {
            return (k + 1, parts[k]);
        }
    }
    (parts.len(), Id::EMPTY)
}
