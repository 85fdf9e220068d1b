ghost use Rattle.std.specs.Prelude.{◌<◌};
ghost use Rattle.zdd_store.specs.inner.Store.{IsIn};

use plain_values::Mem;
use std::alloc::Global;
use std::collections::HashMap;
use zdd_families::look;
use zdd_store::{Id, Store};

/// How many sets a family has, and how many numbers they have in all; 2 ^ 64 - 1 where it is more.
#[derive(Clone, Copy)]
struct Extent {
    sets: u64,
    numbers: u64,
}

/// The extent of a family, counted on its diagram. The answers are remembered.
fn extent_of(store: &Store, known: &mut HashMap<Id, Extent>, id: Id) -> Mem<Extent>
    requires { IsIn store.now id }
{
    let Some(node) = look(store, id) else {
        return Ok(Extent {
            sets: u64::from(id.position),
            numbers: 0,
        });
    };
    if let Some(extent) = known.get(&id) {
        return Ok(*extent);
    }
    let lo = extent_of(store, known, node.lo)?;
    let hi = extent_of(store, known, node.hi)?;
    let both = Extent {
        sets: lo.sets.saturating_add(hi.sets),
        numbers: lo
            .numbers
            .saturating_add(hi.numbers)
            .saturating_add(hi.sets),
    };
    known.insert(id, both)?;
    Ok(both)
}

/// Whether a family has few sets: at most 16 for each node of its diagram, and at most 1,048,576, with at most 16,777,216
/// numbers in all.
pub(crate) fn has_few_sets(alloc: Global, store: &Store, id: Id) -> Mem<bool>
    requires { IsIn store.now id }
{
    let mut known = HashMap::new(alloc);
    let extent = extent_of(store, &mut known, id)?;
    let nodes = known.len() as u64;
    Ok(extent.sets <= 1_048_576 && extent.numbers <= 16_777_216 && extent.sets / 16 <= nodes)
}
