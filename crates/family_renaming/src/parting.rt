ghost use Rattle.std.specs.Prelude.{◌<◌, IfSome, IfOk};
ghost use Rattle.std.specs.HashMap.{get};
ghost use Rattle.zdd_store.specs.inner.Store.{IsIn, family_of};
ghost use Rattle.family_renaming.specs.inner.Splitting.{IsParted, Parted, KnowsParts};

use plain_values::Mem;
use std::alloc::AllocError;
use std::collections::HashMap;
use zdd_families::look;
use zdd_store::{Id, Store};

/// The sets of a family without a number, and those with it, from which it is taken away.
#[derive(Clone, Copy)]
pub(crate) struct Parts {
    pub lo: Id,
    pub hi: Id,
}

/// A family and the number at which it is split.
#[derive(Clone, Copy, PartialEq, Eq, Hash)]
pub(crate) struct Place {
    pub family: Id,
    pub number: u32,
}

/// The parts that are remembered, if there are any.
fn known_parts(store: &Store, known: &HashMap<Place, Parts>, place: Place) -> Option<Parts>
    requires { KnowsParts store.now (get ⟦<Place as PartialEq>⟧.eq known.now) }
    ensures { IfSome result (IsParted store.now place.number (family_of store.now place.family)) }
{
    known.get(&place).copied()
}

/// Remembers parts, and gives them back. They count as answers of the store: where it may remember no more, that is a refused
/// growth of memory.
fn note_parts(
    store: &Store,
    known: &mut HashMap<Place, Parts>,
    place: Place,
    parts: Parts,
) -> Mem<Parts>
    requires place { IsIn store.now place.family }
    requires parts { IsParted store.now place.number (family_of store.now place.family) parts }
    requires known { KnowsParts store.now (get ⟦<Place as PartialEq>⟧.eq known.old) }
    ensures known { KnowsParts store.now (get ⟦<Place as PartialEq>⟧.eq known.new) }
    ensures parts { IfOk result (IsParted store.now place.number (family_of store.now place.family)) }
{
    if known.len() as u64 >= store.answers_left() {
        return Err(AllocError);
    }
    known.insert(place, parts)?;
    Ok(parts)
}

/// Splits a family at a number, however deep its variable stands. The answers are remembered.
pub(crate) fn parts_at(
    store: &mut Store,
    known: &mut HashMap<Place, Parts>,
    id: Id,
    number: u32,
) -> Mem<Parts>
    requires id_in { IsIn store.old id }
    requires known { KnowsParts store.old (get ⟦<Place as PartialEq>⟧.eq known.old) }
    ensures parted { Parted store.old store.new number id result }
    ensures known { KnowsParts store.new (get ⟦<Place as PartialEq>⟧.eq known.new) }
{
    store.laws();
    let Some(node) = look(store, id) else {
        return Ok(Parts {
            lo: id,
            hi: Id::EMPTY,
        });
    };
    if number < node.var {
        return Ok(Parts {
            lo: id,
            hi: Id::EMPTY,
        });
    }
    if number == node.var {
        return Ok(Parts {
            lo: node.lo,
            hi: node.hi,
        });
    }
    let place = Place { family: id, number };
    if let Some(parts) = known_parts(store, known, place) {
        return Ok(parts);
    }
    let lo = parts_at(store, known, node.lo, number)?;
    let hi = parts_at(store, known, node.hi, number)?;
    let lacking = store.make(node.var, lo.lo, hi.lo)?;
    let having = store.make(node.var, lo.hi, hi.hi)?;
    note_parts(
        store,
        known,
        place,
        Parts {
            lo: lacking,
            hi: having,
        },
    )
}
