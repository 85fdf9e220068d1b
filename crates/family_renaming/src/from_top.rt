ghost use Rattle.std.specs.Prelude.{◌≡◌, ◌<◌, ◌^◌, IfSome, IfOk};
ghost use Rattle.std.specs.HashMap.{get};
ghost use Rattle.zdd_store.specs.inner.Store.{IsIn, family_of, Keeps};
ghost use Rattle.family_renaming.specs.inner.Renaming.{name_of, AreRenamed};
ghost use Rattle.family_renaming.specs.inner.Splitting.{least_event, KnowsLeast, KnowsOrdered, Knows, AtEvent, IsOrdered, Ordered};

use crate::parting::{Parts, Place, parts_at};
use crate::variable_order::VariableOrder;
use plain_values::Mem;
use std::alloc::Global;
use std::collections::HashMap;
use zdd_families::look;
use zdd_store::{Id, Store};

/// A family split at its least event: the sets without it, and those with it, from which it is taken away.
#[derive(Clone, Copy)]
pub(crate) struct EventParts {
    pub event: u32,
    pub lo: Id,
    pub hi: Id,
}

/// What is remembered on the way: the parts of families, their least events, and the families renamed.
#[derive(Drop)]
struct Known {
    parts: HashMap<Place, Parts>,
    least: HashMap<Id, u32>,
    ordered: HashMap<Id, Id>,
}

/// The name of a number: the one at its place in the table, or the number itself.
pub(crate) fn name(names: &[u32], number: u32) -> u32
    ensures { result ≡ name_of names.now number }
{
    match names.get(number as usize) {
        Some(name) => *name,
        None => number,
    }
}

/// The least event of a family that is remembered, if there is one.
fn known_least(
    store: &Store,
    order: &VariableOrder,
    known: &HashMap<Id, u32>,
    id: Id,
) -> Option<u32>
    requires { KnowsLeast order.now.events store.now (get ⟦<Id as PartialEq>⟧.eq known.now) }
    ensures { IfSome result (λ event. event ≡ least_event order.now.events (family_of store.now id)) }
{
    known.get(&id).copied()
}

/// Remembers the least event of a family, and gives it back.
fn note_least(
    store: &Store,
    order: &VariableOrder,
    known: &mut HashMap<Id, u32>,
    id: Id,
    event: u32,
) -> Mem<u64>
    requires id_in { IsIn store.now id }
    requires least { event ≡ least_event order.now.events (family_of store.now id) }
    requires known { KnowsLeast order.now.events store.now (get ⟦<Id as PartialEq>⟧.eq known.old) }
    ensures known { KnowsLeast order.now.events store.now (get ⟦<Id as PartialEq>⟧.eq known.new) }
    ensures value { IfOk result (λ noted. noted ≡ least_event order.now.events (family_of store.now id)) }
    ensures fits { IfOk result (λ noted. noted < 2 ^ 32) }
{
    known.insert(id, event)?;
    Ok(event as u64)
}

/// The least event of a family; 2 ^ 32 for EMPTY and UNIT. The answers are remembered.
fn least(store: &Store, order: &VariableOrder, known: &mut HashMap<Id, u32>, id: Id) -> Mem<u64>
    requires id_in { IsIn store.now id }
    requires known { KnowsLeast order.now.events store.now (get ⟦<Id as PartialEq>⟧.eq known.old) }
    ensures value { IfOk result (λ event. event ≡ least_event order.now.events (family_of store.now id)) }
    ensures fits { IfOk result (λ event. 1 < id.position → event < 2 ^ 32) }
    ensures known { KnowsLeast order.now.events store.now (get ⟦<Id as PartialEq>⟧.eq known.new) }
{
    store.laws();
    let Some(node) = look(store, id) else {
        return Ok(4_294_967_296);
    };
    if let Some(event) = known_least(store, order, known, id) {
        return Ok(event as u64);
    }
    let own = name(order.events(), node.var) as u64;
    let lo = least(store, order, known, node.lo)?;
    let hi = least(store, order, known, node.hi)?;
    note_least(store, order, known, id, own.min(lo).min(hi) as u32)
}

/// Splits a family of sets with events at its least event.
fn at_event(store: &mut Store, order: &VariableOrder, known: &mut Known, id: Id) -> Mem<EventParts>
    requires id_in { IsIn store.old id }
    requires node { 1 < id.position }
    requires known { Knows order.now.events store.old known.old }
    ensures { AtEvent store.old store.new order.now.events known.new id result }
{
    store.laws();
    let event = least(store, order, &mut known.least, id)? as u32;
    let number = name(order.variables(), event);
    let parts = parts_at(store, &mut known.parts, id, number)?;
    Ok(EventParts {
        event,
        lo: parts.lo,
        hi: parts.hi,
    })
}

/// The family renamed that is remembered, if there is one.
fn known_ordered(
    store: &Store,
    order: &VariableOrder,
    known: &HashMap<Id, Id>,
    id: Id,
) -> Option<Id>
    requires { KnowsOrdered order.now.events store.now (get ⟦<Id as PartialEq>⟧.eq known.now) }
    ensures { IfSome result (IsOrdered store.now order.now.events (family_of store.now id)) }
{
    known.get(&id).copied()
}

/// Remembers a family renamed, and gives it back.
fn note_ordered(
    store: &Store,
    order: &VariableOrder,
    known: &mut HashMap<Id, Id>,
    id: Id,
    answer: Id,
) -> Mem<Id>
    requires id_in { IsIn store.now id }
    requires ordered { IsOrdered store.now order.now.events (family_of store.now id) answer }
    requires known { KnowsOrdered order.now.events store.now (get ⟦<Id as PartialEq>⟧.eq known.old) }
    ensures known { KnowsOrdered order.now.events store.now (get ⟦<Id as PartialEq>⟧.eq known.new) }
    ensures ordered { IfOk result (IsOrdered store.now order.now.events (family_of store.now id)) }
{
    known.insert(id, answer)?;
    Ok(answer)
}

/// The family renamed, from its least event on. The answers are remembered.
fn ordered(store: &mut Store, order: &VariableOrder, known: &mut Known, id: Id) -> Mem<Id>
    requires id_in { IsIn store.old id }
    requires known { Knows order.now.events store.old known.old }
    ensures { Ordered store.old store.new order.now.events known.new id result }
{
    store.laws();
    if id.position < 2 {
        return Ok(id);
    }
    if let Some(answer) = known_ordered(store, order, &known.ordered, id) {
        return Ok(answer);
    }
    let parts = at_event(store, order, known, id)?;
    let lo = ordered(store, order, known, parts.lo)?;
    let hi = ordered(store, order, known, parts.hi)?;
    let answer = store.make(parts.event, lo, hi)?;
    note_ordered(store, order, &mut known.ordered, id, answer)
}

/// The family renamed, made from its least event on: it costs little where the diagram of the answer is small, however
/// many sets there are.
pub(crate) fn from_top(alloc: Global, store: &mut Store, order: &VariableOrder, id: Id) -> Mem<Id>
    requires { IsIn store.old id }
    ensures found { IfOk result (IsIn store.new) }
    ensures renamed { IfOk result
        (λ answer. AreRenamed order.now.events (family_of store.old id) (family_of store.new answer)) }
    ensures kept { Keeps store.old store.new }
{
    let mut known = Known {
        parts: HashMap::new(alloc),
        least: HashMap::new(alloc),
        ordered: HashMap::new(alloc),
    };
    let answer = ordered(store, order, &mut known, id)?;
    Ok(answer)
}
