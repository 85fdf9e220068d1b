//! A family brought from one store into another.

ghost use Rattle.std.specs.Prelude.{◌≡◌, ◌<◌, IfOk, IfSome};
ghost use Rattle.std.specs.HashMap.{get};
ghost use Rattle.zdd_store.specs.inner.Store.{IsIn, Keeps, family_of};
ghost use Rattle.zdd_families.specs.inner.Copies.{Copied, IsCopy, KnowsCopies};

use crate::split::look;
use plain_values::Mem;
use std::alloc::Global;
use std::collections::HashMap;
use zdd_store::{Id, Store};

/// The copy of a family that is remembered, if there is one.
fn known_copy(from: &Store, to: &Store, known: &HashMap<Id, Id>, id: Id) -> Option<Id>
    requires { KnowsCopies from.now to.now (get ⟦<Id as PartialEq>⟧.eq known.now) }
    ensures { IfSome result (IsCopy to.now (family_of from.now id)) }
{
    known.get(&id).copied()
}

/// Remembers a copy of a family, and gives it back.
fn note_copy(from: &Store, to: &Store, known: &mut HashMap<Id, Id>, id: Id, copy: Id) -> Mem<Id>
    requires copy { IsCopy to.now (family_of from.now id) copy }
    requires known { KnowsCopies from.now to.now (get ⟦<Id as PartialEq>⟧.eq known.old) }
    ensures known { KnowsCopies from.now to.now (get ⟦<Id as PartialEq>⟧.eq known.new) }
    ensures copy { IfOk result (IsCopy to.now (family_of from.now id)) }
{
    known.insert(id, copy)?;
    Ok(copy)
}

/// A copy of a family. The copies of its parts are remembered.
fn copy_of(from: &Store, to: &mut Store, known: &mut HashMap<Id, Id>, id: Id) -> Mem<Id>
    requires id_in { IsIn from.now id }
    requires known { KnowsCopies from.now to.old (get ⟦<Id as PartialEq>⟧.eq known.old) }
    ensures copied { Copied from.now to.old to.new id result }
    ensures known { KnowsCopies from.now to.new (get ⟦<Id as PartialEq>⟧.eq known.new) }
{
    from.laws();
    to.laws();
    let Some(node) = look(from, id) else {
        return Ok(id);
    };
    if let Some(copy) = known_copy(from, to, known, id) {
        return Ok(copy);
    }
    let lo = copy_of(from, to, known, node.lo)?;
    let hi = copy_of(from, to, known, node.hi)?;
    let copy = to.make(node.var, lo, hi)?;
    note_copy(from, to, known, id, copy)
}

/// The family of a number of one store, made in another. It goes as deep as there are variables on a path of the diagram.
pub fn copied(alloc: Global, from: &Store, to: &mut Store, id: Id) -> Mem<Id>
    requires { IsIn from.now id }
    ensures found { IfOk result (IsIn to.new) }
    ensures family { IfOk result (λ copy. family_of to.new copy ≡ family_of from.now id) }
    ensures kept { Keeps to.old to.new }
{
    let mut known = HashMap::new(alloc);
    let copy = copy_of(from, to, &mut known, id)?;
    Ok(copy)
}
