ghost use Rattle.std.specs.Prelude.{◌↔◌, ℕ, List, Contains, IfOk, IsTrue};
ghost use Rattle.zdd_store.specs.inner.Store.{IsIn, family_of, Keeps};
ghost use Rattle.family_renaming.specs.inner.Renaming.{AreRenamed, IsRenamedOf, NamesItself};

use crate::by_listing::by_listing;
use crate::extents::has_few_sets;
use crate::from_top::from_top;
use crate::variable_order::VariableOrder;
use plain_values::{List, Mem};
use std::alloc::Global;
use zdd_store::{Id, Store};

/// Whether each number is its own name.
fn names_itself(names: &[u32]) -> bool
    ensures { IsTrue result ↔ NamesItself names.now }
{
    for place in 0..names.len() {
        if names[place] as usize != place {
            return false;
        }
    }
    true
}

/// The family renamed, in the way that costs less.
fn renamed_family(alloc: Global, store: &mut Store, order: &VariableOrder, id: Id) -> Mem<Id>
    requires { IsIn store.old id }
    ensures found { IfOk result (IsIn store.new) }
    ensures renamed { IfOk result
        (λ answer. AreRenamed order.now.events (family_of store.old id) (family_of store.new answer)) }
    ensures kept { Keeps store.old store.new }
{
    store.laws();
    if names_itself(order.events()) {
        return Ok(id);
    }
    if has_few_sets(alloc, store, id)? {
        by_listing(alloc, store, order, id)
    } else {
        from_top(alloc, store, order, id)
    }
}

/// The family of the renamed sets: each has the events of the variables of a set, as a rising list.
///
/// Where the variable of each event is its own number, the family is its own answer. A family of at most 1,048,576 sets,
/// with at most 16,777,216 numbers in all, is listed, sorted, and made anew; a larger one is split at one event after
/// another. A call goes as deep as there are variables on a path of the diagram, or events in the family. Each number of
/// the store keeps its family, also where memory is refused. What is remembered on the way counts as answers of the store.
pub fn in_event_order(alloc: Global, store: &mut Store, order: &VariableOrder, id: Id) -> Mem<Id>
    requires { IsIn store.old id }
    ensures found { IfOk result (IsIn store.new) }
    ensures renamed { IfOk result
        (λ answer. AreRenamed order.now.events (family_of store.old id) (family_of store.new answer)) }
    ensures sets { IfOk result (λ answer. (set : List ℕ)
        → Contains (family_of store.new answer) set ↔ IsRenamedOf order.now.events (family_of store.old id) set) }
    ensures kept { Keeps store.old store.new }
{
    let answer = renamed_family(alloc, store, order, id)?;
    Ok(answer)
}
