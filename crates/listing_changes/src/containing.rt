//! Whether a family has a set.

ghost use Rattle.std.specs.Prelude.{◌↔◌, Contains, IsTrue};
ghost use Rattle.zdd_store.specs.inner.Store.{IsIn, family_of};

use zdd_families::look;
use zdd_store::{Id, Store};

/// Whether a family has a set, given by its numbers in rising order. It goes down one path of the diagram.
pub(crate) fn has_set(store: &Store, id: Id, numbers: &[u32]) -> bool
    requires { IsIn store.now id }
    ensures { IsTrue result ↔ Contains (family_of store.now id) numbers.now }
{
    store.laws();
    let Some(node) = look(store, id) else {
        return id == Id::UNIT && numbers.is_empty();
    };
    let Some((first, rest)) = numbers.split_first() else {
        return has_set(store, node.lo, numbers);
    };
    if *first < node.var {
        return false;
    }
    if *first == node.var {
        return has_set(store, node.hi, rest);
    }
    has_set(store, node.lo, numbers)
}
