ghost use Rattle.std.specs.Prelude.{min, IfOk};
ghost use Rattle.zdd_store.specs.inner.Family.{least_number, IsAntichain};
ghost use Rattle.zdd_store.specs.inner.Store.{IsIn, family_of, Keeps};
ghost use Rattle.zdd_store.specs.inner.Answers.{IsLeastUpTo, IsProductUpTo};
ghost use Rattle.zdd_families.specs.inner.Steps.{Answered, AreHalves, IsHalved, least_of_halves, of_halves};

use crate::product::{asked_sets, product_sets};
use crate::removal::without_sets;
use crate::split::look;
use crate::union::union_sets;
use plain_values::Mem;
use zdd_store::{Id, Store};

/// The sets of a family that contain a set of another one, and its other sets.
#[derive(Clone, Copy)]
pub(crate) struct Halves {
    pub inner: Id,
    pub outer: Id,
}

/// The two halves of a family of minimal sets beside another family.
fn in_halves(store: &mut Store, a: Id, b: Id) -> Mem<Halves>
    requires a_in { IsIn store.old a }
    requires b_in { IsIn store.old b }
    requires a_apart { IsAntichain (family_of store.old a) }
    ensures kept { Keeps store.old store.new }
    ensures halved { IfOk result (IsHalved store.new (family_of store.old a) (family_of store.old b)) }
{
    let outer = without_sets(store, a, b)?;
    let inner = without_sets(store, a, outer)?;
    Ok(Halves { inner, outer })
}

/// The product of two families from their halves: a set that contains one of the other family needs nothing more of it.
fn product_of_halves(store: &mut Store, first: Halves, second: Halves, most: u32) -> Mem<Id>
    requires first_are { AreHalves store.old first }
    requires second_are { AreHalves store.old second }
    ensures { Answered store.old store.new (min (least_of_halves store.old first) (least_of_halves store.old second)) (IsLeastUpTo most (of_halves store.old first second)) result }
{
    let inner = union_sets(store, first.inner, second.inner)?;
    let outer = product_sets(store, first.outer, second.outer, most)?;
    let answer = union_sets(store, inner, outer)?;
    asked_sets(store, answer, most)
}

/// The same for two families, by their halves.
fn product_by_halves(store: &mut Store, a: Id, b: Id, most: u32) -> Mem<Id>
    requires a_in { IsIn store.old a }
    requires b_in { IsIn store.old b }
    requires a_apart { IsAntichain (family_of store.old a) }
    requires b_apart { IsAntichain (family_of store.old b) }
    ensures { Answered store.old store.new (min (least_number (family_of store.old a)) (least_number (family_of store.old b))) (IsProductUpTo most (family_of store.old a) (family_of store.old b)) result }
{
    let first = in_halves(store, a, b)?;
    let second = in_halves(store, b, a)?;
    product_of_halves(store, first, second, most)
}

/// Whether a family has one set alone, of one number at most.
fn is_small(store: &Store, id: Id) -> bool {
    match look(store, id) {
        Some(node) => node.lo == Id::EMPTY && node.hi == Id::UNIT,
        None => true,
    }
}

/// What `product_sets` answers. Where the two families have much in common it takes much less time.
pub(crate) fn whole_product(store: &mut Store, a: Id, b: Id, most: u32) -> Mem<Id>
    requires a_in { IsIn store.old a }
    requires b_in { IsIn store.old b }
    requires a_apart { IsAntichain (family_of store.old a) }
    requires b_apart { IsAntichain (family_of store.old b) }
    ensures { Answered store.old store.new (min (least_number (family_of store.old a)) (least_number (family_of store.old b))) (IsProductUpTo most (family_of store.old a) (family_of store.old b)) result }
{
    if is_small(store, a) || is_small(store, b) {
        return product_sets(store, a, b, most);
    }
    product_by_halves(store, a, b, most)
}
