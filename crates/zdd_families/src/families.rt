ghost use Rattle.std.specs.Prelude.{◌≡◌, [], ◌∷◌, IfOk, ℕ, List};
ghost use Rattle.zdd_store.specs.inner.Family.{IsAntichain, covers, sets_without};
ghost use Rattle.zdd_store.specs.inner.Store.{IsIn, family_of, Keeps};
ghost use Rattle.zdd_store.specs.inner.Answers.{IsLeastFamily, IsLeastUpTo};
ghost use Rattle.zdd_families.specs.inner.Steps.{Answered, either, both};
ghost use Rattle.zdd_families.specs.inner.Unions.{HasMinimalSets, IsInEither, IsUnionOfBoth};

use crate::minimal::minimal_sets;
use crate::narrowing::minimal_of_wide;
use crate::product::kept_product;
use crate::removal::without_sets;
use crate::union::kept_union;
use crate::wide::{meet_wide, union_wide};
use plain_values::Mem;
use zdd_store::{Id, Store};

/// The family of the one set that has this number alone.
pub fn single(store: &mut Store, var: u32) -> Mem<Id>
    ensures found { IfOk result (IsIn store.new) }
    ensures family { IfOk result (λ id. family_of store.new id ≡ (var ∷ []) ∷ []) }
    ensures kept { Keeps store.old store.new }
{
    store.laws();
    store.make(var, Id::EMPTY, Id::UNIT)
}

/// Notes of a family of minimal sets that it is one.
pub(crate) fn note_minimal(store: &mut Store, id: Id) -> Id
    requires { IsAntichain (family_of store.old id) }
    ensures same { store.new ≡ store.old }
    ensures id { result ≡ id }
{
    store.note_apart(id);
    id
}

/// The minimal sets of the union of any two families.
fn union_of_minimal(store: &mut Store, a: Id, b: Id) -> Mem<Id>
    requires a_in { IsIn store.old a }
    requires b_in { IsIn store.old b }
    ensures { Answered store.old store.new 0 (IsLeastFamily (either (family_of store.old a) (family_of store.old b))) result }
{
    let first = minimal_sets(store, a)?;
    let second = minimal_sets(store, b)?;
    let answer = kept_union(store, first, second)?;
    Ok(note_minimal(store, answer))
}

/// The minimal sets among the unions of a set of the one and a set of the other of any two families, as far as sets are
/// asked for.
fn product_of_minimal(store: &mut Store, a: Id, b: Id, most: u32) -> Mem<Id>
    requires a_in { IsIn store.old a }
    requires b_in { IsIn store.old b }
    ensures { Answered store.old store.new 0 (IsLeastUpTo most (both (family_of store.old a) (family_of store.old b))) result }
{
    let first = minimal_sets(store, a)?;
    let second = minimal_sets(store, b)?;
    let answer = kept_product(store, first, second, most)?;
    Ok(note_minimal(store, answer))
}

/// The minimal sets of the union of two families.
pub fn min_union(store: &mut Store, a: Id, b: Id) -> Mem<Id>
    requires a_in { IsIn store.old a }
    requires b_in { IsIn store.old b }
    ensures found { IfOk result (IsIn store.new) }
    ensures minimal { IfOk result (λ id. HasMinimalSets (family_of store.new id) (IsInEither (family_of store.old a) (family_of store.old b))) }
    ensures covers { IfOk result (λ id. IsLeastFamily (either (family_of store.old a) (family_of store.old b)) (family_of store.new id)) }
    ensures kept { Keeps store.old store.new }
{
    store.laws();
    let answer = union_of_minimal(store, a, b)?;
    store.laws();
    Ok(answer)
}

/// The minimal sets among the unions of a set of the one family and a set of the other.
pub fn min_product(store: &mut Store, a: Id, b: Id) -> Mem<Id>
    requires a_in { IsIn store.old a }
    requires b_in { IsIn store.old b }
    ensures found { IfOk result (IsIn store.new) }
    ensures minimal { IfOk result (λ id. HasMinimalSets (family_of store.new id) (IsUnionOfBoth (family_of store.old a) (family_of store.old b))) }
    ensures covers { IfOk result (λ id. IsLeastFamily (both (family_of store.old a) (family_of store.old b)) (family_of store.new id)) }
    ensures kept { Keeps store.old store.new }
{
    store.laws();
    let answer = product_of_minimal(store, a, b, 4_294_967_295)?;
    store.laws();
    Ok(answer)
}

/// What `min_product` gives, as far as sets of at most so many numbers are asked for; where these are 2 ^ 32 - 1 each set
/// is.
pub fn min_product_up_to(store: &mut Store, a: Id, b: Id, most: u32) -> Mem<Id>
    requires a_in { IsIn store.old a }
    requires b_in { IsIn store.old b }
    ensures found { IfOk result (IsIn store.new) }
    ensures covers { IfOk result (λ id. IsLeastUpTo most (both (family_of store.old a) (family_of store.old b)) (family_of store.new id)) }
    ensures kept { Keeps store.old store.new }
{
    let answer = product_of_minimal(store, a, b, most)?;
    Ok(answer)
}

/// The sets of the one family that contain no set of the other.
pub fn without(store: &mut Store, a: Id, b: Id) -> Mem<Id>
    requires a_in { IsIn store.old a }
    requires b_in { IsIn store.old b }
    ensures found { IfOk result (IsIn store.new) }
    ensures family { IfOk result (λ id. family_of store.new id ≡ sets_without (family_of store.old a) (family_of store.old b)) }
    ensures kept { Keeps store.old store.new }
{
    let answer = without_sets(store, a, b)?;
    Ok(answer)
}

/// A family that covers what one of two families covers. Not all its sets are minimal; but those that are made in this way and
/// by `wide_product` are joined in few steps.
pub fn wide_union(store: &mut Store, a: Id, b: Id) -> Mem<Id>
    requires a_in { IsIn store.old a }
    requires b_in { IsIn store.old b }
    ensures found { IfOk result (IsIn store.new) }
    ensures covers { IfOk result (λ id. (set : List ℕ) → covers (family_of store.new id) set ≡ either (family_of store.old a) (family_of store.old b) set) }
    ensures kept { Keeps store.old store.new }
{
    let answer = union_wide(store, a, b)?;
    Ok(answer)
}

/// A family that covers what both of two families cover. Not all its sets are minimal; but those that are made in this way and
/// by `wide_union` are joined in few steps.
pub fn wide_product(store: &mut Store, a: Id, b: Id) -> Mem<Id>
    requires a_in { IsIn store.old a }
    requires b_in { IsIn store.old b }
    ensures found { IfOk result (IsIn store.new) }
    ensures covers { IfOk result (λ id. (set : List ℕ) → covers (family_of store.new id) set ≡ both (family_of store.old a) (family_of store.old b) set) }
    ensures kept { Keeps store.old store.new }
{
    let answer = meet_wide(store, a, b)?;
    Ok(answer)
}

/// The minimal sets of any family, in the way that is quicker.
fn minimal_of_any(store: &mut Store, a: Id) -> Mem<Id>
    requires { IsIn store.old a }
    ensures { Answered store.old store.new 0 (IsLeastFamily (covers (family_of store.old a))) result }
{
    let shape = store.shape(a);
    if shape.wide {
        let answer = minimal_of_wide(store, a)?;
        return Ok(answer);
    }
    let answer = minimal_sets(store, a)?;
    Ok(answer)
}

/// The minimal sets of a family, which may be one that `wide_union` or `wide_product` made.
pub fn minimal_family(store: &mut Store, a: Id) -> Mem<Id>
    requires { IsIn store.old a }
    ensures found { IfOk result (IsIn store.new) }
    ensures covers { IfOk result (λ id. IsLeastFamily (covers (family_of store.old a)) (family_of store.new id)) }
    ensures kept { Keeps store.old store.new }
{
    let answer = minimal_of_any(store, a)?;
    Ok(answer)
}
