ghost use Rattle.std.specs.Prelude.{◌≡◌, ◌<◌, ℕ, List, [], All, Some, length, nat_le};
ghost use Rattle.std.specs.List.Sorted.{IsPermutation};
ghost use Rattle.fault_system.specs.Truth.{count_true};
ghost use Rattle.fault_system.specs.Listings.{IsWithinOrder};
ghost use Rattle.zdd_store.specs.inner.Family.{covers};
ghost use Rattle.zdd_store.specs.inner.Store.{IsIn, family_of};
ghost use Rattle.zdd_store.specs.inner.Answers.{IsAsked};
ghost use Rattle.zdd_families.specs.inner.Steps.{either, both};
ghost use Rattle.cutset_engine.specs.inner.Gates.{Made, covers_each, of_all, of_both};

use plain_values::Mem;
use std::alloc::Global;
use zdd_families::{
    at_least_up_to, look, min_product_up_to, min_union, up_to_size, wide_product, wide_union,
};
use zdd_store::{Id, Store};

/// Which families are made on the way: those of minimal sets alone, or wide ones, which are joined in few steps and have more
/// sets.
#[derive(Clone, Copy, Debug, PartialEq, Eq)]
pub(crate) enum Form {
    Minimal,
    Wide,
}

/// The first variable of a family; 2 ^ 32 - 1 where it has none.
fn first_variable(store: &Store, id: Id) -> u32 {
    match look(store, id) {
        Some(node) => node.var,
        None => 4_294_967_295,
    }
}

/// The sets of a family of at most so many numbers; all where there is no greatest order.
pub(crate) fn cut(store: &mut Store, most: Option<u32>, id: Id) -> Mem<Id>
    requires { IsIn store.old id }
    ensures { Made store.old store.new most (covers (family_of store.old id)) result }
{
    store.laws();
    match most {
        Some(most) => up_to_size(store, id, most),
        None => Ok(id),
    }
}

/// How many numbers a set has at most that is asked for: 2 ^ 32 - 1 where there is no greatest order.
fn bound_of(most: Option<u32>) -> u32
    ensures { (set : List ℕ) → IsWithinOrder most set → IsAsked result set }
{
    match most {
        Some(most) => most,
        None => 4_294_967_295,
    }
}

/// The minimal sets of the one or the other family.
fn least_one(store: &mut Store, most: Option<u32>, a: Id, b: Id) -> Mem<Id>
    requires a_in { IsIn store.old a }
    requires b_in { IsIn store.old b }
    ensures { Made store.old store.new most (either (family_of store.old a) (family_of store.old b)) result }
{
    let union = min_union(store, a, b)?;
    cut(store, most, union)
}

/// What one of two families covers, as a wide family.
fn wide_one(store: &mut Store, most: Option<u32>, a: Id, b: Id) -> Mem<Id>
    requires a_in { IsIn store.old a }
    requires b_in { IsIn store.old b }
    ensures { Made store.old store.new most (either (family_of store.old a) (family_of store.old b)) result }
{
    wide_union(store, a, b)
}

/// What one of two families covers, as far as sets are asked for.
pub(crate) fn one_of_two(store: &mut Store, most: Option<u32>, form: Form, a: Id, b: Id) -> Mem<Id>
    requires a_in { IsIn store.old a }
    requires b_in { IsIn store.old b }
    ensures { Made store.old store.new most (either (family_of store.old a) (family_of store.old b)) result }
{
    match form {
        Form::Minimal => least_one(store, most, a, b),
        Form::Wide => wide_one(store, most, a, b),
    }
}

/// The minimal unions of a set of the one and a set of the other family.
fn least_both(store: &mut Store, most: Option<u32>, a: Id, b: Id) -> Mem<Id>
    requires a_in { IsIn store.old a }
    requires b_in { IsIn store.old b }
    ensures { Made store.old store.new most (both (family_of store.old a) (family_of store.old b)) result }
{
    let product = min_product_up_to(store, a, b, bound_of(most))?;
    cut(store, most, product)
}

/// What both of two families cover, as a wide family.
fn wide_both(store: &mut Store, most: Option<u32>, a: Id, b: Id) -> Mem<Id>
    requires a_in { IsIn store.old a }
    requires b_in { IsIn store.old b }
    ensures { Made store.old store.new most (both (family_of store.old a) (family_of store.old b)) result }
{
    wide_product(store, a, b)
}

/// What both of two families cover, as far as sets are asked for.
pub(crate) fn both_of_two(store: &mut Store, most: Option<u32>, form: Form, a: Id, b: Id) -> Mem<Id>
    requires a_in { IsIn store.old a }
    requires b_in { IsIn store.old b }
    ensures { Made store.old store.new most (both (family_of store.old a) (family_of store.old b)) result }
{
    match form {
        Form::Minimal => least_both(store, most, a, b),
        Form::Wide => wide_both(store, most, a, b),
    }
}

/// How the parts of a gate make it true: all of them, or at least one.
#[derive(Clone, Copy)]
pub(crate) enum Gate {
    And,
    Or,
}

/// Of two families: what the gate of two parts covers.
fn of_two(store: &mut Store, most: Option<u32>, form: Form, gate: Gate, a: Id, b: Id) -> Mem<Id>
    requires a_in { IsIn store.old a }
    requires b_in { IsIn store.old b }
    ensures { Made store.old store.new most (λ set. of_both gate (covers (family_of store.old a) set) (covers (family_of store.old b) set)) result }
{
    match gate {
        Gate::And => both_of_two(store, most, form, a, b),
        Gate::Or => one_of_two(store, most, form, a, b),
    }
}

/// Of no families: what the gate of no parts covers.
fn of_none(store: &Store, most: Option<u32>, gate: Gate) -> Mem<Id>
    ensures { Made store.now store.now most (λ set. of_all gate []) result }
{
    store.laws();
    match gate {
        Gate::And => Ok(Id::UNIT),
        Gate::Or => Ok(Id::EMPTY),
    }
}

/// Of some families: what the gate of these parts covers. Halves are joined, so that large families meet late.
pub(crate) fn of_parts(
    store: &mut Store,
    most: Option<u32>,
    form: Form,
    gate: Gate,
    parts: &[Id],
) -> Mem<Id>
    requires { All (IsIn store.old) parts.now }
    ensures { Made store.old store.new most (λ set. of_all gate (covers_each store.old parts.now set)) result }
{
    if parts.is_empty() {
        return of_none(store, most, gate);
    }
    if parts.len() == 1 {
        return Ok(parts[0]);
    }
    let (front, back) = parts.split_at(parts.len() / 2);
    let first = of_parts(store, most, form, gate, front)?;
    let second = of_parts(store, most, form, gate, back)?;
    of_two(store, most, form, gate, first, second)
}

/// Puts families in the order of their first variables, so that those are joined first that stand close to each other.
/// Four at most stay as they are, since that is no slower.
fn sort_by_variable(store: &Store, parts: &mut Vec<Id>) -> Mem<()>
    ensures { IsPermutation parts.old.items parts.new.items }
{
    if parts.len() <= 4 {
        return Ok(());
    }
    parts.sort_by_key(|id: &Id| first_variable(store, *id))?;
    Ok(())
}

/// Of some families: what the gate of these parts covers.
pub(crate) fn of_gate(
    store: &mut Store,
    most: Option<u32>,
    form: Form,
    gate: Gate,
    parts: Vec<Id>,
) -> Mem<Id>
    requires { All (IsIn store.old) parts.items }
    ensures { Made store.old store.new most (λ set. of_all gate (covers_each store.old parts.items set)) result }
{
    let mut sorted = parts;
    sort_by_variable(store, &mut sorted)?;
    of_parts(store, most, form, gate, sorted.as_slice())
}

/// Of some families: what at least so many cover, where these are one.
fn any_of(store: &mut Store, most: Option<u32>, form: Form, least: u32, parts: Vec<Id>) -> Mem<Id>
    requires one { least ≡ 1 }
    requires found { All (IsIn store.old) parts.items }
    ensures { Made store.old store.new most (λ set. nat_le least (count_true (covers_each store.old parts.items set))) result }
{
    of_gate(store, most, form, Gate::Or, parts)
}

/// Of some families: what at least so many cover, where these are all.
fn all_of(store: &mut Store, most: Option<u32>, form: Form, least: u32, parts: Vec<Id>) -> Mem<Id>
    requires all { least ≡ length parts.items }
    requires found { All (IsIn store.old) parts.items }
    ensures { Made store.old store.new most (λ set. nat_le least (count_true (covers_each store.old parts.items set))) result }
{
    of_gate(store, most, form, Gate::And, parts)
}

/// Puts families in the order of their first variables, and one that is said again and again side by side.
fn sort_for_counting(store: &Store, parts: &mut Vec<Id>) -> Mem<()>
    ensures { IsPermutation parts.old.items parts.new.items }
{
    parts.sort_by_key(|id: &Id| (first_variable(store, *id), id.position))?;
    Ok(())
}

/// Of some families: what at least so many cover, by a table.
fn by_table(
    alloc: Global,
    store: &mut Store,
    most: Option<u32>,
    least: u32,
    parts: &[Id],
) -> Mem<Id>
    requires { All (IsIn store.old) parts.now }
    ensures { Made store.old store.new most (λ set. nat_le least (count_true (covers_each store.old parts.now set))) result }
{
    let choice = at_least_up_to(alloc, store, least, parts, bound_of(most))?;
    cut(store, most, choice)
}

/// Of some families: what at least so many cover, by a table over them in an order that makes it small.
fn counted(
    alloc: Global,
    store: &mut Store,
    most: Option<u32>,
    least: u32,
    parts: Vec<Id>,
) -> Mem<Id>
    requires { All (IsIn store.old) parts.items }
    ensures { Made store.old store.new most (λ set. nat_le least (count_true (covers_each store.old parts.items set))) result }
{
    let mut sorted = parts;
    sort_for_counting(store, &mut sorted)?;
    by_table(alloc, store, most, least, sorted.as_slice())
}

/// Of some families: what at least so many cover, counted by place.
pub(crate) fn some_of(
    alloc: Global,
    store: &mut Store,
    most: Option<u32>,
    form: Form,
    least: u32,
    parts: Vec<Id>,
) -> Mem<Id>
    requires { All (IsIn store.old) parts.items }
    ensures { Made store.old store.new most (λ set. nat_le least (count_true (covers_each store.old parts.items set))) result }
{
    if least == 1 {
        return any_of(store, most, form, least, parts);
    }
    if least as usize == parts.as_slice().len() {
        return all_of(store, most, form, least, parts);
    }
    counted(alloc, store, most, least, parts)
}
