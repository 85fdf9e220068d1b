ghost use Rattle.std.specs.Prelude.{◌≡◌, ◌<◌, ◌≤◌, ◌^◌, min, max, IfSome, IfNone};
ghost use Rattle.zdd_store.specs.inner.Family.{least_number};
ghost use Rattle.zdd_store.specs.inner.Store.{IsIn, family_of, family_with, Fits};
ghost use Rattle.zdd_families.specs.inner.Steps.{IsSplit};

use fta_outside::Steps;
use std::marker::Brand;
use std::sync::ledger::{Blank, Ledger};
use zdd_store::{Id, Node, Store};

/// The sets of a family without a variable, and those with it, from which it is taken away.
#[derive(Clone, Copy, Debug, PartialEq, Eq)]
pub struct Parts {
    pub lo: Id,
    pub hi: Id,
}

fn look_on<L: Ledger>(store: &Store, id: Id, blank: Blank) -> Option<Node>
    requires name { blank.name ≡ L.name }
    requires parts { blank.parts ≡ L.parts }
    requires some { 0 < L.parts }
    ensures found { IfNone result (IsIn store.now id → id.position < 2) }
    ensures fits { IfSome result (Fits store.now) }
    ensures family { IfSome result (λ node. family_of store.now id ≡ family_with store.now node) }
{
    let mut steps = Steps::<L>::new(blank);
    store.node(id, &mut steps)
}

/// The node of a number. The steps are counted on a ledger of its own, which is dropped.
fn node_of(store: &Store, id: Id) -> Option<Node>
    ensures found { IfNone result (IsIn store.now id → id.position < 2) }
    ensures fits { IfSome result (Fits store.now) }
    ensures family { IfSome result (λ node. family_of store.now id ≡ family_with store.now node) }
{
    look_on::<Brand>(store, id, Blank::new(1))
}

/// The node of a number, none for EMPTY and UNIT. Its variable is the least number of the family.
pub fn look(store: &Store, id: Id) -> Option<Node>
    ensures found { IfNone result (IsIn store.now id → id.position < 2) }
    ensures fits { IfSome result (Fits store.now) }
    ensures family { IfSome result (λ node. family_of store.now id ≡ family_with store.now node) }
    ensures least { IfSome result (λ node. least_number (family_of store.now id) ≡ node.var) }
{
    store.laws();
    node_of(store, id)
}

/// The least number of a family; 2 ^ 32 for EMPTY and UNIT.
fn least_var(store: &Store, id: Id) -> u64
    requires { IsIn store.now id }
    ensures value { result ≡ least_number (family_of store.now id) }
    ensures fits { 1 < id.position → result < 2 ^ 32 }
{
    store.laws();
    match look(store, id) {
        Some(node) => node.var as u64,
        None => 4_294_967_296,
    }
}

/// The least number of two families, one of which has a node.
pub(crate) fn first_var(store: &Store, a: Id, b: Id) -> u32
    requires a_in { IsIn store.now a }
    requires b_in { IsIn store.now b }
    requires node { 1 < max a.position b.position }
    ensures { result ≡ min (least_number (family_of store.now a)) (least_number (family_of store.now b)) }
{
    least_var(store, a).min(least_var(store, b)) as u32
}

/// Splits a family at a variable that is not greater than its least number.
pub(crate) fn split(store: &Store, id: Id, var: u32) -> Parts
    requires found { IsIn store.now id }
    requires not_greater { var ≤ least_number (family_of store.now id) }
    ensures { IsSplit store.now id var result }
{
    store.laws();
    match look(store, id) {
        Some(node) if node.var == var => Parts {
            lo: node.lo,
            hi: node.hi,
        },
        _ => Parts {
            lo: id,
            hi: Id::EMPTY,
        },
    }
}
