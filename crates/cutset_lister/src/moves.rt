//! The moves of a listing from set to set.

ghost use Rattle.std.specs.Prelude.{◌≡◌, ◌+◌, ◌<◌, ◌≤◌, ℕ, IsTrue, List as Items, [], ◌∷◌, length, filter, IfNone, IfSome};
ghost use Rattle.std.specs.List.{AllByRecursion};
ghost use Rattle.zdd_store.specs.inner.Family.{least_number, precedes, is_within};
ghost use Rattle.zdd_store.specs.inner.Store.{IsIn, Fits, family_of, family_with};
ghost use Rattle.cutset_lister.specs.inner.Trails.{IsPlace, SameLeft, left_below, numbers};

use crate::path::{Frame, Path};
use fta_outside::Steps;
use std::sync::ledger::Ledger;
use zdd_store::{Id, Node, Store};

/// The node of a number, none for EMPTY and UNIT. Its variable is the least number of the family. It is one step.
fn look<L: Ledger>(store: &Store, id: Id, steps: &mut Steps<L>) -> Option<Node>
    ensures found { IfNone result (IsIn store.now id → id.position < 2) }
    ensures fits { IfSome result (Fits store.now) }
    ensures family { IfSome result (λ node. family_of store.now id ≡ family_with store.now node) }
    ensures least { IfSome result (λ node. least_number (family_of store.now id) ≡ node.var) }
    ensures step { steps.new ≡ steps.old + 1 }
{
    store.laws();
    store.node(id, steps)
}

/// Goes down to the first set of a family that has one.
pub(crate) fn descend<L: Ledger>(path: &mut Path, store: &Store, family: Id, steps: &mut Steps<L>)
    requires place { IsPlace store.now path.old family }
    requires some { 0 < family.position }
    ensures first { left_below store.now path.old.frames (family_of store.now family) ≡ numbers path.new.frames ∷ left_below store.now path.new.frames [] }
    ensures place { (empty : Id) → empty.position ≡ 0 → IsPlace store.now path.new empty }
    ensures room { path.new.room ≡ path.old.room }
    ensures steps { steps.new ≤ steps.old + path.old.room + 1 }
{
    store.laws();
    let mut id = family;
    while let Some(node) = look(store, id, steps) {
        path.push(Frame {
            number: node.var,
            low: node.lo,
        });
        id = node.hi;
    }
}

/// Goes back to the last place that has a set left; EMPTY where there is none, and then to the beginning.
pub(crate) fn go_back(path: &mut Path, family: Id) -> Id
    ensures same { SameLeft path.old path.new family result }
    ensures end { result.position ≡ 0 → path.new.frames ≡ [] }
{
    let mut id = family;
    while id == Id::EMPTY {
        let Some(frame) = path.pop() else {
            return id;
        };
        id = frame.low;
    }
    id
}

/// Goes to the first set of a family before which `after` stands: what is left is all that it stands before.
pub(crate) fn skip<L: Ledger>(
    path: &mut Path,
    store: &Store,
    family: Id,
    after: &[u32],
    steps: &mut Steps<L>,
) -> Id
    requires found { IsIn store.now family }
    requires begin { path.old.frames ≡ [] }
    requires room { 0 < family.position → length after.now ≤ path.old.room }
    ensures left { left_below store.now path.new.frames (family_of store.now result) ≡ filter (precedes after.now) (family_of store.now family) }
    ensures frames_in { AllByRecursion (λ frame. IsIn store.now frame.low) path.new.frames }
    ensures found { IsIn store.now result }
    ensures room { path.new.room ≡ path.old.room }
    ensures steps { (events : Items ℕ) → AllByRecursion (λ set. IsTrue (is_within set events)) (family_of store.now family) → steps.new ≤ steps.old + length events + 1 }
{
    store.laws();
    let mut id = family;
    if id == Id::EMPTY {
        return id;
    }
    let mut k = 0;
    while k < after.len() {
        let Some(node) = look(store, id, steps) else {
            return id;
        };
        if after[k] < node.var {
            return id;
        }
        if node.var == after[k] {
            path.push(Frame {
                number: node.var,
                low: node.lo,
            });
            id = node.hi;
            k += 1;
        } else {
            id = node.lo;
        }
    }
    Id::EMPTY
}
