//! Families that are joined branch by branch.
//!
//! A wide family covers at each variable, with it, all that it covers without it. Two such are joined as diagrams of Boolean
//! functions are, and no set is looked for that contains another. Any family may be asked for: one that is not known to be
//! wide is made so on the way.
ghost use Rattle.std.specs.Prelude.{◌<◌, ◌≤◌, min, ℕ, List, IsTrue};
ghost use Rattle.zdd_store.specs.inner.Family.{least_number, covers};
ghost use Rattle.zdd_store.specs.inner.Store.{IsIn, family_of};
ghost use Rattle.zdd_store.specs.inner.Answers.{IsCovering, IsUnionOf, IsMeetOf};
ghost use Rattle.zdd_families.specs.inner.Steps.{Answered, joined};
ghost use Rattle.zdd_families.specs.inner.Rising.{PartsMade, BothMade};

use crate::memory::{known, note};
use crate::split::{Parts, first_var, look};
use plain_values::Mem;
use zdd_store::{Id, Operation, Question, Store};

/// The parts of two families at one variable.
#[derive(Clone, Copy)]
pub(crate) struct BothParts {
    pub first: Parts,
    pub second: Parts,
}

/// The parts of a family at a variable that is not greater than its least number: what it covers without the variable, and
/// what it covers with it, which is no less.
#[cycle(wide)]
pub(crate) fn wide_parts(store: &mut Store, id: Id, var: u32) -> Mem<Parts>
    requires found { IsIn store.old id }
    requires not_greater { var ≤ least_number (family_of store.old id) }
    ensures { PartsMade store.old store.new id var result }
{
    store.laws();
    let Some(node) = look(store, id) else {
        return Ok(Parts { lo: id, hi: id });
    };
    if var < node.var {
        return Ok(Parts { lo: id, hi: id });
    }
    let shape = store.shape(id);
    if shape.wide {
        return Ok(Parts {
            lo: node.lo,
            hi: node.hi,
        });
    }
    let hi = union_wide(store, node.lo, node.hi)?;
    Ok(Parts { lo: node.lo, hi })
}

/// The parts of two families at a variable that is not greater than their least numbers.
#[cycle(wide)]
pub(crate) fn both_parts(store: &mut Store, a: Id, b: Id, var: u32) -> Mem<BothParts>
    requires a_in { IsIn store.old a }
    requires b_in { IsIn store.old b }
    requires a_not_greater { var ≤ least_number (family_of store.old a) }
    requires b_not_greater { var ≤ least_number (family_of store.old b) }
    ensures { BothMade store.old store.new a b var result }
{
    let first = wide_parts(store, a, var)?;
    let second = wide_parts(store, b, var)?;
    Ok(BothParts { first, second })
}

/// What covers the sets that `lo` covers, and with the variable those that `hi` covers, which are no less.
pub(crate) fn wide_make(store: &mut Store, var: u32, lo: Id, hi: Id) -> Mem<Id>
    requires lo_in { IsIn store.old lo }
    requires hi_in { IsIn store.old hi }
    requires lo_greater { var < least_number (family_of store.old lo) }
    requires hi_greater { var < least_number (family_of store.old hi) }
    requires rises { (set : List ℕ) → IsTrue (covers (family_of store.old lo) set) → IsTrue (covers (family_of store.old hi) set) }
    ensures { Answered store.old store.new var (IsCovering var (joined var (family_of store.old lo) (family_of store.old hi))) result }
{
    if lo.position == hi.position {
        return Ok(lo);
    }
    let made = store.make(var, lo, hi)?;
    store.note_wide(made);
    Ok(made)
}

/// A wide family that covers what one of two families covers.
#[cycle(wide)]
pub(crate) fn union_wide(store: &mut Store, a: Id, b: Id) -> Mem<Id>
    requires a_in { IsIn store.old a }
    requires b_in { IsIn store.old b }
    ensures { Answered store.old store.new (min (least_number (family_of store.old a)) (least_number (family_of store.old b))) (IsUnionOf (family_of store.old a) (family_of store.old b)) result }
{
    store.laws();
    if a.position == b.position {
        return Ok(a);
    }
    if a.position == 0 {
        return Ok(b);
    }
    if a.position == 1 {
        return Ok(a);
    }
    if b.position == 0 {
        return Ok(a);
    }
    if b.position == 1 {
        return Ok(b);
    }
    if b.position < a.position {
        union_wide_anew(store, b, a)
    } else {
        union_wide_anew(store, a, b)
    }
}

/// The same for two families of which each has a variable; the answer is looked up, or made and remembered.
#[cycle(wide)]
fn union_wide_anew(store: &mut Store, a: Id, b: Id) -> Mem<Id>
    requires a_in { IsIn store.old a }
    requires b_in { IsIn store.old b }
    requires a_node { 1 < a.position }
    ensures { Answered store.old store.new (min (least_number (family_of store.old a)) (least_number (family_of store.old b))) (IsUnionOf (family_of store.old a) (family_of store.old b)) result }
{
    let question = Question {
        operation: Operation::Union,
        first: a,
        second: b.position,
        most: 0,
    };
    if let Some(answer) = known(store, question) {
        return Ok(answer);
    }
    let var = first_var(store, a, b);
    let parts = both_parts(store, a, b, var)?;
    let lo = union_wide(store, parts.first.lo, parts.second.lo)?;
    let hi = union_wide(store, parts.first.hi, parts.second.hi)?;
    let answer = wide_make(store, var, lo, hi)?;
    note(store, question, answer)
}

/// A wide family that covers what both of two families cover.
#[cycle(meet)]
pub(crate) fn meet_wide(store: &mut Store, a: Id, b: Id) -> Mem<Id>
    requires a_in { IsIn store.old a }
    requires b_in { IsIn store.old b }
    ensures { Answered store.old store.new (min (least_number (family_of store.old a)) (least_number (family_of store.old b))) (IsMeetOf (family_of store.old a) (family_of store.old b)) result }
{
    store.laws();
    if a.position == b.position {
        return Ok(a);
    }
    if a.position == 0 {
        return Ok(a);
    }
    if a.position == 1 {
        return Ok(b);
    }
    if b.position == 0 {
        return Ok(b);
    }
    if b.position == 1 {
        return Ok(a);
    }
    if b.position < a.position {
        meet_wide_anew(store, b, a)
    } else {
        meet_wide_anew(store, a, b)
    }
}

/// The same for two families of which each has a variable; the answer is looked up, or made and remembered.
#[cycle(meet)]
fn meet_wide_anew(store: &mut Store, a: Id, b: Id) -> Mem<Id>
    requires a_in { IsIn store.old a }
    requires b_in { IsIn store.old b }
    requires a_node { 1 < a.position }
    ensures { Answered store.old store.new (min (least_number (family_of store.old a)) (least_number (family_of store.old b))) (IsMeetOf (family_of store.old a) (family_of store.old b)) result }
{
    let question = Question {
        operation: Operation::Meet,
        first: a,
        second: b.position,
        most: 0,
    };
    if let Some(answer) = known(store, question) {
        return Ok(answer);
    }
    let var = first_var(store, a, b);
    let parts = both_parts(store, a, b, var)?;
    let lo = meet_wide(store, parts.first.lo, parts.second.lo)?;
    let hi = meet_wide(store, parts.first.hi, parts.second.hi)?;
    let answer = wide_make(store, var, lo, hi)?;
    note(store, question, answer)
}
