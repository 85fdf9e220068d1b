ghost use Rattle.std.specs.Prelude.{◌≡◌, ◌+◌, ◌<◌, ◌≤◌, min, ℕ, List, false, IfNone, IfSome, IsTrue};
ghost use Rattle.zdd_store.specs.inner.Family.{least_number, IsAntichain, covers};
ghost use Rattle.zdd_store.specs.inner.Store.{IsIn, family_of};
ghost use Rattle.zdd_store.specs.inner.Answers.{IsAsked, IsLeastUpTo, IsProductUpTo};
ghost use Rattle.zdd_families.specs.inner.Steps.{Answered, both, across, CanCross, IsOperand};

use crate::halving::whole_product;
use crate::memory::{keep, kept, known, note};
use crate::minimal::join;
use crate::sizes::sets_within;
use crate::split::{Parts, first_var, split};
use crate::union::union_sets;
use plain_values::Mem;
use zdd_store::{Id, Operation, Question, Store};

/// One of two families that covers what both cover, where their numbers tell; else each has a variable.
fn one_operand(store: &Store, a: Id, b: Id) -> Option<Id>
    requires a_in { IsIn store.now a }
    requires b_in { IsIn store.now b }
    requires a_apart { IsAntichain (family_of store.now a) }
    requires b_apart { IsAntichain (family_of store.now b) }
    ensures some { IfSome result (IsOperand store.now a b) }
    ensures none { IfNone result ((1 < a.position) × (1 < b.position)) }
{
    store.laws();
    if a.position == b.position {
        return Some(a);
    }
    if a.position == 0 {
        return Some(a);
    }
    if a.position == 1 {
        return Some(b);
    }
    if b.position == 0 {
        return Some(b);
    }
    if b.position == 1 {
        return Some(a);
    }
    None
}

/// The sets of a family of minimal sets that are asked for.
pub(crate) fn asked_sets(store: &mut Store, a: Id, most: u32) -> Mem<Id>
    requires a_in { IsIn store.old a }
    requires a_apart { IsAntichain (family_of store.old a) }
    ensures { Answered store.old store.new (least_number (family_of store.old a)) (IsLeastUpTo most (covers (family_of store.old a))) result }
{
    store.laws();
    if most >= 4_294_967_295 {
        return Ok(a);
    }
    sets_within(store, a, most)
}

/// Whether the sets of one of two families have more numbers than a set that is asked for, by their sizes.
fn are_too_large(store: &Store, a: Id, b: Id, most: u32) -> bool
    requires a_in { IsIn store.now a }
    requires b_in { IsIn store.now b }
    ensures { IsTrue result → (set : List ℕ) → IsAsked most set → both (family_of store.now a) (family_of store.now b) set ≡ false }
{
    store.laws();
    if most >= 4_294_967_295 {
        return false;
    }
    let first = store.shape(a);
    let second = store.shape(b);
    if most < first.least {
        return true;
    }
    if most < second.least {
        return true;
    }
    false
}

/// How many numbers a set has at most that is asked for: any number where the sizes allow no more.
fn bound_of(store: &Store, a: Id, b: Id, most: u32) -> u32
    ensures { (set : List ℕ) → IsAsked most set → IsAsked result set }
{
    let first = store.shape(a);
    let second = store.shape(b);
    if first.greatest.saturating_add(second.greatest) <= most {
        return 4_294_967_295;
    }
    most
}

/// How many numbers a set has at most that is asked for, with one number taken away.
fn one_less(most: u32) -> u32
    ensures { (size : ℕ) → (most < 4294967295 → size + 1 ≤ most) → result < 4294967295 → size ≤ result }
{
    if most >= 4_294_967_295 {
        return most;
    }
    most.saturating_sub(1)
}

/// The minimal sets among the unions of a set of the one family and a set of the other, of which each has minimal sets
/// alone; as far as sets are asked for.
#[cycle(product)]
pub(crate) fn product_sets(store: &mut Store, a: Id, b: Id, most: u32) -> Mem<Id>
    requires a_in { IsIn store.old a }
    requires b_in { IsIn store.old b }
    requires a_apart { IsAntichain (family_of store.old a) }
    requires b_apart { IsAntichain (family_of store.old b) }
    ensures { Answered store.old store.new (min (least_number (family_of store.old a)) (least_number (family_of store.old b))) (IsProductUpTo most (family_of store.old a) (family_of store.old b)) result }
{
    store.laws();
    if let Some(operand) = one_operand(store, a, b) {
        return asked_sets(store, operand, most);
    }
    let large = are_too_large(store, a, b, most);
    if large {
        return Ok(Id::EMPTY);
    }
    let bound = bound_of(store, a, b, most);
    if b.position < a.position {
        product_anew(store, b, a, bound)
    } else {
        product_anew(store, a, b, bound)
    }
}

/// The same for two families of which each has a variable; the answer is looked up, or made and remembered.
#[cycle(product)]
fn product_anew(store: &mut Store, a: Id, b: Id, most: u32) -> Mem<Id>
    requires a_in { IsIn store.old a }
    requires b_in { IsIn store.old b }
    requires a_node { 1 < a.position }
    requires a_apart { IsAntichain (family_of store.old a) }
    requires b_apart { IsAntichain (family_of store.old b) }
    ensures { Answered store.old store.new (min (least_number (family_of store.old a)) (least_number (family_of store.old b))) (IsProductUpTo most (family_of store.old a) (family_of store.old b)) result }
{
    let question = Question {
        operation: Operation::MinProduct,
        first: a,
        second: b.position,
        most,
    };
    if let Some(answer) = known(store, question) {
        return Ok(answer);
    }
    let var = first_var(store, a, b);
    let first = split(store, a, var);
    let second = split(store, b, var);
    let lo = product_sets(store, first.lo, second.lo, most)?;
    let hi = product_with(store, var, first, second, one_less(most))?;
    let answer = join(store, var, lo, hi)?;
    note(store, question, answer)
}

/// The minimal sets among the unions of which at least one part comes from a set with the variable.
#[cycle(product)]
fn product_with(store: &mut Store, var: u32, first: Parts, second: Parts, most: u32) -> Mem<Id>
    requires first_can { CanCross store.old var first }
    requires second_can { CanCross store.old var second }
    ensures { Answered store.old store.new (var + 1) (IsLeastUpTo most (across store.old first second)) result }
{
    store.laws();
    if first.hi.position == 0 {
        return product_sets(store, first.lo, second.hi, most);
    }
    let any = union_sets(store, second.lo, second.hi)?;
    let with_first = product_sets(store, first.hi, any, most)?;
    let with_second = product_sets(store, first.lo, second.hi, most)?;
    union_sets(store, with_first, with_second)
}

/// What `product_sets` answers; the answer is kept.
pub(crate) fn kept_product(store: &mut Store, a: Id, b: Id, most: u32) -> Mem<Id>
    requires a_in { IsIn store.old a }
    requires b_in { IsIn store.old b }
    requires a_apart { IsAntichain (family_of store.old a) }
    requires b_apart { IsAntichain (family_of store.old b) }
    ensures { Answered store.old store.new (min (least_number (family_of store.old a)) (least_number (family_of store.old b))) (IsProductUpTo most (family_of store.old a) (family_of store.old b)) result }
{
    let question = Question {
        operation: Operation::MinProduct,
        first: a,
        second: b.position,
        most,
    };
    if let Some(answer) = kept(store, question) {
        return Ok(answer);
    }
    let answer = whole_product(store, a, b, most)?;
    keep(store, question, answer)
}
