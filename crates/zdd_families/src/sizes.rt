ghost use Rattle.std.specs.Prelude.{◌≡◌, ◌<◌, IfOk, IfSome, IfNone};
ghost use Rattle.zdd_store.specs.inner.Family.{least_number};
ghost use Rattle.zdd_store.specs.inner.Store.{IsIn, family_of, Keeps};
ghost use Rattle.zdd_store.specs.inner.Answers.{sets_up_to, sets_of};
ghost use Rattle.zdd_families.specs.inner.Steps.{Answered};

use crate::memory::{known, note};
use crate::split::{first_var, split};
use plain_values::Mem;
use zdd_store::{Id, Operation, Question, Store};

/// The sets of at most so many numbers, where the sizes tell them: all or none.
fn within_by_size(store: &Store, a: Id, most: u32) -> Option<Id>
    requires { IsIn store.now a }
    ensures told { IfSome result (λ id. (IsIn store.now id) × (family_of store.now id ≡ sets_up_to most (family_of store.now a))) }
    ensures node { IfNone result (1 < a.position) }
{
    store.laws();
    if a.position < 2 {
        return Some(a);
    }
    let shape = store.shape(a);
    if shape.greatest <= most && shape.greatest < 4_294_967_295 {
        return Some(a);
    }
    if most < shape.least {
        return Some(Id::EMPTY);
    }
    None
}

/// The sets of a family that have at most so many numbers.
pub(crate) fn sets_within(store: &mut Store, a: Id, most: u32) -> Mem<Id>
    requires { IsIn store.old a }
    ensures { Answered store.old store.new (least_number (family_of store.old a)) (λ family. family ≡ sets_up_to most (family_of store.old a)) result }
{
    if let Some(answer) = within_by_size(store, a, most) {
        return Ok(answer);
    }
    let question = Question {
        operation: Operation::UpToSize,
        first: a,
        second: most,
        most: 0,
    };
    if let Some(answer) = known(store, question) {
        return Ok(answer);
    }
    let var = first_var(store, a, a);
    let parts = split(store, a, var);
    let lo = sets_within(store, parts.lo, most)?;
    if most == 0 {
        return note(store, question, lo);
    }
    let hi = sets_within(store, parts.hi, most - 1)?;
    let answer = store.make(var, lo, hi)?;
    note(store, question, answer)
}

/// The sets of exactly so many numbers, where the sizes tell them: all or none.
fn exact_by_size(store: &Store, a: Id, size: u32) -> Option<Id>
    requires { IsIn store.now a }
    ensures told { IfSome result (λ id. (IsIn store.now id) × (family_of store.now id ≡ sets_of size (family_of store.now a))) }
    ensures node { IfNone result (1 < a.position) }
{
    store.laws();
    if a.position == 0 {
        return Some(a);
    }
    if a.position == 1 {
        return Some(if size == 0 { Id::UNIT } else { Id::EMPTY });
    }
    let shape = store.shape(a);
    if shape.greatest < size && shape.greatest < 4_294_967_295 {
        return Some(Id::EMPTY);
    }
    if shape.least == size && shape.greatest == size && size < 4_294_967_295 {
        return Some(a);
    }
    if size < shape.least {
        return Some(Id::EMPTY);
    }
    None
}

/// The sets of a family that have exactly so many numbers.
fn sets_of_size(store: &mut Store, a: Id, size: u32) -> Mem<Id>
    requires { IsIn store.old a }
    ensures { Answered store.old store.new (least_number (family_of store.old a)) (λ family. family ≡ sets_of size (family_of store.old a)) result }
{
    if let Some(answer) = exact_by_size(store, a, size) {
        return Ok(answer);
    }
    let question = Question {
        operation: Operation::OfSize,
        first: a,
        second: size,
        most: 0,
    };
    if let Some(answer) = known(store, question) {
        return Ok(answer);
    }
    let var = first_var(store, a, a);
    let parts = split(store, a, var);
    let lo = sets_of_size(store, parts.lo, size)?;
    if size == 0 {
        return note(store, question, lo);
    }
    let hi = sets_of_size(store, parts.hi, size - 1)?;
    let answer = store.make(var, lo, hi)?;
    note(store, question, answer)
}

/// The sets of a family that have at most so many numbers.
pub fn up_to_size(store: &mut Store, a: Id, most: u32) -> Mem<Id>
    requires { IsIn store.old a }
    ensures found { IfOk result (IsIn store.new) }
    ensures family { IfOk result (λ id. family_of store.new id ≡ sets_up_to most (family_of store.old a)) }
    ensures kept { Keeps store.old store.new }
{
    let answer = sets_within(store, a, most)?;
    Ok(answer)
}

/// The sets of a family that have exactly so many numbers.
pub fn of_size(store: &mut Store, a: Id, size: u32) -> Mem<Id>
    requires { IsIn store.old a }
    ensures found { IfOk result (IsIn store.new) }
    ensures family { IfOk result (λ id. family_of store.new id ≡ sets_of size (family_of store.old a)) }
    ensures kept { Keeps store.old store.new }
{
    let answer = sets_of_size(store, a, size)?;
    Ok(answer)
}
