ghost use Rattle.std.specs.Prelude.{◌≡◌, IsTrue};
ghost use Rattle.zdd_store.specs.inner.Family.{least_number, sets_without};
ghost use Rattle.zdd_store.specs.inner.Store.{IsIn, family_of};
ghost use Rattle.zdd_families.specs.inner.Steps.{Answered};

use crate::memory::{known, note};
use crate::split::{first_var, split};
use plain_values::Mem;
use zdd_store::{Id, Operation, Question, Store};

/// Where the second family alone has the first variable, what is asked is remembered at each variable that this divides: at
/// all it would fill the memory, and at none a long way would be gone again and again.
pub(crate) const REMEMBERED: u32 = 8;

/// Whether each set of the one family is too small to contain a set of the other, by the sizes of their sets.
pub(crate) fn are_too_small(store: &Store, a: Id, b: Id) -> bool
    requires a_in { IsIn store.now a }
    requires b_in { IsIn store.now b }
    ensures { IsTrue result → sets_without (family_of store.now a) (family_of store.now b) ≡ family_of store.now a }
{
    store.laws();
    let first = store.shape(a);
    let second = store.shape(b);
    if first.greatest >= 4_294_967_295 {
        return false;
    }
    if first.greatest < second.least {
        return true;
    }
    false
}

/// The sets of the one family that contain no set of the other.
pub(crate) fn without_sets(store: &mut Store, a: Id, b: Id) -> Mem<Id>
    requires a_in { IsIn store.old a }
    requires b_in { IsIn store.old b }
    ensures { Answered store.old store.new (least_number (family_of store.old a)) (λ family. family ≡ sets_without (family_of store.old a) (family_of store.old b)) result }
{
    store.laws();
    if a == Id::EMPTY || b == Id::EMPTY {
        return Ok(a);
    }
    if a == b || b == Id::UNIT {
        return Ok(Id::EMPTY);
    }
    let small = are_too_small(store, a, b);
    if small {
        return Ok(a);
    }
    let var = first_var(store, a, b);
    let first = split(store, a, var);
    let second = split(store, b, var);
    if first.hi.position == 0 && var % REMEMBERED != 0 {
        return without_sets(store, first.lo, second.lo);
    }
    let question = Question {
        operation: Operation::Without,
        first: a,
        second: b.position,
        most: 0,
    };
    if let Some(answer) = known(store, question) {
        return Ok(answer);
    }
    let lo = without_sets(store, first.lo, second.lo)?;
    let beside = without_sets(store, first.hi, second.hi)?;
    let hi = without_sets(store, beside, second.lo)?;
    let answer = store.make(var, lo, hi)?;
    note(store, question, answer)
}
