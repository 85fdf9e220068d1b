ghost use Rattle.std.specs.Prelude.{◌<◌, min};
ghost use Rattle.zdd_store.specs.inner.Family.{least_number, IsAntichain};
ghost use Rattle.zdd_store.specs.inner.Store.{IsIn, family_of};
ghost use Rattle.zdd_store.specs.inner.Answers.{IsLeastFamily};
ghost use Rattle.zdd_families.specs.inner.Steps.{Answered, either};

use crate::memory::{keep, kept, known, note};
use crate::minimal::join;
use crate::split::{first_var, split};
use plain_values::Mem;
use zdd_store::{Id, Operation, Question, Store};

/// The minimal sets of the union of two families, of which each has minimal sets alone.
#[cycle(union)]
pub(crate) fn union_sets(store: &mut Store, a: Id, b: Id) -> Mem<Id>
    requires a_in { IsIn store.old a }
    requires b_in { IsIn store.old b }
    requires a_apart { IsAntichain (family_of store.old a) }
    requires b_apart { IsAntichain (family_of store.old b) }
    ensures { Answered store.old store.new (min (least_number (family_of store.old a)) (least_number (family_of store.old b))) (IsLeastFamily (either (family_of store.old a) (family_of store.old b))) result }
{
    store.laws();
    if a == b || b == Id::EMPTY || a == Id::UNIT {
        return Ok(a);
    }
    if a == Id::EMPTY || b == Id::UNIT {
        return Ok(b);
    }
    if b.position < a.position {
        union_anew(store, b, a)
    } else {
        union_anew(store, a, b)
    }
}

/// The same for two families of which each has a variable; the answer is looked up, or made and remembered.
#[cycle(union)]
fn union_anew(store: &mut Store, a: Id, b: Id) -> Mem<Id>
    requires a_in { IsIn store.old a }
    requires b_in { IsIn store.old b }
    requires a_node { 1 < a.position }
    requires a_apart { IsAntichain (family_of store.old a) }
    requires b_apart { IsAntichain (family_of store.old b) }
    ensures { Answered store.old store.new (min (least_number (family_of store.old a)) (least_number (family_of store.old b))) (IsLeastFamily (either (family_of store.old a) (family_of store.old b))) result }
{
    let question = Question {
        operation: Operation::MinUnion,
        first: a,
        second: b.position,
        most: 0,
    };
    if let Some(answer) = known(store, question) {
        return Ok(answer);
    }
    let var = first_var(store, a, b);
    let first = split(store, a, var);
    let second = split(store, b, var);
    let lo = union_sets(store, first.lo, second.lo)?;
    let hi = union_sets(store, first.hi, second.hi)?;
    let answer = join(store, var, lo, hi)?;
    note(store, question, answer)
}

/// What `union_sets` answers; the answer is kept.
pub(crate) fn kept_union(store: &mut Store, a: Id, b: Id) -> Mem<Id>
    requires a_in { IsIn store.old a }
    requires b_in { IsIn store.old b }
    requires a_apart { IsAntichain (family_of store.old a) }
    requires b_apart { IsAntichain (family_of store.old b) }
    ensures { Answered store.old store.new (min (least_number (family_of store.old a)) (least_number (family_of store.old b))) (IsLeastFamily (either (family_of store.old a) (family_of store.old b))) result }
{
    let question = Question {
        operation: Operation::MinUnion,
        first: a,
        second: b.position,
        most: 0,
    };
    if let Some(answer) = kept(store, question) {
        return Ok(answer);
    }
    let answer = union_sets(store, a, b)?;
    keep(store, question, answer)
}
