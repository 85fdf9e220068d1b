ghost use Rattle.std.specs.Prelude.{◌<◌};
ghost use Rattle.zdd_store.specs.inner.Family.{least_number, IsAntichain, covers};
ghost use Rattle.zdd_store.specs.inner.Store.{IsIn, family_of};
ghost use Rattle.zdd_store.specs.inner.Answers.{IsLeastFamily};
ghost use Rattle.zdd_families.specs.inner.Steps.{Answered, joined};

use crate::memory::{known, note};
use crate::removal::without_sets;
use crate::split::{first_var, split};
use plain_values::Mem;
use zdd_store::{Id, Operation, Question, Store};

/// The minimal sets among those of `lo` and, with the variable added, those of `hi`.
pub(crate) fn join(store: &mut Store, var: u32, lo: Id, hi: Id) -> Mem<Id>
    requires lo_in { IsIn store.old lo }
    requires hi_in { IsIn store.old hi }
    requires lo_greater { var < least_number (family_of store.old lo) }
    requires hi_greater { var < least_number (family_of store.old hi) }
    requires lo_apart { IsAntichain (family_of store.old lo) }
    requires hi_apart { IsAntichain (family_of store.old hi) }
    ensures { Answered store.old store.new var (IsLeastFamily (joined var (family_of store.old lo) (family_of store.old hi))) result }
{
    let others = without_sets(store, hi, lo)?;
    store.make(var, lo, others)
}

/// The minimal sets of a family.
pub(crate) fn minimal_sets(store: &mut Store, a: Id) -> Mem<Id>
    requires { IsIn store.old a }
    ensures { Answered store.old store.new (least_number (family_of store.old a)) (IsLeastFamily (covers (family_of store.old a))) result }
{
    store.laws();
    if a == Id::EMPTY || a == Id::UNIT {
        return Ok(a);
    }
    let shape = store.shape(a);
    if shape.apart {
        return Ok(a);
    }
    let question = Question {
        operation: Operation::Minimal,
        first: a,
        second: 0,
        most: 0,
    };
    if let Some(answer) = known(store, question) {
        return Ok(answer);
    }
    let var = first_var(store, a, a);
    let parts = split(store, a, var);
    let lo = minimal_sets(store, parts.lo)?;
    let hi = minimal_sets(store, parts.hi)?;
    let answer = join(store, var, lo, hi)?;
    note(store, question, answer)
}
