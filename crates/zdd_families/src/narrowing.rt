//! The minimal sets of wide families.
ghost use Rattle.std.specs.Prelude.{◌≡◌, ◌<◌, ℕ, List};
ghost use Rattle.zdd_store.specs.inner.Family.{least_number, sets_without, IsAntichain, covers};
ghost use Rattle.zdd_store.specs.inner.Store.{IsIn, family_of};
ghost use Rattle.zdd_store.specs.inner.Answers.{IsLeastFamily};
ghost use Rattle.zdd_families.specs.inner.Steps.{Answered, joined};

use crate::memory::{known, note};
use crate::removal::{REMEMBERED, are_too_small};
use crate::split::{first_var, split};
use crate::wide::wide_parts;
use plain_values::Mem;
use zdd_store::{Id, Operation, Question, Store};

/// The sets of the one family that contain no set of the other. It is quick where the other is wide.
pub(crate) fn without_wide(store: &mut Store, a: Id, b: Id) -> Mem<Id>
    requires a_in { IsIn store.old a }
    requires b_in { IsIn store.old b }
    ensures { Answered store.old store.new (least_number (family_of store.old a)) (λ family. family ≡ sets_without (family_of store.old a) (family_of store.old b)) result }
{
    store.laws();
    if a == Id::EMPTY || b == Id::EMPTY {
        return Ok(a);
    }
    if a == b || b == Id::UNIT {
        return Ok(Id::EMPTY);
    }
    let small = are_too_small(store, a, b);
    if small {
        return Ok(a);
    }
    let var = first_var(store, a, b);
    let first = split(store, a, var);
    let second = split(store, b, var);
    if first.hi.position == 0 && var % REMEMBERED != 0 {
        return without_wide(store, first.lo, second.lo);
    }
    let question = Question {
        operation: Operation::Without,
        first: a,
        second: b.position,
        most: 0,
    };
    if let Some(answer) = known(store, question) {
        return Ok(answer);
    }
    let parts = wide_parts(store, b, var)?;
    let lo = without_wide(store, first.lo, parts.lo)?;
    let hi = without_wide(store, first.hi, parts.hi)?;
    let answer = store.make(var, lo, hi)?;
    note(store, question, answer)
}

/// The minimal sets among those of `lo` and, with the variable added, those of `hi`, where `below` covers what `lo` does.
fn join_above(store: &mut Store, var: u32, lo: Id, hi: Id, below: Id) -> Mem<Id>
    requires lo_in { IsIn store.old lo }
    requires hi_in { IsIn store.old hi }
    requires below_in { IsIn store.old below }
    requires lo_greater { var < least_number (family_of store.old lo) }
    requires hi_greater { var < least_number (family_of store.old hi) }
    requires lo_apart { IsAntichain (family_of store.old lo) }
    requires hi_apart { IsAntichain (family_of store.old hi) }
    requires same { (set : List ℕ) → covers (family_of store.old below) set ≡ covers (family_of store.old lo) set }
    ensures { Answered store.old store.new var (IsLeastFamily (joined var (family_of store.old lo) (family_of store.old hi))) result }
{
    let others = without_wide(store, hi, below)?;
    store.make(var, lo, others)
}

/// The minimal sets of a family. It is quick where that is wide.
pub(crate) fn minimal_of_wide(store: &mut Store, a: Id) -> Mem<Id>
    requires { IsIn store.old a }
    ensures { Answered store.old store.new (least_number (family_of store.old a)) (IsLeastFamily (covers (family_of store.old a))) result }
{
    store.laws();
    if a == Id::EMPTY || a == Id::UNIT {
        return Ok(a);
    }
    let shape = store.shape(a);
    if shape.apart {
        return Ok(a);
    }
    let question = Question {
        operation: Operation::Minimal,
        first: a,
        second: 0,
        most: 0,
    };
    if let Some(answer) = known(store, question) {
        return Ok(answer);
    }
    let var = first_var(store, a, a);
    let parts = split(store, a, var);
    let lo = minimal_of_wide(store, parts.lo)?;
    let hi = minimal_of_wide(store, parts.hi)?;
    let answer = join_above(store, var, lo, hi, parts.lo)?;
    note(store, question, answer)
}
