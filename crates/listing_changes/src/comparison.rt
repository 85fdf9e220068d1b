//! Whether another system has a set of the same names.

ghost use Rattle.std.specs.Prelude.{◌≡◌, IfOk};
ghost use Rattle.fault_system.specs.CutSets.{IsEventSet};
ghost use Rattle.zdd_store.specs.inner.Store.{family_of};
ghost use Rattle.listing_changes.specs.Changes.{is_matched};
ghost use Rattle.listing_changes.specs.inner.Comparing.{IsComparison};

use crate::containing::has_set;
use crate::numbers::translate;
use fault_system::FaultSystem;
use plain_values::Mem;
use zdd_store::{Id, Store};

/// What the sets of a system are compared with.
#[derive(Clone, Copy)]
pub(crate) struct Comparison<'a> {
    /// The word with which the line of a set begins.
    pub(crate) word: &'a [u8],
    /// The system whose sets are told.
    pub(crate) here: &'a FaultSystem,
    /// The system in which they are looked up.
    pub(crate) there: &'a FaultSystem,
    /// By which numbers it has the events of the first.
    pub(crate) numbers: &'a [Option<u32>],
    /// The store of its sets.
    pub(crate) store: &'a Store,
    /// Its sets.
    pub(crate) sets: Id,
}

/// Whether the other system has a set of the same names. The list is for the numbers of the events there.
pub(crate) fn is_matched(
    comparison: &Comparison<'_>,
    set: &[u32],
    numbers: &mut Vec<u32>,
) -> Mem<bool>
    requires comparison { IsComparison comparison.now }
    requires set { IsEventSet comparison.now.here.now set.now }
    ensures { IfOk result (λ answer. answer ≡ is_matched comparison.now.here.now comparison.now.there.now (family_of comparison.now.store.now comparison.now.sets) set.now) }
{
    let _named = comparison.here.events();
    let _named_there = comparison.there.events();
    if !translate(comparison.numbers, set, numbers)? {
        return Ok(false);
    }
    numbers.sort_unstable();
    Ok(has_set(comparison.store, comparison.sets, numbers.as_slice()))
}
