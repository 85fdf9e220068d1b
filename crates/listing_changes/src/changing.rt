//! What changed between the minimal cut sets of a target in two systems.

ghost use Rattle.std.specs.Prelude.{◌≡◌, ◌+◌, ◌++◌, ◌≤◌, IfOk, OnOk, length};
ghost use Rattle.zdd_store.specs.inner.Store.{family_of};
ghost use Rattle.cutset_lister.specs.inner.Walks.{sets_left};
ghost use Rattle.listing_changes.specs.Changes.{TellsChanges, change_lines, unmatched};
ghost use Rattle.listing_changes.specs.inner.Sides.{CanBeAsked, CanBeTold, IsSide};

use crate::comparison::Comparison;
use crate::cuts::{Cuts, cuts_of};
use crate::lines::push_end;
use crate::numbers::numbers_there;
use crate::side::Side;
use crate::telling::{Told, tell_sets};
use plain_values::Mem;
use std::alloc::Global;

/// What changed from the minimal cut sets of a target of an older system to those of a target of a newer one, of at most so many events
/// where a greatest order is given. A set of the one is in the other if there is one with events of the same names.
///
/// First come the sets that are gone, each as `gone`, its order and its names as a page of `cuts` has them, in the order of the older
/// listing; then those that are new, as `new`, in that of the newer one; then `end gone` and `new` with how many there are. No listing is
/// held whole: each set is looked up in the diagram of the others, in a time that goes with its events and the variables before them.
pub fn changes(
    alloc: Global,
    older: &Side<'_>,
    newer: &Side<'_>,
    max_order: Option<u32>,
) -> Mem<Vec<u8>>
    requires older { IsSide older.now }
    requires newer { IsSide newer.now }
    ensures { IfOk result (λ text. TellsChanges older.now.system.now older.now.part.now.target newer.now.system.now newer.now.part.now.target max_order text.items) }
{
    let mut before = cuts_of(alloc, older, max_order)?;
    let mut after = cuts_of(alloc, newer, max_order)?;
    let mut told = Told::new(alloc);
    tell_lacking(alloc, b"gone ", &mut before, &after, &mut told)?;
    let gone = told.count;
    told.count = 0;
    tell_lacking(alloc, b"new ", &mut after, &before, &mut told)?;
    push_end(gone, told.count, &mut told.text)?;
    Ok(told.text)
}

/// Tells the sets of the one system that the other has not.
fn tell_lacking(
    alloc: Global,
    word: &[u8],
    here: &mut Cuts<'_>,
    there: &Cuts<'_>,
    told: &mut Told,
) -> Mem<()>
    requires here { CanBeTold here.old }
    requires there { CanBeAsked there.now }
    requires few { told.old.count ≤ length told.old.text.items }
    ensures text { OnOk result (told.new.text.items ≡ told.old.text.items ++ change_lines word.now here.old.system.now (unmatched here.old.system.now there.now.system.now (family_of there.now.store there.now.sets) (sets_left here.old.store here.old.listing))) }
    ensures count { OnOk result (told.new.count ≡ told.old.count + length (unmatched here.old.system.now there.now.system.now (family_of there.now.store there.now.sets) (sets_left here.old.store here.old.listing))) }
    ensures system { here.new.system ≡ here.old.system }
    ensures store { here.new.store ≡ here.old.store }
    ensures sets { here.new.sets ≡ here.old.sets }
{
    let numbers = numbers_there(alloc, here.system, there.system)?;
    let comparison = Comparison {
        word,
        here: here.system,
        there: there.system,
        numbers: numbers.as_slice(),
        store: &there.store,
        sets: there.sets,
    };
    tell_sets(&comparison, &here.store, &mut here.listing, told)
}
