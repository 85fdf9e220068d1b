//! Tells the sets of a listing that another system has not.

ghost use Rattle.std.specs.Prelude.{◌≡◌, ◌<◌, ◌≤◌, ◌∷◌, [], ℕ, List as Items, Ok, OnOk, false, length, true};
ghost use Rattle.std.specs.List.{AllByRecursion};
ghost use Rattle.fault_system.specs.CutSets.{IsEventSet};
ghost use Rattle.cutset_lister.specs.inner.Walks.{IsStarted, sets_left};
ghost use Rattle.listing_changes.specs.inner.Comparing.{IsComparison};
ghost use Rattle.listing_changes.specs.inner.Telling.{TellsUpTo};

use crate::comparison::{Comparison, is_matched};
use crate::lines::push_line;
use cutset_lister::Listing;
use fta_outside::Steps;
use plain_values::Mem;
use std::alloc::Global;
use std::marker::Brand;
use std::sync::ledger::{Blank, Ledger};
use zdd_store::Store;

/// What is told so far.
#[derive(Drop)]
pub(crate) struct Told {
    /// The text.
    pub(crate) text: Vec<u8>,
    /// How many sets of the listing were told.
    pub(crate) count: usize,
    /// Room for the numbers of the events of a set in the other system.
    pub(crate) numbers: Vec<u32>,
}

impl Told {
    /// Nothing.
    pub(crate) fn new(alloc: Global) -> Told
        ensures text { result.text.items ≡ [] }
        ensures count { result.count ≡ 0 }
    {
        Told {
            text: Vec::new(alloc),
            count: 0,
            numbers: Vec::new(alloc),
        }
    }
}

/// Tells of all sets of a listing those that the other system has not.
pub(crate) fn tell_sets(
    comparison: &Comparison<'_>,
    own: &Store,
    listing: &mut Listing,
    told: &mut Told,
) -> Mem<()>
    requires comparison { IsComparison comparison.now }
    requires started { IsStarted own.now listing.old }
    requires sets { AllByRecursion (IsEventSet comparison.now.here.now) (sets_left own.now listing.old) }
    requires few { told.old.count ≤ length told.old.text.items }
    ensures { OnOk result (TellsUpTo comparison.now (sets_left own.now listing.old) [] told.old told.new) }
{
    tell_on_ledger::<Brand>(comparison, own, listing, told, Blank::new(1))
}

/// The same. Its steps are counted on a ledger of its own.
fn tell_on_ledger<L: Ledger>(
    comparison: &Comparison<'_>,
    own: &Store,
    listing: &mut Listing,
    told: &mut Told,
    blank: Blank,
) -> Mem<()>
    requires name { blank.name ≡ L.name }
    requires parts { blank.parts ≡ L.parts }
    requires some { 0 < L.parts }
    requires comparison { IsComparison comparison.now }
    requires started { IsStarted own.now listing.old }
    requires sets { AllByRecursion (IsEventSet comparison.now.here.now) (sets_left own.now listing.old) }
    requires few { told.old.count ≤ length told.old.text.items }
    ensures { OnOk result (TellsUpTo comparison.now (sets_left own.now listing.old) [] told.old told.new) }
{
    let mut steps = Steps::<L>::new(blank);
    tell_all(comparison, own, listing, told, &mut steps)
}

/// Tells the rest of a listing.
fn tell_all<L: Ledger>(
    comparison: &Comparison<'_>,
    own: &Store,
    listing: &mut Listing,
    told: &mut Told,
    steps: &mut Steps<L>,
) -> Mem<()>
    requires comparison { IsComparison comparison.now }
    requires started { IsStarted own.now listing.old }
    requires sets { AllByRecursion (IsEventSet comparison.now.here.now) (sets_left own.now listing.old) }
    requires few { told.old.count ≤ length told.old.text.items }
    ensures { OnOk result (TellsUpTo comparison.now (sets_left own.now listing.old) [] told.old told.new) }
{
    let mut goes_on = true;
    while goes_on {
        goes_on = tell_next(comparison, own, listing, told, steps)?;
    }
    Ok(())
}

/// Tells the next set of a listing, if the other system has it not; whether there was a next one.
fn tell_next<L: Ledger>(
    comparison: &Comparison<'_>,
    own: &Store,
    listing: &mut Listing,
    told: &mut Told,
    steps: &mut Steps<L>,
) -> Mem<bool>
    requires comparison { IsComparison comparison.now }
    requires started { IsStarted own.now listing.old }
    requires sets { AllByRecursion (IsEventSet comparison.now.here.now) (sets_left own.now listing.old) }
    requires few { told.old.count ≤ length told.old.text.items }
    ensures told { OnOk result (TellsUpTo comparison.now (sets_left own.now listing.old) (sets_left own.now listing.new) told.old told.new) }
    ensures started { IsStarted own.now listing.new }
    ensures sets { OnOk result (AllByRecursion (IsEventSet comparison.now.here.now) (sets_left own.now listing.new)) }
    ensures end { result ≡ Ok false → sets_left own.now listing.new ≡ [] }
    ensures fewer { result ≡ Ok true → length (sets_left own.now listing.new) < length (sets_left own.now listing.old) }
{
    let Some(set) = listing.next(own, steps) else {
        return Ok(false);
    };
    tell_set(comparison, set, told)?;
    Ok(true)
}

/// Tells a set if the other system has it not.
fn tell_set(comparison: &Comparison<'_>, set: &[u32], told: &mut Told) -> Mem<()>
    requires comparison { IsComparison comparison.now }
    requires set { IsEventSet comparison.now.here.now set.now }
    requires few { told.old.count ≤ length told.old.text.items }
    ensures { OnOk result ((left : Items (Items ℕ)) → TellsUpTo comparison.now (set.now ∷ left) left told.old told.new) }
{
    if is_matched(comparison, set, &mut told.numbers)? {
        return Ok(());
    }
    push_line(comparison.word, comparison.here, set, &mut told.text)?;
    let _bytes = told.text.as_slice().len();
    told.count += 1;
    Ok(())
}
