ghost use Rattle.std.specs.Prelude.{◌≡◌, ◌<◌, [], IfErr, IfSome, Ok, OnOk, false, length, true, vec_len};
ghost use Rattle.plain_values.specs.Rising.{RisesWithin};
ghost use Rattle.cutset_lister.specs.inner.Walks.{IsSameListing, IsStarted, sets_left};
ghost use Rattle.cut_reports.specs.Places.{AtChosen, is_among};
ghost use Rattle.cut_reports.specs.Feeding.{IsKept, RoseAt};
ghost use Rattle.cut_reports.specs.inner.Feeding.{AreFor, ChosenFit, ChosenTake, Fed, TookSets};
ghost use Rattle.cut_reports.specs.inner.Texts.{FaultAt};

use crate::giving::{FeedFault, give_family, give_set};
use crate::stop::ReportStop;
use cutset_lister::Listing;
use fta_outside::{FamilyCounts, Report, Steps};
use std::alloc::Global;
use std::sync::ledger::Ledger;
use zdd_store::Store;

/// Gives each chosen report the rest of a listing, straight from the diagram: each set once, in order. `chosen` has the places
/// of the chosen reports in the list, from 0 and rising; each was begun for enough events.
///
/// It takes no memory, and the other reports are as before. It stops at the first report that fails.
pub fn feed<L: Ledger>(
    reports: &mut Vec<Box<dyn Report>>,
    chosen: &[u32],
    listing: &mut Listing,
    store: &Store,
    steps: &mut Steps<L>,
) -> Result<(), FeedFault>
    requires chosen { RisesWithin 0 (vec_len reports.old) chosen.now }
    requires started { IsStarted store.now listing.old }
    requires takes { ChosenTake width chosen.now (sets_left store.now listing.old) reports.old.items }
    ensures took { OnOk result (AtChosen chosen.now (TookSets stands_for width (sets_left store.now listing.old)) reports.old.items reports.new.items) }
    ensures kept { AtChosen chosen.now (IsKept text label report_faults) reports.old.items reports.new.items }
    ensures failed { IfErr result (λ fault. (is_among chosen.now fault.report ≡ true) × RoseAt report_faults fault.report reports.old.items reports.new.items) }
    ensures count { vec_len reports.new ≡ vec_len reports.old }
    ensures same { IsSameListing store.now listing.old listing.new }
    ensures end { OnOk result (sets_left store.now listing.new ≡ []) }
{
    let mut goes_on = true;
    while goes_on {
        goes_on = feed_next(reports, chosen, listing, store, steps)?;
    }
    Ok(())
}

/// Gives each chosen report the next set; whether there was one.
fn feed_next<L: Ledger>(
    reports: &mut Vec<Box<dyn Report>>,
    chosen: &[u32],
    listing: &mut Listing,
    store: &Store,
    steps: &mut Steps<L>,
) -> Result<bool, FeedFault>
    requires chosen { RisesWithin 0 (vec_len reports.old) chosen.now }
    requires started { IsStarted store.now listing.old }
    requires takes { ChosenTake width chosen.now (sets_left store.now listing.old) reports.old.items }
    ensures fed { OnOk result (Fed stands_for width chosen.now (sets_left store.now listing.old) (sets_left store.now listing.new) reports.old.items reports.new.items) }
    ensures end { result ≡ Ok false → sets_left store.now listing.new ≡ [] }
    ensures fewer { result ≡ Ok true → length (sets_left store.now listing.new) < length (sets_left store.now listing.old) }
    ensures kept { AtChosen chosen.now (IsKept text label report_faults) reports.old.items reports.new.items }
    ensures failed { IfErr result (λ fault. (is_among chosen.now fault.report ≡ true) × RoseAt report_faults fault.report reports.old.items reports.new.items) }
    ensures count { vec_len reports.new ≡ vec_len reports.old }
    ensures same { IsSameListing store.now listing.old listing.new }
{
    let Some(set) = listing.next(store, steps) else {
        return Ok(false);
    };
    give_set(reports, chosen, set)?;
    Ok(true)
}

/// Gives each chosen report the rest of a listing, set by set. Where none is chosen nothing is done.
fn feed_sets<L: Ledger>(
    reports: &mut Vec<Box<dyn Report>>,
    chosen: &[u32],
    listing: &mut Listing,
    store: &Store,
    steps: &mut Steps<L>,
) -> Result<(), ReportStop>
    requires chosen { RisesWithin 0 (vec_len reports.old) chosen.now }
    requires started { IsStarted store.now listing.old }
    requires takes { ChosenTake width chosen.now (sets_left store.now listing.old) reports.old.items }
    ensures took { OnOk result (AtChosen chosen.now (TookSets stands_for width (sets_left store.now listing.old)) reports.old.items reports.new.items) }
    ensures kept { AtChosen chosen.now (IsKept text label report_faults) reports.old.items reports.new.items }
    ensures failed { IfErr result (FaultAt (λ at. (is_among chosen.now at ≡ true) × RoseAt report_faults at reports.old.items reports.new.items)) }
    ensures count { vec_len reports.new ≡ vec_len reports.old }
{
    if chosen.is_empty() {
        return Ok(());
    }
    match feed(reports, chosen, listing, store, steps) {
        Ok(()) => Ok(()),
        Err(fault) => Err(ReportStop::Fault(fault.report)),
    }
}

/// Gives each chosen report a family by its counts, and those that decline its listing, set by set.
fn feed_counted<L: Ledger>(
    alloc: Global,
    reports: &mut Vec<Box<dyn Report>>,
    chosen: &[u32],
    counts: &FamilyCounts,
    listing: &mut Listing,
    store: &Store,
    steps: &mut Steps<L>,
) -> Result<(), ReportStop>
    requires chosen { RisesWithin 0 (vec_len reports.old) chosen.now }
    requires started { IsStarted store.now listing.old }
    requires takes { ChosenTake width chosen.now (sets_left store.now listing.old) reports.old.items }
    requires fits { ChosenFit width chosen.now counts.now reports.old.items }
    requires counted { AreFor counts.now (sets_left store.now listing.old) }
    ensures took { OnOk result (AtChosen chosen.now (TookSets stands_for width (sets_left store.now listing.old)) reports.old.items reports.new.items) }
    ensures kept { AtChosen chosen.now (IsKept text label report_faults) reports.old.items reports.new.items }
    ensures failed { IfErr result (FaultAt (λ at. (is_among chosen.now at ≡ true) × RoseAt report_faults at reports.old.items reports.new.items)) }
    ensures count { vec_len reports.new ≡ vec_len reports.old }
{
    let declined = match give_family(alloc, reports, chosen, counts) {
        Ok(declined) => declined,
        Err(_) => return Err(ReportStop::Memory),
    };
    match feed_sets(reports, declined.as_slice(), listing, store, steps) {
        Ok(()) => Ok(()),
        Err(stop) => Err(stop),
    }
}

/// Gives each chosen report the rest of a listing: by its counts, where there are some and the report takes them, and else set by
/// set.
pub(crate) fn feed_family<L: Ledger>(
    alloc: Global,
    reports: &mut Vec<Box<dyn Report>>,
    chosen: &[u32],
    counts: &Option<FamilyCounts>,
    listing: &mut Listing,
    store: &Store,
    steps: &mut Steps<L>,
) -> Result<(), ReportStop>
    requires chosen { RisesWithin 0 (vec_len reports.old) chosen.now }
    requires started { IsStarted store.now listing.old }
    requires takes { ChosenTake width chosen.now (sets_left store.now listing.old) reports.old.items }
    requires fits { IfSome counts.now (λ found. ChosenFit width chosen.now found reports.old.items) }
    requires counted { IfSome counts.now (λ found. AreFor found (sets_left store.now listing.old)) }
    ensures took { OnOk result (AtChosen chosen.now (TookSets stands_for width (sets_left store.now listing.old)) reports.old.items reports.new.items) }
    ensures kept { AtChosen chosen.now (IsKept text label report_faults) reports.old.items reports.new.items }
    ensures failed { IfErr result (FaultAt (λ at. (is_among chosen.now at ≡ true) × RoseAt report_faults at reports.old.items reports.new.items)) }
    ensures count { vec_len reports.new ≡ vec_len reports.old }
{
    match counts {
        Some(found) => feed_counted(alloc, reports, chosen, found, listing, store, steps),
        None => feed_sets(reports, chosen, listing, store, steps),
    }
}
