ghost use Rattle.std.specs.Prelude.{◌≡◌, ◌++◌, IfErr, IfSome, OnOk, Some, length, true, vec_len};
ghost use Rattle.fta_outside.specs.Counts.{AreCountsOf, HaveWidth};
ghost use Rattle.cutset_lister.specs.inner.Walks.{IsStarted, sets_left};
ghost use Rattle.cut_reports.specs.Feeding.{IsKept, RoseAt};
ghost use Rattle.cut_reports.specs.inner.Feeding.{TakesEach};
ghost use Rattle.cut_reports.specs.Places.{AtChosen, is_among};
ghost use Rattle.cut_reports.specs.Texts.{reports_text};
ghost use Rattle.cut_reports.specs.inner.Texts.{FaultAt};
ghost use Rattle.plain_values.specs.Rising.{RisesWithin};

use crate::beginning::begin_all;
use crate::feeding::feed_family;
use crate::finishing::finish_all;
use crate::stop::ReportStop;
use cutset_lister::Listing;
use fta_outside::{FamilyCounts, Report, Steps};
use plain_values::Name;
use std::alloc::Global;
use std::sync::ledger::Ledger;
use zdd_store::Store;

/// What is listed: sets of a store, of events that have names.
#[derive(Clone, Copy)]
pub struct Listed<'a> {
    /// The store that has the sets.
    pub store: &'a Store,
    /// What is counted of the sets, if it was.
    pub counts: &'a Option<FamilyCounts>,
    /// The names of the events.
    pub names: &'a [Name],
}

/// Gives each chosen report all the sets, by their counts or one by one, and then adds the heading lines and the texts of the chosen
/// reports.
pub fn report_text<L: Ledger>(
    alloc: Global,
    reports: &mut Vec<Box<dyn Report>>,
    chosen: &[u32],
    listing: &mut Listing,
    listed: &Listed<'_>,
    steps: &mut Steps<L>,
    to: &mut Vec<u8>,
) -> Result<(), ReportStop>
    requires chosen { RisesWithin 0 (vec_len reports.old) chosen.now }
    requires started { IsStarted listed.now.store.now listing.old }
    requires sets { TakesEach (Some (length listed.now.names.now)) (sets_left listed.now.store.now listing.old) }
    requires fits { IfSome listed.now.counts.now (HaveWidth (Some (length listed.now.names.now))) }
    requires counted { IfSome listed.now.counts.now (λ found. AreCountsOf found (sets_left listed.now.store.now listing.old)) }
    ensures text { OnOk result (to.new.items ≡ to.old.items ++ reports_text label text chosen.now (sets_left listed.now.store.now listing.old) listed.now.names.now reports.old.items) }
    ensures kept { AtChosen chosen.now (IsKept text label report_faults) reports.old.items reports.new.items }
    ensures failed { IfErr result (FaultAt (λ at. (is_among chosen.now at ≡ true) × RoseAt report_faults at reports.old.items reports.new.items)) }
    ensures count { vec_len reports.new ≡ vec_len reports.old }
{
    if let Err(stop) = begin_all(reports, chosen, listed.names.len()) {
        return Err(stop);
    }
    if let Err(stop) = feed_family(
        alloc,
        reports,
        chosen,
        listed.counts,
        listing,
        listed.store,
        steps,
    ) {
        return Err(stop);
    }
    match finish_all(reports, chosen, listed.names, to) {
        Ok(()) => Ok(()),
        Err(end) => Err(end),
    }
}
