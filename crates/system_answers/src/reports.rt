//! The reports on a listing that a caller hands in.

ghost use Rattle.std.specs.Prelude.{◌≡◌, ◌<◌, IfErr, IfOk, IfSome, Some, length, map, vec_len};
ghost use Rattle.phases.specs.Phases.{Passes};
ghost use Rattle.plain_values.specs.Rising.{RisesWithin};
ghost use Rattle.backward_slice.specs.Slices.{IsSlice};
ghost use Rattle.fault_system.specs.Listings.{IsListing};
ghost use Rattle.fta_outside.specs.Counts.{AreCountsOf, HaveWidth};
ghost use Rattle.cutset_lister.specs.inner.Walks.{IsStarted, all_sets, sets_left};
ghost use Rattle.cut_reports.specs.Feeding.{IsKept, RoseAt};
ghost use Rattle.cut_reports.specs.inner.Feeding.{TakesEach};
ghost use Rattle.cut_reports.specs.Places.{AtChosen};
ghost use Rattle.cut_reports.specs.Texts.{reports_text};
ghost use Rattle.system_answers.specs.Texts.{reports_of};
ghost use Rattle.system_answers.specs.inner.Ends.{EndsReports, IsReportEnd};
ghost use Rattle.system_answers.specs.Voices.{voices_of};

use crate::cut_sets::cut_family;
use backward_slice::Slice;
use cut_reports::{
    CountedListing, Listed, ReportStop, counted_listing, may_take_family, name_of, report_text,
};
use cutset_lister::Listing;
use fault_system::{EventInfo, FaultSystem};
use fta_outside::{Report, Steps};
use phases::Status;
use plain_values::{List, Mem, Name, copied};
use std::alloc::Global;
use std::marker::Brand;
use std::sync::ledger::{Blank, Ledger};
use zdd_store::Store;

/// The names of the reports.
pub fn names_of(alloc: Global, reports: &Vec<Box<dyn Report>>) -> Mem<List<Name>>
    ensures { IfOk result (λ names. names ≡ map label reports.now.items) }
{
    labels_of(alloc, reports.as_slice())
}

fn labels_of(alloc: Global, reports: &[Box<dyn Report>]) -> Mem<List<Name>>
    ensures { IfOk result (λ names. names ≡ map label reports.now) }
{
    let mut names = List::new(alloc);
    for report in reports {
        names.push(copied(alloc, name_of(report))?)?;
    }
    Ok(names)
}

/// The heading lines and the texts of the chosen reports on the listing of the target of a slice. All of them took all sets before
/// the first text is made.
pub fn text_of_reports(
    alloc: Global,
    system: &FaultSystem,
    part: &Slice,
    chosen: &[u32],
    max_order: Option<u32>,
    reports: &mut Vec<Box<dyn Report>>,
) -> Result<Vec<u8>, Status>
    requires slice { IsSlice system.now part.now.target part.now }
    requires chosen { RisesWithin 0 (vec_len reports.old) chosen.now }
    ensures text { IfOk result (λ made. Passes (reports_of part.now.target chosen.now max_order (voices_of label text reports.old.items) system.now) made.items) }
    ensures kept { AtChosen chosen.now (IsKept text label report_faults) reports.old.items reports.new.items }
    ensures failed { IfErr result (EndsReports chosen.now (λ place. RoseAt report_faults place reports.old.items reports.new.items) (reports_of part.now.target chosen.now max_order (voices_of label text reports.old.items) system.now)) }
{
    let counted = may_take_family(reports.as_slice(), chosen);
    let names = event_names(alloc, system)?;
    let mut store = Store::new(alloc);
    let mut made = counted_sets(alloc, system, part, max_order, counted, &mut store)?;
    let listed = Listed {
        store: &store,
        counts: &made.counts,
        names: names.items(),
    };
    report_on_ledger::<Brand>(
        alloc,
        reports,
        chosen,
        &mut made.listing,
        &listed,
        Blank::new(1),
    )
}

/// The listing of the target of a slice, at its beginning, and what is counted of its sets, if it is to be.
fn counted_sets(
    alloc: Global,
    system: &FaultSystem,
    part: &Slice,
    max_order: Option<u32>,
    counted: bool,
    store: &mut Store,
) -> Mem<CountedListing>
    requires { IsSlice system.now part.now.target part.now }
    ensures started { IfOk result (λ made. IsStarted store.new made.listing) }
    ensures left { IfOk result (λ made. sets_left store.new made.listing ≡ all_sets store.new made.listing) }
    ensures listing { IfOk result (λ made. IsListing system.now part.now.target max_order (all_sets store.new made.listing)) }
    ensures counts { IfOk result (λ made. IfSome made.counts (λ counts. AreCountsOf counts (sets_left store.new made.listing))) }
    ensures width { IfOk result (λ made. IfSome made.counts (HaveWidth (Some (length system.now.events)))) }
{
    let events = system.events();
    let sets = cut_family(alloc, system, part, max_order, store)?;
    counted_listing(alloc, store, sets, part.events.items(), events, counted)
}

/// The names of the events of a system.
fn event_names(alloc: Global, system: &FaultSystem) -> Mem<List<Name>>
    ensures { IfOk result (λ names. names ≡ map (λ event. event.name) system.now.events) }
{
    names_in(alloc, system.event_infos())
}

fn names_in(alloc: Global, events: &[EventInfo]) -> Mem<List<Name>>
    ensures { IfOk result (λ names. names ≡ map (λ event. event.name) events.now) }
{
    let mut names = List::new(alloc);
    for event in events {
        names.push(copied(alloc, event.name.items())?)?;
    }
    Ok(names)
}

/// The texts of the chosen reports on a listing, whose steps are counted on a ledger of its own.
fn report_on_ledger<L: Ledger>(
    alloc: Global,
    reports: &mut Vec<Box<dyn Report>>,
    chosen: &[u32],
    listing: &mut Listing,
    listed: &Listed<'_>,
    blank: Blank,
) -> Result<Vec<u8>, Status>
    requires name { blank.name ≡ L.name }
    requires parts { blank.parts ≡ L.parts }
    requires some { 0 < L.parts }
    requires chosen { RisesWithin 0 (vec_len reports.old) chosen.now }
    requires started { IsStarted listed.now.store.now listing.old }
    requires sets { TakesEach (Some (length listed.now.names.now)) (sets_left listed.now.store.now listing.old) }
    requires fits { IfSome listed.now.counts.now (HaveWidth (Some (length listed.now.names.now))) }
    requires counted { IfSome listed.now.counts.now (λ found. AreCountsOf found (sets_left listed.now.store.now listing.old)) }
    ensures text { IfOk result (λ made. made.items ≡ reports_text label text chosen.now (sets_left listed.now.store.now listing.old) listed.now.names.now reports.old.items) }
    ensures kept { AtChosen chosen.now (IsKept text label report_faults) reports.old.items reports.new.items }
    ensures failed { IfErr result (IsReportEnd chosen.now (λ place. RoseAt report_faults place reports.old.items reports.new.items)) }
{
    let mut steps = Steps::<L>::new(blank);
    let mut made = Vec::new(alloc);
    match report_text(
        alloc, reports, chosen, listing, listed, &mut steps, &mut made,
    ) {
        Ok(()) => Ok(made),
        Err(ReportStop::Fault(place)) => Err(Status::ReportFault(place)),
        Err(ReportStop::Memory) => Err(Status::Memory),
    }
}
