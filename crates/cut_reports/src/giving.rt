ghost use Rattle.std.specs.Prelude.{◌≡◌, ◌<◌, ◌∷◌, [], ◌==◌, ℕ, List, OnOk, OnErr, IfErr, IfOk, false, true, slice_get, vec_len};
ghost use Rattle.fta_outside.specs.Outside.{Rose};
ghost use Rattle.fta_outside.specs.Reports.{TakesSet};
ghost use Rattle.fta_outside.specs.Counts.{HaveWidth};
ghost use Rattle.plain_values.specs.Rising.{RisesWithin};
ghost use Rattle.cut_reports.specs.Places.{AtChosen, AtEach, SoOrSame, is_among};
ghost use Rattle.cut_reports.specs.inner.Places.{IfThere};
ghost use Rattle.cut_reports.specs.Feeding.{IsKept, RoseAt};
ghost use Rattle.cut_reports.specs.inner.Feeding.{AreFor, ChosenFit, ChosenTake, GivenAt, GivenFamily, TookSets};

use fta_outside::{FamilyCounts, Report, ReportFailed};
use plain_values::Mem;
use std::alloc::Global;

/// A report failed as it took a set; this is its place in the list, from 0.
#[derive(Clone, Copy, Debug, PartialEq, Eq)]
pub struct FeedFault {
    pub report: u32,
}

/// Gives a report a set.
fn give(report: &mut Box<dyn Report>, set: &[u32]) -> Result<(), ReportFailed>
    requires { TakesSet (width report.old) set.now }
    ensures took { OnOk result (TookSets stands_for width (set.now ∷ []) report.old report.new) }
    ensures kept { IsKept text label report_faults report.old report.new }
    ensures failed { OnErr result (Rose (report_faults report.old) (report_faults report.new)) }
{
    report.take(set)
}

/// Gives the report at a place a set.
fn give_at(reports: &mut Vec<Box<dyn Report>>, place: u32, set: &[u32]) -> Result<(), FeedFault>
    requires there { place < vec_len reports.old }
    requires takes { IfThere (slice_get reports.old.items place) (λ report. TakesSet (width report) set.now) }
    ensures took { OnOk result (AtEach (λ i. SoOrSame (i == place) (TookSets stands_for width (set.now ∷ []))) reports.old.items reports.new.items) }
    ensures kept { AtEach (λ i. SoOrSame (i == place) (IsKept text label report_faults)) reports.old.items reports.new.items }
    ensures failed { IfErr result (λ fault. (fault.report ≡ place) × RoseAt report_faults place reports.old.items reports.new.items) }
    ensures count { vec_len reports.new ≡ vec_len reports.old }
{
    match give(&mut reports[place as usize], set) {
        Ok(()) => Ok(()),
        Err(ReportFailed) => Err(FeedFault { report: place }),
    }
}

/// Gives each chosen report a set.
pub(crate) fn give_set(
    reports: &mut Vec<Box<dyn Report>>,
    chosen: &[u32],
    set: &[u32],
) -> Result<(), FeedFault>
    requires chosen { RisesWithin 0 (vec_len reports.old) chosen.now }
    requires takes { ChosenTake width chosen.now (set.now ∷ []) reports.old.items }
    ensures took { OnOk result (AtChosen chosen.now (TookSets stands_for width (set.now ∷ [])) reports.old.items reports.new.items) }
    ensures kept { AtChosen chosen.now (IsKept text label report_faults) reports.old.items reports.new.items }
    ensures failed { IfErr result (λ fault. (is_among chosen.now fault.report ≡ true) × RoseAt report_faults fault.report reports.old.items reports.new.items) }
    ensures count { vec_len reports.new ≡ vec_len reports.old }
{
    for place in chosen {
        give_at(reports, *place, set)?;
    }
    Ok(())
}

/// Gives a report what is counted of a family; whether it took the family.
fn give_counts(report: &mut Box<dyn Report>, counts: &FamilyCounts) -> bool
    requires { HaveWidth (width report.old) counts.now }
    ensures took { result ≡ true → (sets : List (List ℕ)) → AreFor counts.now sets → TookSets stands_for width sets report.old report.new }
    ensures declined { result ≡ false → TookSets stands_for width [] report.old report.new }
    ensures kept { IsKept text label report_faults report.old report.new }
{
    report.take_family(counts)
}

/// Gives the report at a place what is counted of a family; whether it took the family.
fn give_counts_at(reports: &mut Vec<Box<dyn Report>>, place: u32, counts: &FamilyCounts) -> bool
    requires there { place < vec_len reports.old }
    requires fits { IfThere (slice_get reports.old.items place) (λ report. HaveWidth (width report) counts.now) }
    ensures took { result ≡ true → (sets : List (List ℕ)) → AreFor counts.now sets
        → AtEach (λ i. SoOrSame (i == place) (TookSets stands_for width sets)) reports.old.items reports.new.items }
    ensures declined { result ≡ false → AtEach (λ i. SoOrSame (i == place) (TookSets stands_for width [])) reports.old.items reports.new.items }
    ensures kept { AtEach (λ i. SoOrSame (i == place) (IsKept text label report_faults)) reports.old.items reports.new.items }
    ensures count { vec_len reports.new ≡ vec_len reports.old }
{
    give_counts(&mut reports[place as usize], counts)
}

/// Gives the report at a place what is counted of a family, and notes its place where it declines.
fn give_or_note(
    reports: &mut Vec<Box<dyn Report>>,
    place: u32,
    counts: &FamilyCounts,
    declined: &mut Vec<u32>,
) -> Mem<()>
    requires there { place < vec_len reports.old }
    requires fits { IfThere (slice_get reports.old.items place) (λ report. HaveWidth (width report) counts.now) }
    ensures given { OnOk result (GivenAt stands_for width counts.now place declined.old.items declined.new.items reports.old.items reports.new.items) }
    ensures kept { AtEach (λ i. SoOrSame (i == place) (IsKept text label report_faults)) reports.old.items reports.new.items }
    ensures count { vec_len reports.new ≡ vec_len reports.old }
{
    if give_counts_at(reports, place, counts) {
        return Ok(());
    }
    declined.push(place)?;
    Ok(())
}

/// Gives each chosen report what is counted of a family; the places of those that declined.
pub(crate) fn give_family(
    alloc: Global,
    reports: &mut Vec<Box<dyn Report>>,
    chosen: &[u32],
    counts: &FamilyCounts,
) -> Mem<Vec<u32>>
    requires chosen { RisesWithin 0 (vec_len reports.old) chosen.now }
    requires fits { ChosenFit width chosen.now counts.now reports.old.items }
    ensures given { IfOk result (λ declined. GivenFamily stands_for width chosen.now counts.now declined.items reports.old.items reports.new.items) }
    ensures rising { IfOk result (λ declined. RisesWithin 0 (vec_len reports.old) declined.items) }
    ensures among { IfOk result (λ declined. (i : ℕ) → is_among declined.items i ≡ true → is_among chosen.now i ≡ true) }
    ensures kept { AtChosen chosen.now (IsKept text label report_faults) reports.old.items reports.new.items }
    ensures count { vec_len reports.new ≡ vec_len reports.old }
{
    let mut declined = Vec::new(alloc);
    for place in chosen {
        give_or_note(reports, *place, counts, &mut declined)?;
    }
    Ok(declined)
}

fn may_take(report: &Box<dyn Report>) -> bool {
    report.takes_families()
}

/// Whether one of the chosen reports may take a family at once. It is a hint, and nothing is claimed of it.
pub fn may_take_family(reports: &[Box<dyn Report>], chosen: &[u32]) -> bool {
    for place in chosen {
        if let Some(report) = reports.get(*place as usize) {
            if may_take(report) {
                return true;
            }
        }
    }
    false
}
