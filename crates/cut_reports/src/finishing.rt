ghost use Rattle.std.specs.Prelude.{◌≡◌, ◌<◌, ◌==◌, ◌++◌, ◌∷◌, [], ℕ, List, IfErr, IsErrOf, OnOk, Some, codes, length, slice_get, true, vec_len};
ghost use Rattle.fta_outside.specs.Outside.{Rose};
ghost use Rattle.cut_reports.specs.Feeding.{IsKept, RoseAt};
ghost use Rattle.cut_reports.specs.Places.{AtChosen, AtEach, SoOrSame, is_among};
ghost use Rattle.cut_reports.specs.inner.Places.{IfThere};
ghost use Rattle.cut_reports.specs.Texts.{report_part, reports_text};
ghost use Rattle.cut_reports.specs.inner.Texts.{ChosenHave, ChosenStand, FaultAt};
ghost use Rattle.plain_values.specs.Rising.{RisesWithin};

use crate::stop::ReportStop;
use fta_outside::{Report, WriteError};
use plain_values::{Mem, Name};

/// The name of a report.
pub fn name_of(report: &Box<dyn Report>) -> &[u8]
    ensures { result.now ≡ label report.now }
{
    report.name()
}

/// Adds the heading line of a report.
fn push_heading(report: &Box<dyn Report>, to: &mut Vec<u8>) -> Mem<()>
    ensures { OnOk result (to.new.items ≡ to.old.items ++ (codes "report " ++ label report.now ++ 10 ∷ [])) }
{
    to.extend_from_slice(b"report ")?;
    to.extend_from_slice(name_of(report))?;
    to.push(b'\n')?;
    Ok(())
}

/// Adds the text of a report.
fn push_text(
    report: &mut Box<dyn Report>,
    names: &[Name],
    to: &mut Vec<u8>,
) -> Result<(), WriteError>
    requires { width report.old ≡ Some (length names.now) }
    ensures text { OnOk result ((sets : List (List ℕ)) → stands_for report.old sets → to.new.items ≡ to.old.items ++ text report.old sets names.now) }
    ensures kept { IsKept text label report_faults report.old report.new }
    ensures failed { IsErrOf result WriteError.Failed → Rose (report_faults report.old) (report_faults report.new) }
{
    let bytes = match report.finish(names) {
        Ok(bytes) => bytes,
        Err(error) => return Err(error),
    };
    match to.extend_from_slice(bytes.as_slice()) {
        Ok(()) => Ok(()),
        Err(_) => Err(WriteError::Memory),
    }
}

/// Adds the heading line and the text of a report.
fn push_report(
    report: &mut Box<dyn Report>,
    names: &[Name],
    to: &mut Vec<u8>,
) -> Result<(), WriteError>
    requires { width report.old ≡ Some (length names.now) }
    ensures text { OnOk result ((sets : List (List ℕ)) → stands_for report.old sets → to.new.items ≡ to.old.items ++ (codes "report " ++ label report.old ++ (10 ∷ []) ++ text report.old sets names.now)) }
    ensures kept { IsKept text label report_faults report.old report.new }
    ensures failed { IsErrOf result WriteError.Failed → Rose (report_faults report.old) (report_faults report.new) }
{
    match push_heading(report, to) {
        Ok(()) => push_text(report, names, to),
        Err(_) => Err(WriteError::Memory),
    }
}

/// Adds the heading line and the text of the report at a place.
fn finish_at(
    reports: &mut Vec<Box<dyn Report>>,
    place: u32,
    names: &[Name],
    to: &mut Vec<u8>,
) -> Result<(), ReportStop>
    requires there { place < vec_len reports.old }
    requires begun { IfThere (slice_get reports.old.items place) (λ report. width report ≡ Some (length names.now)) }
    ensures text { OnOk result ((sets : List (List ℕ)) → IfThere (slice_get reports.old.items place) (λ report. stands_for report sets)
        → to.new.items ≡ to.old.items ++ report_part label text sets names.now (slice_get reports.old.items place)) }
    ensures kept { AtEach (λ i. SoOrSame (i == place) (IsKept text label report_faults)) reports.old.items reports.new.items }
    ensures failed { IfErr result (FaultAt (λ at. (at ≡ place) × RoseAt report_faults place reports.old.items reports.new.items)) }
    ensures count { vec_len reports.new ≡ vec_len reports.old }
{
    match push_report(&mut reports[place as usize], names, to) {
        Ok(()) => Ok(()),
        Err(WriteError::Failed) => Err(ReportStop::Fault(place)),
        Err(WriteError::Memory) => Err(ReportStop::Memory),
    }
}

/// Adds the heading lines and the texts of the chosen reports.
pub fn finish_all(
    reports: &mut Vec<Box<dyn Report>>,
    chosen: &[u32],
    names: &[Name],
    to: &mut Vec<u8>,
) -> Result<(), ReportStop>
    requires chosen { RisesWithin 0 (vec_len reports.old) chosen.now }
    requires begun { ChosenHave width chosen.now (length names.now) reports.old.items }
    ensures text { OnOk result ((sets : List (List ℕ)) → ChosenStand stands_for chosen.now sets reports.old.items
        → to.new.items ≡ to.old.items ++ reports_text label text chosen.now sets names.now reports.old.items) }
    ensures kept { AtChosen chosen.now (IsKept text label report_faults) reports.old.items reports.new.items }
    ensures failed { IfErr result (FaultAt (λ at. (is_among chosen.now at ≡ true) × RoseAt report_faults at reports.old.items reports.new.items)) }
    ensures count { vec_len reports.new ≡ vec_len reports.old }
{
    for place in chosen {
        finish_at(reports, *place, names, to)?;
    }
    Ok(())
}
