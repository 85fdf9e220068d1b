ghost use Rattle.std.specs.Prelude.{◌≡◌, ◌<◌, ◌==◌, IfErr, IsErrOf, OnOk, true, vec_len};
ghost use Rattle.fta_outside.specs.Outside.{Rose};
ghost use Rattle.cut_reports.specs.Feeding.{IsKept, RoseAt};
ghost use Rattle.cut_reports.specs.Places.{AtChosen, AtEach, SoOrSame, is_among};
ghost use Rattle.cut_reports.specs.inner.Texts.{Begun, FaultAt};
ghost use Rattle.plain_values.specs.Rising.{RisesWithin};

use crate::stop::ReportStop;
use fta_outside::{Report, WriteError};

fn begin_one(report: &mut Box<dyn Report>, events: usize) -> Result<(), WriteError>
    ensures begun { OnOk result (Begun stands_for width events report.old report.new) }
    ensures kept { IsKept text label report_faults report.old report.new }
    ensures failed { IsErrOf result WriteError.Failed → Rose (report_faults report.old) (report_faults report.new) }
{
    report.begin(events)
}

fn begin_at(reports: &mut Vec<Box<dyn Report>>, place: u32, events: usize) -> Result<(), ReportStop>
    requires { place < vec_len reports.old }
    ensures begun { OnOk result (AtEach (λ i. SoOrSame (i == place) (Begun stands_for width events)) reports.old.items reports.new.items) }
    ensures kept { AtEach (λ i. SoOrSame (i == place) (IsKept text label report_faults)) reports.old.items reports.new.items }
    ensures failed { IfErr result (FaultAt (λ at. (at ≡ place) × RoseAt report_faults place reports.old.items reports.new.items)) }
    ensures count { vec_len reports.new ≡ vec_len reports.old }
{
    match begin_one(&mut reports[place as usize], events) {
        Ok(()) => Ok(()),
        Err(WriteError::Failed) => Err(ReportStop::Fault(place)),
        Err(WriteError::Memory) => Err(ReportStop::Memory),
    }
}

/// Begins each chosen report.
pub fn begin_all(
    reports: &mut Vec<Box<dyn Report>>,
    chosen: &[u32],
    events: usize,
) -> Result<(), ReportStop>
    requires { RisesWithin 0 (vec_len reports.old) chosen.now }
    ensures begun { OnOk result (AtChosen chosen.now (Begun stands_for width events) reports.old.items reports.new.items) }
    ensures kept { AtChosen chosen.now (IsKept text label report_faults) reports.old.items reports.new.items }
    ensures failed { IfErr result (FaultAt (λ at. (is_among chosen.now at ≡ true) × RoseAt report_faults at reports.old.items reports.new.items)) }
    ensures count { vec_len reports.new ≡ vec_len reports.old }
{
    for place in chosen {
        begin_at(reports, *place, events)?;
    }
    Ok(())
}
