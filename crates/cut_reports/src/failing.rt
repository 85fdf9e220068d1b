ghost use Rattle.std.specs.Prelude.{◌≡◌, ◌≤◌, [], Some, None, IfErr, IfOk, OnErr, codes, is_err};
ghost use Rattle.fta_outside.specs.Outside.{Rose};
ghost use Rattle.cut_reports.specs.inner.Failing.{after_call, call_fails};

use fta_outside::{Report, ReportFailed, WriteError};
use plain_values::Name;
use std::alloc::Global;
use std::marker::Model;

/// The report `failing`, for tests, with the numbers of the calls that fail. Its text is empty.
///
/// Calls of `begin`, `take` and `finish` are numbered together, from 0. One fails exactly if its number is listed; it is then
/// counted.
#[derive(Drop)]
pub struct FailingReport {
    alloc: Global,
    failing: Vec<u64>,
    calls: u64,
    failed: u64,
    begun: Option<usize>,
}

impl Model for FailingReport {
    ghost use Rattle.cut_reports.specs.inner.Failing.{Failing};

    ghost Value = { Failing };

    ghost view = { λ r. record { failing = r.failing.items; calls = r.calls; failed = r.failed; begun = r.begun } };
}

impl FailingReport {
    /// It keeps the allocator, and takes no memory.
    pub fn new(alloc: Global, failing: Vec<u64>) -> FailingReport
        ensures { result ≡ record { failing = failing.items; calls = 0; failed = 0; begun = None } }
    {
        FailingReport {
            alloc,
            failing,
            calls: 0,
            failed: 0,
            begun: None,
        }
    }

    /// Counts a call, which leaves it begun for so many events if it does not fail; whether it fails.
    fn fails(&mut self, begun: Option<usize>) -> bool
        ensures fails { result ≡ call_fails self.old }
        ensures after { self.new ≡ after_call self.old begun }
        ensures never_falls { self.old.failed ≤ self.new.failed }
    {
        let call = self.calls;
        self.calls = call.saturating_add(1);
        if self.failing.contains(&call) {
            self.failed = self.failed.saturating_add(1);
            self.begun = None;
            return true;
        }
        self.begun = begun;
        false
    }
}

impl Report for FailingReport {
    ghost stands_for = { λ _ _. Unit {0} };

    ghost text = { λ _ _ _. [] };

    ghost width = { λ report. report.begun };

    ghost report_faults = { λ report. report.failed };

    ghost label = { λ _. codes "failing" };

    fn name(&self) -> &[u8] {
        b"failing"
    }

    fn begin(&mut self, events: usize) -> Result<(), WriteError>
        ensures fails { is_err result ≡ call_fails self.old }
        ensures no_memory { IfErr result (λ error. error ≡ WriteError.Failed) }
        ensures after { self.new ≡ after_call self.old (Some events) }
        ensures failed { OnErr result (Rose self.old.failed self.new.failed) }
        ensures never_falls { self.old.failed ≤ self.new.failed }
    {
        if self.fails(Some(events)) {
            return Err(WriteError::Failed);
        }
        Ok(())
    }

    fn take(&mut self, _set: &[u32]) -> Result<(), ReportFailed>
        ensures fails { is_err result ≡ call_fails self.old }
        ensures after { self.new ≡ after_call self.old self.old.begun }
        ensures failed { OnErr result (Rose self.old.failed self.new.failed) }
        ensures never_falls { self.old.failed ≤ self.new.failed }
    {
        let begun = self.begun;
        if self.fails(begun) {
            return Err(ReportFailed);
        }
        Ok(())
    }

    fn finish(&mut self, _names: &[Name]) -> Result<Vec<u8>, WriteError>
        ensures fails { is_err result ≡ call_fails self.old }
        ensures empty { IfOk result (λ bytes. bytes.items ≡ []) }
        ensures no_memory { IfErr result (λ error. error ≡ WriteError.Failed) }
        ensures after { self.new ≡ after_call self.old self.old.begun }
        ensures failed { OnErr result (Rose self.old.failed self.new.failed) }
        ensures never_falls { self.old.failed ≤ self.new.failed }
    {
        let begun = self.begun;
        if self.fails(begun) {
            return Err(WriteError::Failed);
        }
        Ok(Vec::new(self.alloc))
    }
}
