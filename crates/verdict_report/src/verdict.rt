ghost use Rattle.std.specs.Prelude.{◌≡◌, ◌==◌, IfOk, codes, if◌then◌else◌, length};
ghost use Rattle.std.specs.List.{list_any};

use fta_outside::{Report, ReportFailed, WriteError};
use plain_values::{Mem, Name};
use std::alloc::Global;

/// The report `verdict`: whether some set has one event.
#[derive(Drop)]
pub struct Verdict {
    alloc: Global,
    begun: Option<usize>,
    single: bool,
}

impl Verdict {
    /// It keeps the allocator, and takes no memory.
    pub fn new(alloc: Global) -> Verdict {
        Verdict {
            alloc,
            begun: None,
            single: false,
        }
    }
}

impl Report for Verdict {
    ghost stands_for = { λ report sets. report.single ≡ list_any (λ set. length set == 1) sets };

    ghost use Rattle.verdict_report.specs.inner.Verdict.{verdict_text};

    ghost text = { λ _ sets names. verdict_text sets names };

    ghost width = { λ report. report.begun };

    ghost report_faults = { λ _. 0 };

    ghost label = { λ _. codes "verdict" };

    fn name(&self) -> &[u8] {
        b"verdict"
    }

    fn begin(&mut self, events: usize) -> Result<(), WriteError> {
        self.begun = Some(events);
        self.single = false;
        Ok(())
    }

    fn take(&mut self, set: &[u32]) -> Result<(), ReportFailed> {
        self.single = self.single || set.len() == 1;
        Ok(())
    }

    fn finish(&mut self, _names: &[Name]) -> Result<Vec<u8>, WriteError> {
        match line_of(self.alloc, self.single) {
            Ok(line) => Ok(line),
            Err(_) => {
                self.begun = None;
                Err(WriteError::Memory)
            }
        }
    }
}

fn line_of(alloc: Global, single: bool) -> Mem<Vec<u8>>
    ensures { IfOk result (λ line. line.items ≡ (if single then codes "single failure\n" else codes "no single failure\n")) }
{
    if single {
        Vec::from_slice(alloc, b"single failure\n")
    } else {
        Vec::from_slice(alloc, b"no single failure\n")
    }
}
