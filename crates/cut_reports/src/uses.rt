ghost use Rattle.std.specs.Prelude.{◌≡◌, ◌++◌, Some, None, IfOk, OnOk, codes, cond, length, vec_len};
ghost use Rattle.plain_values.specs.Rising.{RisesWithin};
ghost use Rattle.cut_reports.specs.inner.Counts.{CountedEach};
ghost use Rattle.cut_reports.specs.inner.Numbered.{numbered_text};
ghost use Rattle.cut_reports.specs.inner.Uses.{AreUses, counted_use, use_line, uses_text};

use crate::counting::{add_all, count_up, no_counts, push_count};
use fta_outside::{FamilyCounts, Report, ReportFailed, WriteError};
use plain_values::{Mem, Name};
use std::alloc::Global;

/// The report `uses`: in how many sets each event stands.
#[derive(Drop)]
pub struct EventUse {
    alloc: Global,
    begun: bool,
    counts: Vec<u64>,
}

impl EventUse {
    /// It keeps the allocator, and takes no memory.
    pub fn new(alloc: Global) -> EventUse {
        EventUse {
            alloc,
            begun: false,
            counts: Vec::new(alloc),
        }
    }
}

impl Report for EventUse {
    ghost stands_for = { λ report sets. AreUses report.counts.items sets };

    ghost text = { λ _ sets names. uses_text sets names };

    ghost width = { λ report. cond report.begun (Some (vec_len report.counts)) None };

    ghost report_faults = { λ _. 0 };

    ghost label = { λ _. codes "uses" };

    fn name(&self) -> &[u8] {
        b"uses"
    }

    fn begin(&mut self, events: usize) -> Result<(), WriteError> {
        self.begun = false;
        match no_counts(self.alloc, events) {
            Ok(counts) => {
                self.counts = counts;
                self.begun = true;
                Ok(())
            }
            Err(_) => Err(WriteError::Memory),
        }
    }

    fn take(&mut self, set: &[u32]) -> Result<(), ReportFailed> {
        count_each(&mut self.counts, set);
        Ok(())
    }

    fn takes_families(&self) -> bool {
        true
    }

    fn take_family(&mut self, counts: &FamilyCounts) -> bool {
        add_all(&mut self.counts, counts.uses.as_slice());
        true
    }

    fn finish(&mut self, names: &[Name]) -> Result<Vec<u8>, WriteError> {
        match text_of(self.alloc, self.counts.as_slice(), names) {
            Ok(text) => Ok(text),
            Err(_) => {
                self.begun = false;
                Err(WriteError::Memory)
            }
        }
    }
}

/// Counts one more for each event of a set.
fn count_each(counts: &mut Vec<u64>, set: &[u32])
    requires { RisesWithin 0 (vec_len counts.old) set.now }
    ensures counted { CountedEach set.now counts.old.items counts.new.items }
    ensures count { vec_len counts.new ≡ vec_len counts.old }
{
    for event in set {
        count_up(counts, *event as usize);
    }
}

/// The lines of the events that occur.
fn text_of(alloc: Global, counts: &[u64], names: &[Name]) -> Mem<Vec<u8>>
    requires { length counts.now ≡ length names.now }
    ensures { IfOk result (λ text. text.items ≡ numbered_text (counted_use counts.now) 0 names.now) }
{
    let mut text = Vec::new(alloc);
    for i in 0..names.len() {
        push_use(&mut text, &names[i], counts[i])?;
    }
    Ok(text)
}

/// Adds the line of an event that is in some of the sets.
fn push_use(text: &mut Vec<u8>, name: &Name, count: u64) -> Mem<()>
    ensures { OnOk result (text.new.items ≡ text.old.items ++ use_line name.now count) }
{
    if count == 0 {
        return Ok(());
    }
    push_event(text, name)?;
    push_count(text, count)
}

/// Adds the front of the line of an event.
fn push_event(text: &mut Vec<u8>, name: &Name) -> Mem<()>
    ensures { OnOk result (text.new.items ≡ text.old.items ++ (codes "event " ++ name.now)) }
{
    text.extend_from_slice(b"event ")?;
    text.extend_from_slice(name.items())?;
    Ok(())
}
