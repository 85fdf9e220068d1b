ghost use Rattle.std.specs.Prelude.{◌≡◌, ◌<◌, ◌==◌, ◌++◌, ◌||◌, [], ℕ, Some, None, IfOk, OnOk, codes, cond, false, if◌then◌else◌, length, slice_index_or, vec_len};
ghost use Rattle.cut_reports.specs.inner.Numbered.{numbered_text};
ghost use Rattle.cut_reports.specs.inner.Singles.{MarkedAll, marked_line, single_line, singles_text};
ghost use Rattle.fta_outside.specs.Counts.{AreMarks};

use fta_outside::{FamilyCounts, Report, ReportFailed, WriteError};
use plain_values::{Mem, Name};
use std::alloc::Global;

/// The report `singles`: the single points of failure, which are the events that alone are one of the sets.
#[derive(Drop)]
pub struct SinglePoints {
    alloc: Global,
    begun: bool,
    marks: Vec<bool>,
}

impl SinglePoints {
    /// It keeps the allocator, and takes no memory.
    pub fn new(alloc: Global) -> SinglePoints {
        SinglePoints {
            alloc,
            begun: false,
            marks: Vec::new(alloc),
        }
    }
}

impl Report for SinglePoints {
    ghost stands_for = { λ report sets. AreMarks report.marks.items sets };

    ghost text = { λ _ sets names. singles_text sets names };

    ghost width = { λ report. cond report.begun (Some (vec_len report.marks)) None };

    ghost report_faults = { λ _. 0 };

    ghost label = { λ _. codes "singles" };

    fn name(&self) -> &[u8] {
        b"singles"
    }

    fn begin(&mut self, events: usize) -> Result<(), WriteError> {
        self.begun = false;
        match no_marks(self.alloc, events) {
            Ok(marks) => {
                self.marks = marks;
                self.begun = true;
                Ok(())
            }
            Err(_) => Err(WriteError::Memory),
        }
    }

    fn take(&mut self, set: &[u32]) -> Result<(), ReportFailed> {
        if set.len() == 1 {
            self.marks[set[0] as usize] = true;
        }
        Ok(())
    }

    fn takes_families(&self) -> bool {
        true
    }

    fn take_family(&mut self, counts: &FamilyCounts) -> bool {
        mark_all(&mut self.marks, counts.singles.as_slice());
        true
    }

    fn finish(&mut self, names: &[Name]) -> Result<Vec<u8>, WriteError> {
        match text_of(self.alloc, self.marks.as_slice(), names) {
            Ok(text) => Ok(text),
            Err(_) => {
                self.begun = false;
                Err(WriteError::Memory)
            }
        }
    }
}

/// So many marks, none set.
pub(crate) fn no_marks(alloc: Global, events: usize) -> Mem<Vec<bool>>
    ensures marks { IfOk result (λ marks. AreMarks marks.items []) }
    ensures count { IfOk result (λ marks. vec_len marks ≡ events) }
{
    vec![in alloc; false; events]
}

/// Sets each mark that is set among others.
fn mark_all(marks: &mut Vec<bool>, more: &[bool])
    requires { vec_len marks.old ≡ length more.now }
    ensures marked { MarkedAll more.now marks.old.items marks.new.items }
    ensures count { vec_len marks.new ≡ vec_len marks.old }
{
    for event in 0..more.len() {
        mark_at(marks, event, more[event]);
    }
}

/// Sets a mark, if it is to be.
pub(crate) fn mark_at(marks: &mut Vec<bool>, event: usize, mark: bool)
    requires { event < vec_len marks.old }
    ensures marked { (i : ℕ) → slice_index_or marks.new.items i false ≡ (if i == event then (slice_index_or marks.old.items i false || mark) else slice_index_or marks.old.items i false) }
    ensures count { vec_len marks.new ≡ vec_len marks.old }
{
    let marked = marks[event] || mark;
    marks[event] = marked;
}

/// The lines of the events that are marked.
fn text_of(alloc: Global, marks: &[bool], names: &[Name]) -> Mem<Vec<u8>>
    requires { length marks.now ≡ length names.now }
    ensures { IfOk result (λ text. text.items ≡ numbered_text (marked_line marks.now) 0 names.now) }
{
    let mut text = Vec::new(alloc);
    for i in 0..names.len() {
        push_marked(&mut text, marks[i], &names[i])?;
    }
    Ok(text)
}

/// Adds the line of an event where it is marked.
fn push_marked(text: &mut Vec<u8>, mark: bool, name: &Name) -> Mem<()>
    ensures { OnOk result (text.new.items ≡ text.old.items ++ (if mark then single_line name.now else [])) }
{
    if !mark {
        return Ok(());
    }
    push_single(text, name)
}

fn push_single(text: &mut Vec<u8>, name: &Name) -> Mem<()>
    ensures { OnOk result (text.new.items ≡ text.old.items ++ single_line name.now) }
{
    text.extend_from_slice(b"single ")?;
    text.extend_from_slice(name.items())?;
    text.push(b'\n')?;
    Ok(())
}
