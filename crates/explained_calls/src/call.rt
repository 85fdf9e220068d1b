//! Words that may ask for a call to be explained.

ghost use Rattle.std.specs.Prelude.{◌≡◌, ◌<◌, ◌++◌, ℕ, List as Items, IfOk, Option as Maybe, length, map};
ghost use Rattle.cut_reports.specs.Feeding.{IsKept, RoseAt};
ghost use Rattle.cut_reports.specs.Places.{AtChosen};
ghost use Rattle.fta_outside.specs.Outside.{Rose, Took as TookAll, TookPrefix};
ghost use Rattle.fta_outside.specs.inner.Outside.{Writes};
ghost use Rattle.system_answers.specs.Voices.{labels, voices_of};
ghost use Rattle.fta_run.specs.Answers.{Took};
ghost use Rattle.fta_run.specs.Files.{most_files};
ghost use Rattle.fta_run.specs.Line.{status_line};
ghost use Rattle.fta_run.specs.Words.{GiveNoRequest, IsRequest, Request as AnyRequest, file_words};
ghost use Rattle.fta_run.specs.inner.Held.{AreFronts, IsReportCaused, IsToRead};
ghost use Rattle.fta_words.specs.inner.Explained.{explained_call};
ghost use Rattle.explained_calls.specs.inner.Calls.{Comes, ComesOf, EndsExplained, Explains, IsExplained, asked_words, call_or};
ghost use Rattle.explained_calls.specs.inner.Texts.{ExplainsEnd, TellsMore, line_before};

use crate::closed::Closed;
use crate::explanation::more_of;
use fta_outside::{Files, Report, Sink, SinkFailed, write_all};
use fta_run::{ReadFiles, Status, read_first, run_held, run_read, write_line, write_status};
use fta_words::{FileWords, explained_call};
use plain_values::{Mem, Word};
use std::alloc::Global;
use system_answers::names_of;

/// Runs the request that the words give, as `run_read` does; or, where the words are `explain` and those of another call, writes why that
/// call is refused.
///
/// The call is run to its end but for its output, of which nothing is written; then the line of its status is, with the line and the column
/// of its byte or the word that it is about, the nearest names, and what to write instead.
pub fn run_explained<F: Files, S: Sink, E: Sink>(
    alloc: Global,
    words: &[Word],
    files: &mut F,
    out: &mut S,
    err: &mut E,
    reports: &mut Vec<Box<dyn Report>>,
) -> Status
    // Reports that another crate takes in boxes are asked for with a premise; this one always holds.
    requires { Unit {0} }
    // The call that is to be explained is; or what `run_read` says comes of the words.
    ensures comes { Comes words.now (F.contents files.old) (F.faults files.old) (F.faults files.new) (voices_of label text reports.old.items) result (S.seen out.old) (S.seen out.new) }

    // The list of reports is kept as by `run`, and a report fails only where the request chooses it and its count rose: the request of the
    // call that is to be explained, or of the words.
    ensures reports { (asked : AnyRequest) → IsRequest (labels (voices_of label text reports.old.items)) (asked_words words.now) asked → AtChosen asked.options.chosen (IsKept text label report_faults) reports.old.items reports.new.items }
    ensures no_reports { GiveNoRequest (labels (voices_of label text reports.old.items)) (asked_words words.now) → reports.new ≡ reports.old }
    ensures report_fault { IsReportCaused (labels (voices_of label text reports.old.items)) (asked_words words.now) (λ place. RoseAt report_faults place reports.old.items reports.new.items) result }

    // No file is read where there is no such request, or where too many are named.
    ensures no_files { GiveNoRequest (labels (voices_of label text reports.old.items)) (asked_words words.now) → files.new ≡ files.old }
    ensures too_many { most_files < length (file_words (asked_words words.now)) → files.new ≡ files.old }

    // `err` took exactly the line of the status where its count did not rise, and else at most a front of it.
    ensures line { (Rose (E.seen err.old).faults (E.seen err.new).faults → ⊥) → TookAll (status_line (file_words (asked_words words.now)) (labels (voices_of label text reports.old.items)) result) (E.seen err.old) (E.seen err.new) }
    ensures at_most_the_line { TookPrefix (status_line (file_words (asked_words words.now)) (labels (voices_of label text reports.old.items)) result) (E.seen err.old) (E.seen err.new) }
{
    match explained_call(alloc, words) {
        Ok(call) => run_or_explain(alloc, words, call, files, out, err, reports),
        Err(_) => {
            write_status(words, reports, &Status::Memory, err);
            Status::Memory
        }
    }
}

/// Explains a call; or runs the words, where there is none.
fn run_or_explain<F: Files, S: Sink, E: Sink>(
    alloc: Global,
    words: &[Word],
    call: &[Word],
    files: &mut F,
    out: &mut S,
    err: &mut E,
    reports: &mut Vec<Box<dyn Report>>,
) -> Status
    // Reports that another crate takes in boxes are asked for with a premise; this one always holds.
    requires { Unit {0} }
    ensures comes { ComesOf call.now words.now (F.contents files.old) (F.faults files.old) (F.faults files.new) (voices_of label text reports.old.items) result (S.seen out.old) (S.seen out.new) }
    ensures reports { (asked : AnyRequest) → IsRequest (labels (voices_of label text reports.old.items)) (call_or call.now words.now) asked → AtChosen asked.options.chosen (IsKept text label report_faults) reports.old.items reports.new.items }
    ensures no_reports { GiveNoRequest (labels (voices_of label text reports.old.items)) (call_or call.now words.now) → reports.new ≡ reports.old }
    ensures report_fault { IsReportCaused (labels (voices_of label text reports.old.items)) (call_or call.now words.now) (λ place. RoseAt report_faults place reports.old.items reports.new.items) result }
    ensures no_files { GiveNoRequest (labels (voices_of label text reports.old.items)) (call_or call.now words.now) → files.new ≡ files.old }
    ensures too_many { most_files < length (file_words (call_or call.now words.now)) → files.new ≡ files.old }
    ensures line { (Rose (E.seen err.old).faults (E.seen err.new).faults → ⊥) → TookAll (status_line (file_words (call_or call.now words.now)) (labels (voices_of label text reports.old.items)) result) (E.seen err.old) (E.seen err.new) }
    ensures at_most_the_line { TookPrefix (status_line (file_words (call_or call.now words.now)) (labels (voices_of label text reports.old.items)) result) (E.seen err.old) (E.seen err.new) }
{
    if call.is_empty() {
        return run_read(alloc, words, files, out, err, reports);
    }
    explain(alloc, call, files, out, err, reports)
}

/// Explains a call.
fn explain<F: Files, S: Sink, E: Sink>(
    alloc: Global,
    call: &[Word],
    files: &mut F,
    out: &mut S,
    err: &mut E,
    reports: &mut Vec<Box<dyn Report>>,
) -> Status
    // Reports that another crate takes in boxes are asked for with a premise; this one always holds.
    requires { Unit {0} }
    ensures told { Explains call.now (F.contents files.old) (F.faults files.old) (F.faults files.new) (voices_of label text reports.old.items) result (S.seen out.old) (S.seen out.new) }
    ensures reports { (asked : AnyRequest) → IsRequest (labels (voices_of label text reports.old.items)) call.now asked → AtChosen asked.options.chosen (IsKept text label report_faults) reports.old.items reports.new.items }
    ensures no_reports { GiveNoRequest (labels (voices_of label text reports.old.items)) call.now → reports.new ≡ reports.old }
    ensures report_fault { IsReportCaused (labels (voices_of label text reports.old.items)) call.now (λ place. RoseAt report_faults place reports.old.items reports.new.items) result }
    ensures no_files { GiveNoRequest (labels (voices_of label text reports.old.items)) call.now → files.new ≡ files.old }
    ensures too_many { most_files < length (file_words call.now) → files.new ≡ files.old }
    ensures line { (Rose (E.seen err.old).faults (E.seen err.new).faults → ⊥) → TookAll (status_line (file_words call.now) (labels (voices_of label text reports.old.items)) result) (E.seen err.old) (E.seen err.new) }
    ensures at_most_the_line { TookPrefix (status_line (file_words call.now) (labels (voices_of label text reports.old.items)) result) (E.seen err.old) (E.seen err.new) }
{
    match read_first(alloc, call, files, reports) {
        Ok(read) => explain_read(alloc, call, &read, out, err, reports),
        Err(status) => {
            write_status(call, reports, &status, err);
            status
        }
    }
}

/// Explains a call, of which the files were read.
fn explain_read<S: Sink, E: Sink>(
    alloc: Global,
    call: &[Word],
    read: &ReadFiles,
    out: &mut S,
    err: &mut E,
    reports: &mut Vec<Box<dyn Report>>,
) -> Status
    // Reports that another crate takes in boxes are asked for with a premise; this one always holds.
    requires { Unit {0} }
    ensures told { (contents : Items ℕ → Maybe (Items ℕ)) → IsToRead (labels (voices_of label text reports.old.items)) call.now read.now.names → AreFronts contents read.now.names read.now.texts → IsExplained call.now read.now.names read.now.texts (voices_of label text reports.old.items) result (S.seen out.old) (S.seen out.new) }
    ensures reports { (asked : AnyRequest) → IsRequest (labels (voices_of label text reports.old.items)) call.now asked → AtChosen asked.options.chosen (IsKept text label report_faults) reports.old.items reports.new.items }
    ensures no_reports { GiveNoRequest (labels (voices_of label text reports.old.items)) call.now → reports.new ≡ reports.old }
    ensures report_fault { IsReportCaused (labels (voices_of label text reports.old.items)) call.now (λ place. RoseAt report_faults place reports.old.items reports.new.items) result }
    ensures line { (Rose (E.seen err.old).faults (E.seen err.new).faults → ⊥) → TookAll (status_line (file_words call.now) (labels (voices_of label text reports.old.items)) result) (E.seen err.old) (E.seen err.new) }
    ensures at_most_the_line { TookPrefix (status_line (file_words call.now) (labels (voices_of label text reports.old.items)) result) (E.seen err.old) (E.seen err.new) }
{
    let mut nothing = Closed {};
    let mut no_line = Closed {};
    let its_end = run_held(alloc, call, read, &mut nothing, &mut no_line, reports);
    let status = tell(alloc, call, read, out, reports, its_end);
    write_status(call, reports, &status, err);
    status
}

/// Writes why a call ended so. Where memory was wanting, or a report failed, that is the status.
fn tell<S: Sink>(
    alloc: Global,
    call: &[Word],
    read: &ReadFiles,
    out: &mut S,
    reports: &Vec<Box<dyn Report>>,
    its_end: Status,
) -> Status
    ensures took { Took (ExplainsEnd (map label reports.now.items) call.now read.now.names read.now.texts its_end) result (S.seen out.old) (S.seen out.new) }
    ensures ends { EndsExplained its_end result (S.seen out.old) (S.seen out.new) }
{
    match its_end {
        Status::ReportFault(place) => Status::ReportFault(place),
        Status::Memory => Status::Memory,
        its_end => tell_end(alloc, call, read, out, reports, &its_end),
    }
}

/// Writes why a call ended so.
fn tell_end<S: Sink>(
    alloc: Global,
    call: &[Word],
    read: &ReadFiles,
    out: &mut S,
    reports: &Vec<Box<dyn Report>>,
    its_end: &Status,
) -> Status
    ensures took { Took (ExplainsEnd (map label reports.now.items) call.now read.now.names read.now.texts its_end.now) result (S.seen out.old) (S.seen out.new) }
    ensures ends { EndsExplained its_end.now result (S.seen out.old) (S.seen out.new) }
{
    let Ok(more) = more_with(alloc, call, read, reports, its_end) else {
        return Status::Memory;
    };
    match write_for(out, read, reports, its_end, more.as_slice()) {
        Ok(()) => Status::Done,
        Err(_) => Status::WriteFault,
    }
}

/// What is said of how a call ended, behind the line of the status.
fn more_with(
    alloc: Global,
    call: &[Word],
    read: &ReadFiles,
    reports: &Vec<Box<dyn Report>>,
    its_end: &Status,
) -> Mem<Vec<u8>>
    ensures { IfOk result (λ text. TellsMore (map label reports.now.items) call.now read.now.names read.now.texts its_end.now text.items) }
{
    let names = names_of(alloc, reports)?;
    more_of(alloc, names.items(), call, read, its_end)
}

/// Writes the line of a status with which a call on these files is refused, and a text.
fn write_for<S: Sink>(
    out: &mut S,
    read: &ReadFiles,
    reports: &Vec<Box<dyn Report>>,
    status: &Status,
    more: &[u8],
) -> Result<(), SinkFailed>
    ensures { Writes (line_before read.now.names (map label reports.now.items) status.now ++ more.now) result (S.seen out.old) (S.seen out.new) }
{
    write_both(out, read.names.items(), reports, status, more)
}

/// Writes the line of a status with which a call is refused, and a text.
fn write_both<S: Sink>(
    out: &mut S,
    files: &[Word],
    reports: &Vec<Box<dyn Report>>,
    status: &Status,
    more: &[u8],
) -> Result<(), SinkFailed>
    ensures { Writes (line_before files.now (map label reports.now.items) status.now ++ more.now) result (S.seen out.old) (S.seen out.new) }
{
    write_before(out, files, reports, status)?;
    write_all(out, more)
}

/// Writes the line of a status with which a call is refused.
fn write_before<S: Sink>(
    out: &mut S,
    files: &[Word],
    reports: &Vec<Box<dyn Report>>,
    status: &Status,
) -> Result<(), SinkFailed>
    ensures { Writes (line_before files.now (map label reports.now.items) status.now) result (S.seen out.old) (S.seen out.new) }
{
    match status {
        Status::Done => Ok(()),
        Status::WriteFault => Ok(()),
        status => write_line(out, &FileWords::of(files), reports, status),
    }
}
