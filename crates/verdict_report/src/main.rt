//! A report of one's own: whether a single event is enough to bring the target about. The program is the tool with this report
//! beside its own ones, so `report ROOT TARGET FILE.. --reports verdict` answers with one line.
#![tactic(auto)]

ghost use Rattle.std.specs.Prelude.{◌≡◌};
ghost use Rattle.fta_outside.specs.Outside.{Rose, Took as TookAll, TookPrefix};
ghost use Rattle.system_answers.specs.Voices.{labels, voices_of};
ghost use Rattle.fta_run.specs.Line.{status_line};
ghost use Rattle.fta_run.specs.Words.{file_words};
ghost use Rattle.explained_calls.specs.inner.Calls.{Comes, asked_words};
ghost use Rattle.verdict_report.specs.inner.Verdict.{all_voices};

mod verdict;

use crate::verdict::Verdict;
use cut_reports::{EventUse, OrderProfile, SinglePoints};
use explained_calls::run_explained;
use fta_outside::{Files, Report, Sink};
use fta_run::Status;
use fta_start::{Program, start};
use plain_values::Word;
use std::alloc::{AllocError, Global};
use std::process::ExitCode;

fn main(rt: HostRuntime) -> ExitCode {
    start(&rt, &ToolWithVerdict)
}

/// The tool, with this report behind the three of its own.
struct ToolWithVerdict;

impl Program for ToolWithVerdict {
    ghost use Rattle.verdict_report.specs.inner.Verdict.{all_voices};

    ghost voices = { λ _. all_voices };

    fn run<F: Files, S: Sink, E: Sink>(
        &self,
        alloc: Global,
        words: &[Word],
        files: &mut F,
        out: &mut S,
        err: &mut E,
    ) -> Result<Status, AllocError> {
        let mut reports: Vec<Box<dyn Report>> = Vec::new(alloc);
        reports.push(Box::new(alloc, OrderProfile::new(alloc))?)?;
        reports.push(Box::new(alloc, EventUse::new(alloc))?)?;
        reports.push(Box::new(alloc, SinglePoints::new(alloc))?)?;
        reports.push(Box::new(alloc, Verdict::new(alloc))?)?;
        Ok(run_all(alloc, words, files, out, err, &mut reports))
    }
}

/// Runs the words with these reports, which are those of the tool and this one.
fn run_all<F: Files, S: Sink, E: Sink>(
    alloc: Global,
    words: &[Word],
    files: &mut F,
    out: &mut S,
    err: &mut E,
    reports: &mut Vec<Box<dyn Report>>,
) -> Status
    requires { voices_of label text reports.old.items ≡ all_voices }
    ensures comes { Comes words.now (F.contents files.old) (F.faults files.old) (F.faults files.new) all_voices result (S.seen out.old) (S.seen out.new) }
    ensures line { (Rose (E.seen err.old).faults (E.seen err.new).faults → ⊥) → TookAll (status_line (file_words (asked_words words.now)) (labels all_voices) result) (E.seen err.old) (E.seen err.new) }
    ensures at_most_the_line { TookPrefix (status_line (file_words (asked_words words.now)) (labels all_voices) result) (E.seen err.old) (E.seen err.new) }
{
    run_explained(alloc, words, files, out, err, reports)
}
