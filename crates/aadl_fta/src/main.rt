//! The program.
#![tactic(auto)]

use cut_reports::{EventUse, OrderProfile, SinglePoints};
use fta_outside::{Files, Report, Sink};
use fta_run::Status;
use fta_start::{Program, run_own, start};
use plain_values::Word;
use std::alloc::{AllocError, Global};
use std::process::ExitCode;

fn main(rt: HostRuntime) -> ExitCode {
    start(&rt, &Tool)
}

/// The tool, with the three reports of its own.
struct Tool;

impl Program for Tool {
    ghost use Rattle.fta_start.specs.inner.Own.{own_voices};

    ghost voices = { λ _. own_voices };

    fn run<F: Files, S: Sink, E: Sink>(
        &self,
        alloc: Global,
        words: &[Word],
        files: &mut F,
        out: &mut S,
        err: &mut E,
    ) -> Result<Status, AllocError> {
        let mut reports: Vec<Box<dyn Report>> = Vec::new(alloc);
        reports.push(Box::new(alloc, OrderProfile::new(alloc))?)?;
        reports.push(Box::new(alloc, EventUse::new(alloc))?)?;
        reports.push(Box::new(alloc, SinglePoints::new(alloc))?)?;
        Ok(run_own(alloc, words, files, out, err, &mut reports))
    }
}
