//! How a program of the tool starts: the real words, files and streams, and the exit status.
#![tactic(auto)]

ghost use Rattle.std.specs.Prelude.{◌≡◌, IfOk, false, map, string_bytes, true};
ghost use Rattle.fta_outside.specs.Outside.{Rose, Took, TookPrefix};
ghost use Rattle.phases.specs.declared.status.Status.TheVariants.{Done, Unmet, WriteFault};
ghost use Rattle.system_answers.specs.Voices.{labels, voices_of};
ghost use Rattle.fta_start.specs.inner.Own.{own_voices};
ghost use Rattle.explained_calls.specs.inner.Calls.{Comes, asked_words};
ghost use Rattle.fta_run.specs.Line.{status_line};
ghost use Rattle.fta_run.specs.Words.{file_words};

use explained_calls::run_explained;
use fta_outside::{DiskFiles, Files, Report, Sink, StdSink};
use fta_run::{Status, write_line};
use fta_words::FileWords;
use plain_values::{List, Word};
use std::alloc::{AllocError, Global};
use std::env;
use std::io::{BufWriter, ErrorKind, Write};
use std::process::ExitCode;
use std::rt::Env;

/// How many bytes of the output wait until they are written together.
const WAITING_BYTES: usize = 65_536;

/// A program of the tool, with reports of its own.
pub trait Program {
    ghost use Rattle.std.specs.Prelude.{◌≡◌, IfOk, List, OnErr};
    ghost use Rattle.fta_outside.specs.Outside.{Rose, Took, TookPrefix};
    ghost use Rattle.system_answers.specs.Voices.{Voice, labels};
    ghost use Rattle.explained_calls.specs.inner.Calls.{Comes, asked_words};
    ghost use Rattle.fta_run.specs.Line.{status_line};
    ghost use Rattle.fta_run.specs.Words.{file_words};

    /// Its reports, by their names and their texts.
    ghost voices: { Self → List Voice };

    /// Runs the words with the reports of the program, as `run_explained` of `explained_calls` does; an error where there is no memory for these.
    fn run<F: Files, S: Sink, E: Sink>(
        &self,
        alloc: Global,
        words: &[Word],
        files: &mut F,
        out: &mut S,
        err: &mut E,
    ) -> Result<Status, AllocError>
        ensures comes { IfOk result (λ status. Comes words.now (F.contents files.old) (F.faults files.old) (F.faults files.new) (voices self.now) status (S.seen out.old) (S.seen out.new)) }
        ensures line { IfOk result (λ status. (Rose (E.seen err.old).faults (E.seen err.new).faults → ⊥) → Took (status_line (file_words (asked_words words.now)) (labels (voices self.now)) status) (E.seen err.old) (E.seen err.new)) }
        ensures at_most_the_line { IfOk result (λ status. TookPrefix (status_line (file_words (asked_words words.now)) (labels (voices self.now)) status) (E.seen err.old) (E.seen err.new)) }
        ensures nothing { OnErr result ((S.seen out.new).taken ≡ (S.seen out.old).taken) };
}

/// Runs the words with these reports, which are those of the tool.
pub fn run_own<F: Files, S: Sink, E: Sink>(
    alloc: Global,
    words: &[Word],
    files: &mut F,
    out: &mut S,
    err: &mut E,
    reports: &mut Vec<Box<dyn Report>>,
) -> Status
    requires { voices_of label text reports.old.items ≡ own_voices }
    ensures comes { Comes words.now (F.contents files.old) (F.faults files.old) (F.faults files.new) own_voices result (S.seen out.old) (S.seen out.new) }
    ensures line { (Rose (E.seen err.old).faults (E.seen err.new).faults → ⊥) → Took (status_line (file_words (asked_words words.now)) (labels own_voices) result) (E.seen err.old) (E.seen err.new) }
    ensures at_most_the_line { TookPrefix (status_line (file_words (asked_words words.now)) (labels own_voices) result) (E.seen err.old) (E.seen err.new) }
{
    run_explained(alloc, words, files, out, err, reports)
}

/// Runs the words after the program's name with the real files and streams, and gives the exit status.
///
/// The output is gathered, and written when much of it waits and at the end. A word that is not UTF-8 gives no request. Where memory is
/// wanting before or after the run, that is the status, and the line of it is written as `run` writes it.
pub fn start<P: Program>(rt: &HostRuntime, program: &P) -> ExitCode {
    let mut err = StdSink::new(rt.stderr());
    let status = match command_words(rt, rt.alloc()) {
        Ok(words) => match run_words(rt, program, words.as_slice(), &mut err) {
            Ok(status) => status,
            Err(_) => stopped(rt.alloc(), Status::Memory, &mut err),
        },
        Err(status) => stopped(rt.alloc(), status, &mut err),
    };
    ExitCode::from(status.exit())
}

/// Writes the line of a status, where nothing was run; a fault of the error stream changes no status.
fn stopped<E: Sink>(alloc: Global, status: Status, err: &mut E) -> Status
    ensures { result ≡ status }
{
    let _written = write_line(err, &FileWords::of(&[]), &Vec::new(alloc), &status);
    status
}

/// Runs the words with the real files and the real output.
fn run_words<P: Program, E: Sink>(
    rt: &HostRuntime,
    program: &P,
    words: &[Word],
    err: &mut E,
) -> Result<Status, AllocError> {
    let alloc = rt.alloc();
    let mut files = DiskFiles::new(rt);
    let Ok(mut waiting) = BufWriter::with_capacity(alloc, WAITING_BYTES, rt.stdout()) else {
        return Err(AllocError);
    };
    let mut out = StdSink::new(&mut waiting);
    let status = program.run(alloc, words, &mut files, &mut out, err)?;
    Ok(ended(alloc, status, waiting.flush().is_ok(), err))
}

/// The status of a run, of whose output the last bytes were written, or were not.
fn ended<E: Sink>(alloc: Global, status: Status, is_written: bool, err: &mut E) -> Status
    ensures written { is_written ≡ true → result ≡ status }
    ensures lost { is_written ≡ false → status ≡ Done → result ≡ WriteFault }
    ensures lost_unmet { is_written ≡ false → status ≡ Unmet → result ≡ WriteFault }
    ensures other { (status ≡ Done → ⊥) → (status ≡ Unmet → ⊥) → result ≡ status }
{
    match status {
        Status::Done if !is_written => stopped(alloc, Status::WriteFault, err),
        Status::Unmet if !is_written => stopped(alloc, Status::WriteFault, err),
        _ => status,
    }
}

/// The words after the program's name. A word that is not UTF-8 gives no request.
fn command_words<R: Env + AllocGlobal>(rt: &R, alloc: Global) -> Result<Vec<Word>, Status> {
    let arguments = match env::args(rt) {
        Ok(arguments) => arguments,
        Err(error) if error.kind() == ErrorKind::OutOfMemory => return Err(Status::Memory),
        Err(_) => return Err(Status::Usage),
    };
    let texts: Vec<String> = arguments.collect(alloc)?;
    Ok(words_of(alloc, texts.get(1..).unwrap_or(&[]))?)
}

/// The words of these texts.
fn words_of(alloc: Global, texts: &[String]) -> Result<Vec<Word>, AllocError>
    ensures { IfOk result (λ words. words.items ≡ map (λ text. string_bytes text) texts.now) }
{
    let mut words = Vec::new(alloc);
    for text in texts {
        words.push(List::of(Vec::from_slice(alloc, text.as_bytes())?)?)?;
    }
    Ok(words)
}
