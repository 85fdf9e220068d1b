//! Files that were read before a run, and a run on them.

ghost use Rattle.std.specs.Prelude.{◌≡◌, ◌<◌, [], ℕ, List, Option, IfErr, IfOk, MatchResult, cond, length, map, nat_lt, option_map, take};
ghost use Rattle.fta_outside.specs.Outside.{Rose, Took as TookAll, TookPrefix};
ghost use Rattle.phases.specs.declared.status.Status.TheVariants.{Memory};
ghost use Rattle.fta_run.specs.Answers.{AnswersWords, BeginsWithMemory, IsManyAnswer};
ghost use Rattle.fta_run.specs.Files.{most_files};
ghost use Rattle.fta_run.specs.Line.{status_line};
ghost use Rattle.fta_run.specs.inner.Held.{AreFronts, IsReadEnd, IsReportCaused, IsToRead, RanOn, RanRead, text_of};
ghost use Rattle.cut_reports.specs.Feeding.{IsKept, RoseAt};
ghost use Rattle.cut_reports.specs.Places.{AtChosen};
ghost use Rattle.fta_run.specs.Words.{GiveNoRequest, IsRequest, Request as AnyRequest, file_words};
ghost use Rattle.system_answers.specs.Voices.{labels, voices_of};

use crate::command::{run, write_status};
use crate::input::{MOST_FILES, read_files};
use crate::words::request_of;
use fta_outside::{FileError, Files, Report, Sink};
use phases::Status;
use plain_values::{List, Name, Word, is_same};
use std::alloc::Global;
use system_answers::names_of;

/// The names of the files of the request that words give, and what was read of each.
#[derive(Drop)]
pub struct ReadFiles {
    pub names: List<Word>,
    pub texts: List<Name>,
}

/// Files that were read, each with its name. A read of one of them never fails, and that of another name is want of memory.
#[derive(Drop)]
struct HeldFiles<'a> {
    names: &'a [Word],
    texts: &'a [Name],
}

impl<'a> Files for HeldFiles<'a> {
    ghost use Rattle.fta_run.specs.inner.Held.{text_of};

    ghost contents = { λ held name. text_of held.names.now held.texts.now name };

    ghost faults = { λ _ _. 0 };

    fn read(&mut self, alloc: Global, name: &Word, most: usize) -> Result<Vec<u8>, FileError> {
        match text_of(self.names, self.texts, name.items()) {
            Some(text) => front_of(alloc, text, most),
            None => Err(FileError::Memory),
        }
    }
}

/// The text of the first of these files that has a name.
fn text_of<'t>(names: &[Word], texts: &'t [Name], name: &[u8]) -> Option<&'t [u8]>
    ensures { option_map (λ text. text.now) result ≡ text_of names.now texts.now name.now }
{
    let (other, names) = names.split_first()?;
    let (text, texts) = texts.split_first()?;
    if is_same(other.items(), name) {
        return Some(text.items());
    }
    text_of(names, texts, name)
}

/// The first `most` bytes of a text, or all of them where they are fewer.
fn front_of(alloc: Global, text: &[u8], most: usize) -> Result<Vec<u8>, FileError>
    ensures { MatchResult result (λ bytes. bytes.items ≡ take most text.now) (λ error. error ≡ FileError.Memory) }
{
    Ok(Vec::from_slice(alloc, &text[..most.min(text.len())])?)
}

/// Runs the request that the words give on what its files were read as, as `run` does: each of the files is read once, up to one byte
/// more than it may have, before anything is done with them.
///
/// Where the words give no request, or name too many files, none is read.
pub fn run_read<F: Files, S: Sink, E: Sink>(
    alloc: Global,
    words: &[Word],
    files: &mut F,
    out: &mut S,
    err: &mut E,
    reports: &mut Vec<Box<dyn Report>>,
) -> Status
    // Usage comes exactly where the words give no request.
    ensures words { AnswersWords result (labels (voices_of label text reports.old.items)) words.now }

    // What is due for exactly the bytes that the reads gave comes, or a read failed.
    ensures told { RanRead words.now (F.contents files.old) (F.faults files.old) (F.faults files.new) (voices_of label text reports.old.items) result (S.seen out.old) (S.seen out.new) }

    // Once a text was begun, no memory is wanting, but for the lines of a tree and of a table.
    ensures begins { (asked : AnyRequest) → IsRequest (labels (voices_of label text reports.old.items)) words.now asked → BeginsWithMemory asked result (S.seen out.old) (S.seen out.new) }

    // The list of reports is kept as by `run`, and a report fails only where the request chooses it and its count rose.
    ensures reports { (asked : AnyRequest) → IsRequest (labels (voices_of label text reports.old.items)) words.now asked → AtChosen asked.options.chosen (IsKept text label report_faults) reports.old.items reports.new.items }
    ensures no_reports { GiveNoRequest (labels (voices_of label text reports.old.items)) words.now → reports.new ≡ reports.old }
    ensures report_fault { IsReportCaused (labels (voices_of label text reports.old.items)) words.now (λ place. RoseAt report_faults place reports.old.items reports.new.items) result }

    // No file is read where there is no request, or where too many are named; too many are refused, whatever the files tell.
    ensures no_files { GiveNoRequest (labels (voices_of label text reports.old.items)) words.now → files.new ≡ files.old }
    ensures too_many { most_files < length (file_words words.now) → files.new ≡ files.old }
    ensures many { most_files < length (file_words words.now) → IsManyAnswer result }

    // `err` took exactly the line of the status where its count did not rise, and else at most a front of it.
    ensures line { (Rose (E.seen err.old).faults (E.seen err.new).faults → ⊥) → TookAll (status_line (file_words words.now) (labels (voices_of label text reports.old.items)) result) (E.seen err.old) (E.seen err.new) }
    ensures at_most_the_line { TookPrefix (status_line (file_words words.now) (labels (voices_of label text reports.old.items)) result) (E.seen err.old) (E.seen err.new) }
{
    match read_first(alloc, words, files, reports) {
        Ok(read) => run_held(alloc, words, &read, out, err, reports),
        Err(status) => {
            write_status(words, reports, &status, err);
            status
        }
    }
}

/// Runs the request that the words give, as `run` does, on files that were read.
pub fn run_held<S: Sink, E: Sink>(
    alloc: Global,
    words: &[Word],
    read: &ReadFiles,
    out: &mut S,
    err: &mut E,
    reports: &mut Vec<Box<dyn Report>>,
) -> Status
    ensures words { AnswersWords result (labels (voices_of label text reports.old.items)) words.now }
    ensures told { (contents : List ℕ → Option (List ℕ)) → IsToRead (labels (voices_of label text reports.old.items)) words.now read.now.names → AreFronts contents read.now.names read.now.texts → RanOn words.now (text_of read.now.names read.now.texts) (voices_of label text reports.old.items) result (S.seen out.old) (S.seen out.new) }
    ensures begins { (asked : AnyRequest) → IsRequest (labels (voices_of label text reports.old.items)) words.now asked → BeginsWithMemory asked result (S.seen out.old) (S.seen out.new) }
    ensures reports { (asked : AnyRequest) → IsRequest (labels (voices_of label text reports.old.items)) words.now asked → AtChosen asked.options.chosen (IsKept text label report_faults) reports.old.items reports.new.items }
    ensures no_reports { GiveNoRequest (labels (voices_of label text reports.old.items)) words.now → reports.new ≡ reports.old }
    ensures report_fault { IsReportCaused (labels (voices_of label text reports.old.items)) words.now (λ place. RoseAt report_faults place reports.old.items reports.new.items) result }
    ensures names { map label reports.new.items ≡ map label reports.old.items }
    ensures many { most_files < length (file_words words.now) → IsManyAnswer result }
    ensures line { (Rose (E.seen err.old).faults (E.seen err.new).faults → ⊥) → TookAll (status_line (file_words words.now) (labels (voices_of label text reports.old.items)) result) (E.seen err.old) (E.seen err.new) }
    ensures at_most_the_line { TookPrefix (status_line (file_words words.now) (labels (voices_of label text reports.old.items)) result) (E.seen err.old) (E.seen err.new) }
{
    let mut held = HeldFiles {
        names: read.names.items(),
        texts: read.texts.items(),
    };
    run(alloc, words, &mut held, out, err, reports)
}

/// The files of the request that the words give, as they were read; none where there is no request, or where too many are named. A status
/// is want of memory, or a fault of a file of the request.
pub fn read_first<F: Files>(
    alloc: Global,
    words: &[Word],
    files: &mut F,
    reports: &Vec<Box<dyn Report>>,
) -> Result<ReadFiles, Status>
    ensures named { IfOk result (λ read. IsToRead (labels (voices_of label text reports.now.items)) words.now read.names) }
    ensures fronts { IfOk result (λ read. AreFronts (F.contents files.old) read.names read.texts) }
    ensures fault { IfErr result (IsReadEnd (file_words words.now) (F.faults files.old) (F.faults files.new)) }
    ensures words { IfErr result (λ status. AnswersWords status (labels (voices_of label text reports.now.items)) words.now) }
    ensures many { IfErr result (λ status. most_files < length (file_words words.now) → IsManyAnswer status) }
    ensures no_files { GiveNoRequest (labels (voices_of label text reports.now.items)) words.now → files.new ≡ files.old }
    ensures too_many { most_files < length (file_words words.now) → files.new ≡ files.old }
{
    let names = names_to_read(alloc, words, reports)?;
    if names.items().is_empty() {
        return Ok(ReadFiles {
            names,
            texts: List::new(alloc),
        });
    }
    let texts = read_files(alloc, files, names.items())?;
    Ok(ReadFiles { names, texts })
}

/// The names of the files of the request that the words give; none where there is no request, or where they are too many.
fn names_to_read(
    alloc: Global,
    words: &[Word],
    reports: &Vec<Box<dyn Report>>,
) -> Result<List<Word>, Status>
    ensures names { IfOk result (λ names. IsToRead (labels (voices_of label text reports.now.items)) words.now names) }
    ensures memory { IfErr result (λ status. status ≡ Memory) }
{
    let names = names_of(alloc, reports)?;
    match request_of(alloc, words, names.items()) {
        Ok(asked) => Ok(if_few(alloc, asked.files)),
        Err(Status::Usage) => Ok(List::new(alloc)),
        Err(_) => Err(Status::Memory),
    }
}

/// These names, where they are not too many, and else none.
fn if_few(alloc: Global, names: List<Word>) -> List<Word>
    ensures { result ≡ cond (nat_lt most_files (length names)) [] names }
{
    if names.items().len() > MOST_FILES {
        List::new(alloc)
    } else {
        names
    }
}
