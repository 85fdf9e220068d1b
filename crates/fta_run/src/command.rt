ghost use Rattle.std.specs.Prelude.{◌≡◌, ◌<◌, ℕ, List, IfOk, IsErrAnd, Result, length, map};
ghost use Rattle.fta_outside.specs.Outside.{Rose, Took as TookAll, TookPrefix};
ghost use Rattle.phases.specs.Phases.{IsDue};
ghost use Rattle.phases.specs.inner.Meets.{MeetsBut};
ghost use Rattle.phases.specs.declared.status.Status.{Status as AnyStatus};
ghost use Rattle.fta_run.specs.Line.{status_line};
ghost use Rattle.fta_run.specs.Answers.{AllTold, AnswersWords, AskForSets, BeginsWithMemory, IsCaused, IsJustified, IsManyAnswer, IsOutput, MayCome, Took};
ghost use Rattle.fta_run.specs.Due.{due};
ghost use Rattle.fta_run.specs.Files.{most_files};
ghost use Rattle.fta_run.specs.Required.{Output};
ghost use Rattle.fta_run.specs.inner.Ready.{IsByLines, answer_output};
ghost use Rattle.fta_run.specs.Words.{GiveNoRequest, IsRequest, Request as AnyRequest, file_words};
ghost use Rattle.system_answers.specs.Voices.{labels, voices_of};
ghost use Rattle.cut_reports.specs.Feeding.{IsKept, RoseAt};
ghost use Rattle.cut_reports.specs.Places.{AtChosen};
ghost use Rattle.fta_run.specs.inner.Steps.{AsksLines, IsExcused, Runs, ended};

use crate::answering::answer_in;
use crate::input::read_texts;
use crate::line::write_line;
use crate::ready::{Answer, write};
use crate::words::request_of;
use fta_outside::{Files, Report, Sink};
use fta_words::file_words;
use phases::Status;
use plain_values::Word;
use std::alloc::Global;
use system_answers::names_of;

/// Runs the request that the words give, and says how it ended.
///
/// `check ROOT FILE..` writes the numbers of components, facts and events of the model of a root in the files,
/// `cuts ROOT TARGET FILE..` a page of the minimal cut sets of a fact in it, `tree ROOT TARGET FILE..` its static fault tree as
/// Galileo text, `fmea ROOT FILE..` the table of the effects that each event reaches alone, or with `--sheet` a line for each event, `targets ROOT FILE..` how many events it takes
/// to make each effect of the root hold, `events ROOT FILE..` each event with its kind, its rate, and where it is declared,
/// `review ROOT FILE..` what it leaves without effect, and where its errors stop, `report ROOT TARGET FILE..` what the
/// handed-in reports say of all minimal cut sets of a fact, `make N` what is said of a model that is made of a number, and
/// `galileo FILE` the minimal cut sets, or path sets, of a tree in Galileo text, the tree as Open-PSA text or a picture, or how probable its
/// top is. `paths ROOT TARGET FILE..` writes a page of the minimal
/// path sets of a fact, `why ROOT TARGET FILE..` a derivation of it under a set of events, and `confirm ROOT TARGET DERIVATION FILE..`
/// that a text is one. `require ROOT REQUIREMENTS FILE..` tells which requirements of a file are met. `place FILE BYTE` writes where a byte of a file stands, and `help` and `version` write fixed texts. Under every
/// status but Done and Unmet one line is written to `err`; a fault of `err` changes nothing.
pub fn run<F: Files, S: Sink, E: Sink>(
    alloc: Global,
    words: &[Word],
    files: &mut F,
    out: &mut S,
    err: &mut E,
    reports: &mut Vec<Box<dyn Report>>,
) -> Status
    // Usage comes exactly where the words give no request.
    ensures words { AnswersWords result (labels (voices_of label text reports.old.items)) words.now }

    // A refusal is the verdict on texts that the files may contain, and so is that a target is constant or a token stale.
    ensures verdict { IsJustified words.now (F.contents files.old) (voices_of label text reports.old.items) result }

    // Under Done and Unmet `out` took the text of the request on texts that the files may contain, and else at most a front of it; it is Unmet
    // exactly where that tells of a requirement that is not met.
    ensures output { Took (IsOutput words.now (F.contents files.old) (voices_of label text reports.old.items)) result (S.seen out.old) (S.seen out.new) }

    // Once a text was begun, no memory is wanting, but for the lines of a tree and of a table.
    ensures begins { (asked : AnyRequest) → IsRequest (labels (voices_of label text reports.old.items)) words.now asked → BeginsWithMemory asked result (S.seen out.old) (S.seen out.new) }

    // A fault comes only where its count rose.
    ensures faults { IsCaused result (labels (voices_of label text reports.old.items)) words.now (F.faults files.old) (F.faults files.new) (S.seen out.old) (S.seen out.new) (λ place. RoseAt report_faults place reports.old.items reports.new.items) }

    // Where the files of the request tell their contents, what is due for the words and the contents comes, unless memory runs
    // out or a fault comes first.
    ensures complete { AllTold words.now (F.contents files.old) (voices_of label text reports.old.items)
        → (its_due : Result Output AnyStatus) → IsDue (due words.now (F.contents files.old) (voices_of label text reports.old.items)) its_due → MayCome (AskForSets words.now (F.contents files.old) (voices_of label text reports.old.items)) its_due result }

    // The list of reports keeps its length and order; a report that the request does not choose is as before, and of each the text
    // and the name. Where there is no request, all reports are as before.
    ensures reports { (asked : AnyRequest) → IsRequest (labels (voices_of label text reports.old.items)) words.now asked → AtChosen asked.options.chosen (IsKept text label report_faults) reports.old.items reports.new.items }
    ensures no_reports { GiveNoRequest (labels (voices_of label text reports.old.items)) words.now → reports.new ≡ reports.old }
    ensures names { map label reports.new.items ≡ map label reports.old.items }

    // No file is read where there is no request, or where too many are named; too many are refused, whatever the files tell.
    ensures no_files { GiveNoRequest (labels (voices_of label text reports.old.items)) words.now → files.new ≡ files.old }
    ensures too_many { most_files < length (file_words words.now) → files.new ≡ files.old }
    ensures many { most_files < length (file_words words.now) → IsManyAnswer result }

    // `err` took exactly the line of the status where its count did not rise, and else at most a front of it.
    ensures line { (Rose (E.seen err.old).faults (E.seen err.new).faults → ⊥) → TookAll (status_line (file_words words.now) (labels (voices_of label text reports.old.items)) result) (E.seen err.old) (E.seen err.new) }
    ensures at_most_the_line { TookPrefix (status_line (file_words words.now) (labels (voices_of label text reports.old.items)) result) (E.seen err.old) (E.seen err.new) }
{
    let status = ended(answer_and_write(alloc, words, files, out, reports));
    write_status(words, reports, &status, err);
    status
}

/// Writes the line of a status, and forgets a fault.
pub fn write_status<E: Sink>(
    words: &[Word],
    reports: &Vec<Box<dyn Report>>,
    status: &Status,
    err: &mut E,
)
    ensures line { (Rose (E.seen err.old).faults (E.seen err.new).faults → ⊥) → TookAll (status_line (file_words words.now) (map label reports.now.items) status.now) (E.seen err.old) (E.seen err.new) }
    ensures at_most_the_line { TookPrefix (status_line (file_words words.now) (map label reports.now.items) status.now) (E.seen err.old) (E.seen err.new) }
{
    let files = file_words(words);
    let _written = write_line(err, &files, reports, status);
}

/// How a run ended that answered this.
fn ended(answer: Result<bool, Status>) -> Status
    ensures { result ≡ ended answer }
{
    match answer {
        Ok(true) => Status::Done,
        Ok(false) => Status::Unmet,
        Err(status) => status,
    }
}

/// Writes the answer on the request that the words give, and says whether it tells of no requirement that is not met.
fn answer_and_write<F: Files, S: Sink>(
    alloc: Global,
    words: &[Word],
    files: &mut F,
    out: &mut S,
    reports: &mut Vec<Box<dyn Report>>,
) -> Result<bool, Status>
    ensures end { Runs words.now (F.contents files.old) (voices_of label text reports.old.items) (F.faults files.old) (F.faults files.new) (λ place. RoseAt report_faults place reports.old.items reports.new.items) result (S.seen out.old) (S.seen out.new) }
    ensures reports { (asked : AnyRequest) → IsRequest (labels (voices_of label text reports.old.items)) words.now asked → AtChosen asked.options.chosen (IsKept text label report_faults) reports.old.items reports.new.items }
    ensures no_reports { GiveNoRequest (labels (voices_of label text reports.old.items)) words.now → reports.new ≡ reports.old }
    ensures no_files { GiveNoRequest (labels (voices_of label text reports.old.items)) words.now → files.new ≡ files.old }
    ensures too_many { most_files < length (file_words words.now) → files.new ≡ files.old }
    ensures many { most_files < length (file_words words.now) → IsManyAnswer (ended result) }
    ensures names { map label reports.new.items ≡ map label reports.old.items }
{
    let answer = answer(alloc, words, files, reports)?;
    let met = answer.met;
    write(alloc, answer.ready, out)?;
    Ok(met)
}

/// The answer on the request that the words give.
fn answer<F: Files>(
    alloc: Global,
    words: &[Word],
    files: &mut F,
    reports: &mut Vec<Box<dyn Report>>,
) -> Result<Answer, Status>
    ensures text { MeetsBut (IsExcused words.now (F.contents files.old) (voices_of label text reports.old.items) (F.faults files.old) (F.faults files.new) (λ place. RoseAt report_faults place reports.old.items reports.new.items)) answer_output (due words.now (F.contents files.old) (voices_of label text reports.old.items)) result }
    ensures by_lines { IfOk result (λ answer. IsByLines answer.ready → AsksLines words.now (voices_of label text reports.old.items)) }
    ensures reports { (asked : AnyRequest) → IsRequest (labels (voices_of label text reports.old.items)) words.now asked → AtChosen asked.options.chosen (IsKept text label report_faults) reports.old.items reports.new.items }
    ensures no_reports { GiveNoRequest (labels (voices_of label text reports.old.items)) words.now → reports.new ≡ reports.old }
    ensures no_files { GiveNoRequest (labels (voices_of label text reports.old.items)) words.now → files.new ≡ files.old }
    ensures too_many { most_files < length (file_words words.now) → files.new ≡ files.old }
    ensures many { most_files < length (file_words words.now) → IsErrAnd result IsManyAnswer }
    ensures names { map label reports.new.items ≡ map label reports.old.items }
{
    let names = names_of(alloc, reports)?;
    let asked = request_of(alloc, words, names.items())?;
    let texts = read_texts(alloc, files, asked.files.items())?;
    answer_in(alloc, &asked, texts, reports)
}
