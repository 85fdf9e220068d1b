ghost use Rattle.std.specs.Prelude.{◌≡◌, List, IfOk, IfErr};
ghost use Rattle.fta_words.specs.Table.{flags_of, valued_of};
ghost use Rattle.fta_words.specs.Words.{AreOptions, Given, IsRequest, is_set, option_words};
ghost use Rattle.fta_words.specs.inner.Reading.{Answers, AnswersInFull, HaveOptions, ReadsAs, SaysAs};
ghost use Rattle.fta_words.specs.inner.Reasons.{TellsUsage};
ghost use Rattle.fta_words.specs.inner.Shown.{request_shown};

use crate::asked::asked_of;
use crate::error::WordsFault;
use crate::files::before_options;
use crate::kind::Kind;
use crate::options::{are_complete, are_fit, are_options};
use crate::parsed::options_said;
use crate::plain::{are_plain, texts_of};
use crate::short::short_form;
use crate::table::kind_named;
use plain_values::{List, Mem, Name, Root, Word, is_same};
use std::alloc::Global;

/// What the words ask for. What the shape of its command does not have is empty, zero or none.
#[derive(Drop)]
pub struct Request {
    /// Which command.
    pub kind: Kind,
    /// The root of a model, whose letters are folded.
    pub root: Root,
    /// The name of a fact of it, folded, or that of the code of a refusal.
    pub target: Name,
    /// The size of a model that is made, from 1 to 512, a byte of a text, or how many of the files are the older ones.
    pub number: u32,
    /// The command on which help is asked for.
    pub of: Option<Kind>,
    /// The names of the files: one at least where there is a root, and that of a derivation, or of requirements, before them; the older and then the newer ones where a command compares; one where a file is read alone.
    pub files: List<Word>,
    /// What the options say.
    pub options: Options,
}

/// What options say. An option that is not given says none or nothing; but without `--reports` all reports are chosen.
#[derive(Drop)]
pub struct Options {
    /// Which page of a listing is asked for.
    pub paging: Paging,
    /// The text of a set of events, folded.
    pub set: Name,
    /// How many hours, as the words have them.
    pub hours: Option<Name>,
    /// How a model or a tree is read, and a tree is written.
    pub form: Form,
    /// The places of the chosen reports, which rise; none where the command has no reports.
    pub chosen: List<u32>,
    /// The names of the flags that are given, in the order of those of all commands: `tokens`, that a last line `more` has a token;
    /// `all`, that all effects, or all facts, are asked for, and not those of the root alone; `text`, that the text of a model that is
    /// made is; `paths`, that the path sets of a tree are, and not its cut sets;
    /// `events`, that the importance of each event is; `tap`, that verdicts on requirements are written as TAP;
    /// `probability`, that the probability of the top of a tree is; `sheet`, that a line for each event is.
    pub flags: List<Name>,
}

impl Options {
    /// Whether the flag of a name is given.
    pub fn is_set(&self, name: &[u8]) -> bool
        ensures { result ≡ is_set self.now name.now }
    {
        self.flags
            .items()
            .iter()
            .any(|flag| is_same(flag.items(), name))
    }
}

/// How a model or a tree is read, and a tree is written, each by the word that is given; empty where none is.
#[derive(Drop)]
pub struct Form {
    /// The format of its text: `galileo`, `mef` or `dot`.
    pub format: Name,
    /// Which gates it has: `written` or `merged`.
    pub gates: Name,
    /// What is done with an event without a rate: `1` or `refuse`.
    pub unrated: Name,
    /// By which profile the model, or the tree in a file, is read: `1` or `2`.
    pub profile: Name,
}

/// Which page of a listing is asked for.
#[derive(Drop)]
pub struct Paging {
    /// How many sets at most.
    pub limit: Option<u32>,
    /// After which text of a set, which is folded.
    pub after: Option<Name>,
    /// How many events a set may have.
    pub max_order: Option<u32>,
}

impl Request {
    /// The request that the words give, where the reports have these names.
    ///
    /// The plain words come first: the name of the command, and then those of its shape. The options follow, each at most once: a flag as
    /// `--x`, an option with a value as `--x=v` or as the two words `--x v`; what the command requires is there, and none
    /// that has no meaning beside another. A plain word and a value are UTF-8, not empty, and do not begin with `-`. The letters of root, target and set are folded; the places of the
    /// chosen reports are counted from 0 and rise. `--help` and `-h` alone are `help`, `--version` and `-V` are `version`, and a command's name
    /// with `--help` is `help` with that name.
    ///
    /// `Usage` where the words give no request; `Memory` where memory was wanting, or there are more reports than 32 bits count.
    pub fn read(alloc: Global, words: &[Word], reports: &[Name]) -> Result<Request, WordsFault>
        ensures request { IfOk result (λ request. IsRequest reports.now words.now (request_shown request)) }
        ensures none { IfErr result (TellsUsage reports.now words.now) }
    {
        let Some(request) = request_in(alloc, words, reports)? else {
            return Err(WordsFault::Usage);
        };
        Ok(request)
    }
}

/// The request that the words give, if they give one.
fn request_in(alloc: Global, words: &[Word], reports: &[Name]) -> Mem<Option<Request>>
    ensures { IfOk result (Answers reports.now words.now) }
{
    match short_form(words) {
        Some(short) => request_of(alloc, short.kind, short.plain, &[], reports),
        None => request_in_full(alloc, words, reports),
    }
}

/// The request that words in full give, if they give one.
fn request_in_full(alloc: Global, words: &[Word], reports: &[Name]) -> Mem<Option<Request>>
    ensures { IfOk result (AnswersInFull reports.now words.now) }
{
    let plain = before_options(words);
    if !are_plain(plain) {
        return Ok(None);
    }
    let Some((name, others)) = plain.split_first() else {
        return Ok(None);
    };
    let Some(kind) = kind_named(name.items()) else {
        return Ok(None);
    };
    request_of(alloc, kind, others, &words[plain.len()..], reports)
}

/// The request of the plain words behind the name of a command, and of the words behind them.
fn request_of(
    alloc: Global,
    kind: Kind,
    plain: &[Word],
    behind: &[Word],
    reports: &[Name],
) -> Mem<Option<Request>>
    ensures { IfOk result (ReadsAs reports.now kind plain.now behind.now) }
{
    if !are_options(kind, behind) || !are_complete(kind, behind) || !are_fit(kind, behind) {
        return Ok(None);
    }
    let Some(options) = options_of(alloc, kind, behind, reports)? else {
        return Ok(None);
    };
    let Some(asked) = asked_of(alloc, kind, plain)? else {
        return Ok(None);
    };
    Ok(Some(Request {
        kind,
        root: asked.root,
        target: asked.target,
        number: asked.number,
        of: asked.of,
        files: asked.files,
        options,
    }))
}

/// What words say that are options of the command; none where a value has not its form.
fn options_of(alloc: Global, kind: Kind, words: &[Word], reports: &[Name]) -> Mem<Option<Options>>
    requires { HaveOptions (flags_of kind) (valued_of kind) words.now }
    ensures { (given : List Given) → words.now ≡ option_words given → AreOptions (flags_of kind) (valued_of kind) given → IfOk result (SaysAs kind reports.now given) }
{
    let Some(texts) = texts_of(alloc, words)? else {
        return Ok(None);
    };
    options_said(alloc, kind, texts.as_slice(), reports)
}
