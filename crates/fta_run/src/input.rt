ghost use Rattle.std.specs.Prelude.{◌≡◌, ℕ, ◌<◌, ◌≤◌, suc, List, [], ◌∷◌, MatchResult, IfOk, IfErr, IfSome, Err, All, drop, length, sum_by, take};
ghost use Rattle.plain_values.specs.declared.refusal.Refusal.{Refusal};
ghost use Rattle.plain_values.specs.declared.refusal.Code.TheVariants.{TooManyFiles};
ghost use Rattle.plain_values.specs.declared.refusal.Stop.TheVariants.{Refused};
ghost use Rattle.plain_values.specs.Order.{IsFirst, least, nearer};
ghost use Rattle.plain_values.specs.inner.Stops.{StopsFor};
ghost use Rattle.aadl_lexer.specs.Tokens.{IsFault, RefusedAs, Tokens};
ghost use Rattle.aadl_parser.specs.inner.Files.{IsUnread};
ghost use Rattle.phases.specs.inner.Meets.{Meets, MeetsBut};
ghost use Rattle.phases.specs.Phases.{answers, rejects};
ghost use Rattle.fta_run.specs.Due.{first_text, other_texts, texts_of, units_of, within_limits};
ghost use Rattle.fta_run.specs.Files.{AreTokens, AreUnits, AreUnitsOf, HasTooLong, HasTooMuch, LacksTokens, LacksUnits, most_bytes, most_files, most_text, too_long, too_long_from};
ghost use Rattle.plain_values.specs.Refusal.{of_words};
ghost use Rattle.fta_run.specs.inner.Held.{AreFronts, IsFileEnd, IsReadEnd};

use aadl_lexer::tokens;
use aadl_parser::units;
use aadl_syntax::{TokenList, Unit};
use fta_outside::{FileError, Files};
use phases::Status;
use plain_values::{Answer, Code, FirstRefusal, List, Name, Place, Refusal, Word};
use std::alloc::Global;
use std::marker::Model;

/// The greatest number of files.
pub(crate) const MOST_FILES: usize = 64;

/// The greatest length of a file, in bytes.
const MOST_BYTES: usize = 4_194_304;

/// The greatest length of all files together, in bytes.
const MOST_TEXT: u64 = 16_777_216;

/// The texts of files, which are not too many, and none too long.
#[derive(Drop)]
pub struct Texts {
    texts: List<Name>,
}

impl Model for Texts {
    ghost use Rattle.std.specs.Prelude.{◌≤◌, ℕ, List as Items, length, All};
    ghost use Rattle.fta_run.specs.Files.{most_bytes, most_files};

    ghost Value = { Items (Items ℕ) };

    ghost view = { λ t. t.texts };

    ghost invariant = { λ t. (length t.texts ≤ most_files) × All (λ text. length text ≤ most_bytes) t.texts };
}

impl Texts {
    /// The texts, in order.
    pub fn items(&self) -> &[Name]
        ensures items { result.now ≡ self.now }
        ensures few { length self.now ≤ most_files }
        ensures short { All (λ text. length text ≤ most_bytes) self.now }
    {
        self.texts.items()
    }

    /// The text of the first file.
    pub fn first(&self) -> &[u8]
        ensures text { result.now ≡ first_text self.now }
        ensures short { length result.now ≤ most_bytes }
    {
        match self.texts.items().first() {
            Some(text) => text.items(),
            None => &[],
        }
    }

    /// The texts of the first files, of which there are so many.
    pub fn before(&self, count: u32) -> &[Name]
        ensures texts { result.now ≡ take count self.now }
        ensures few { length result.now ≤ most_files }
        ensures short { All (λ text. length text ≤ most_bytes) result.now }
    {
        let texts = self.texts.items();
        &texts[..(count as usize).min(texts.len())]
    }

    /// The texts of the files behind so many.
    pub fn behind(&self, count: u32) -> &[Name]
        ensures texts { result.now ≡ drop count self.now }
        ensures few { length result.now ≤ most_files }
        ensures short { All (λ text. length text ≤ most_bytes) result.now }
    {
        let texts = self.texts.items();
        &texts[(count as usize).min(texts.len())..]
    }

    /// The texts of the other files.
    pub fn others(&self) -> &[Name]
        ensures texts { result.now ≡ other_texts self.now }
        ensures few { length result.now ≤ most_files }
        ensures short { All (λ text. length text ≤ most_bytes) result.now }
    {
        match self.texts.items() {
            [_, others @ ..] => others,
            [] => &[],
        }
    }
}

/// The texts of the files, where they are not too many and not too long.
pub fn read_texts<F: Files>(alloc: Global, files: &mut F, names: &[Word]) -> Result<Texts, Status>
    ensures meets { MeetsBut (IsReadEnd names.now (F.faults files.old) (F.faults files.new)) (λ texts. texts) (texts_of (F.contents files.old) names.now) result }
    // Where too many are named, nothing is read, and that is the refusal.
    ensures unread { most_files < length names.now → files.new ≡ files.old }
    ensures many { most_files < length names.now → result ≡ Err (Status.Refused (of_words TooManyFiles)) }
{
    if names.len() > MOST_FILES {
        return Err(Status::Refused(Refusal::of_words(Code::TooManyFiles)));
    }
    let texts = read_files(alloc, files, names)?;
    check_each(texts.items())?;
    check_total(texts.items())?;
    Ok(Texts { texts })
}

/// The texts of one file with this text, where it is not too long.
pub fn texts_of_one(alloc: Global, text: Name) -> Result<Texts, Status>
    ensures { Meets (within_limits (text ∷ [])) result }
{
    let mut texts = List::new(alloc);
    texts.push(text)?;
    texts_within(texts)
}

/// These texts, where none is too long, and they are not too long together.
fn texts_within(texts: List<Name>) -> Result<Texts, Status>
    requires { length texts ≤ most_files }
    ensures { Meets (within_limits texts) result }
{
    check_each(texts.items())?;
    check_total(texts.items())?;
    Ok(Texts { texts })
}

/// What the files contain, of each one byte more than it may have at most.
pub(crate) fn read_files<F: Files>(
    alloc: Global,
    files: &mut F,
    names: &[Word],
) -> Result<List<Name>, Status>
    requires { length names.now ≤ most_files }
    ensures fronts { IfOk result (λ texts. AreFronts (F.contents files.old) names.now texts) }
    ensures few { IfOk result (λ texts. length texts ≤ most_files) }
    ensures fault { IfErr result (IsReadEnd names.now (F.faults files.old) (F.faults files.new)) }
{
    let mut texts = List::new(alloc);
    for (number, name) in names.iter().enumerate() {
        texts.push(read_file(alloc, files, number as u32, name)?)?;
    }
    Ok(texts)
}

fn read_file<F: Files>(
    alloc: Global,
    files: &mut F,
    number: u32,
    name: &Word,
) -> Result<Name, Status>
    ensures front { IfOk result (λ text. IfSome (F.contents files.old name.now) (λ whole. text ≡ take (suc most_bytes) whole)) }
    ensures fault { IfErr result (IsFileEnd number (F.faults files.old name.now) (F.faults files.new name.now)) }
    ensures kept { (other : List ℕ) → F.contents files.new other ≡ F.contents files.old other }
    ensures never_falls { (other : List ℕ) → F.faults files.old other ≤ F.faults files.new other }
{
    match files.read(alloc, name, MOST_BYTES + 1) {
        Ok(bytes) => whole_text(bytes),
        Err(FileError::Failed) => Err(Status::ReadFault(number)),
        Err(FileError::Memory) => Err(Status::Memory),
    }
}

fn whole_text(bytes: Vec<u8>) -> Result<Name, Status>
    ensures { MatchResult result (λ text. text ≡ bytes.items) (λ status. status ≡ Status.Memory) }
{
    match List::of(bytes) {
        Ok(text) => Ok(text),
        Err(_) => Err(Status::Memory),
    }
}

/// Refuses the first text that is too long.
pub(crate) fn check_each(texts: &[Name]) -> Result<(), Refusal>
    requires { length texts.now ≤ most_files }
    ensures { MatchResult result (λ _. too_long_from 0 texts.now ≡ []) (λ refusal. IsFirst (HasTooLong texts.now) refusal) }
{
    let mut first = FirstRefusal::new();
    for (file, text) in texts.iter().enumerate() {
        note_too_long(&mut first, file as u32, text.items());
    }
    first.settle()
}

fn note_too_long(first: &mut FirstRefusal, file: u32, text: &[u8])
    ensures { first.new ≡ nearer first.old (least (too_long file text.now)) }
{
    if text.len() > MOST_BYTES {
        first.note(Refusal::new(Code::FileTooLong, Place::Whole(file)));
    }
}

/// Refuses texts that are too long together.
pub(crate) fn check_total(texts: &[Name]) -> Result<(), Refusal>
    ensures { MatchResult result (λ _. sum_by length texts.now ≤ most_text) (λ refusal. HasTooMuch texts.now refusal) }
{
    let mut total: u64 = 0;
    for text in texts {
        total += text.items().len() as u64;
        if total > MOST_TEXT {
            return Err(Refusal::of_words(Code::TooMuchText));
        }
    }
    Ok(())
}

/// The units of each text: it has tokens, is not nested too deep, and has a reading.
pub fn units_of_texts(alloc: Global, texts: &[Name]) -> Result<List<List<Unit>>, Status>
    requires few { length texts.now ≤ most_files }
    requires short { All (λ text. length text ≤ most_bytes) texts.now }
    ensures { Meets (units_of texts.now) result }
{
    let lists = tokens_of_texts(alloc, texts)?;
    units_of_tokens(alloc, texts, &lists)
}

/// The tokens of each text.
fn tokens_of_texts(alloc: Global, texts: &[Name]) -> Result<List<TokenList>, Status>
    requires few { length texts.now ≤ most_files }
    requires short { All (λ text. length text ≤ most_bytes) texts.now }
    ensures { Meets (answers (AreTokens texts.now) (LacksTokens texts.now)) result }
{
    let mut lists = List::new(alloc);
    for (file, text) in texts.iter().enumerate() {
        lists.push(tokens_of_text(alloc, file as u32, text)?)?;
    }
    Ok(lists)
}

/// The tokens of one text.
fn tokens_of_text(alloc: Global, file: u32, text: &Name) -> Answer<TokenList>
    requires { length text.now ≤ most_bytes }
    ensures found { IfOk result (λ list. Tokens text.now list) }
    ensures refused { IfErr result (λ stop. RefusedAs file (IsFault text.now) stop) }
{
    tokens(alloc, file, text.items())
}

/// The units of each text, whose tokens are given.
fn units_of_tokens(
    alloc: Global,
    texts: &[Name],
    lists: &List<TokenList>,
) -> Result<List<List<Unit>>, Status>
    requires few { length texts.now ≤ most_files }
    requires short { All (λ text. length text ≤ most_bytes) texts.now }
    requires tokens { AreTokens texts.now lists.now }
    ensures { Meets (rejects (AreUnits lists.now) (LacksUnits texts.now lists.now)) result }
{
    let mut files = List::new(alloc);
    let lists = lists.items();
    for (file, text) in texts.iter().enumerate() {
        files.push(units_of_text(alloc, file as u32, text, &lists[file])?)?;
    }
    Ok(files)
}

/// The units of one text, whose tokens are given.
fn units_of_text(alloc: Global, file: u32, text: &Name, tokens: &TokenList) -> Answer<List<Unit>>
    requires { length text.now ≤ most_bytes }
    ensures ok { IfOk result (λ found. AreUnitsOf file tokens.now found) }
    ensures err { IfErr result (StopsFor (IsUnread file tokens.now (length text.now))) }
{
    units(alloc, file, tokens, text.items().len() as u32)
}
