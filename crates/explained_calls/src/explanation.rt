//! What is said of how a call ended.

ghost use Rattle.std.specs.Prelude.{◌≡◌, ◌++◌, IfOk, codes};
ghost use Rattle.fta_words.specs.inner.Shown.{request_shown};
ghost use Rattle.explained_calls.specs.inner.Texts.{TellsMore, TellsRefusal, code_name, constant_words, place_in, token_of, word_line, word_text};
ghost use Rattle.explained_calls.specs.inner.Unplaced.{places_text};
ghost use Rattle.help_texts.specs.Texts.{explain_text};
ghost use Rattle.help_texts.specs.inner.Usage.{usage_text};

use crate::near::{near_word, text_at, token_of, word_at};
use crate::unplaced::push_places;
use event_lines::file_word;
use fta_run::{ReadFiles, Status};
use fta_words::{Options, Request};
use help_texts::{before_sign, explain_text, push_usage};
use plain_values::{Code, Mem, Name, Place, Refusal, Word, fold};
use std::alloc::{AllocError, Global};
use text_places::place_text;

/// What is said of how a call ended, behind the line of the status, where the reports have these names.
pub(crate) fn more_of(
    alloc: Global,
    names: &[Name],
    call: &[Word],
    read: &ReadFiles,
    its_end: &Status,
) -> Mem<Vec<u8>>
    ensures { IfOk result (λ text. TellsMore names.now call.now read.now.names read.now.texts its_end.now text.items) }
{
    match its_end {
        Status::Usage => usage_of(alloc, call),
        Status::Refused(refusal) => refused(alloc, names, call, read, refusal),
        Status::Constant(always) => constant_words(alloc, *always),
        Status::StaleToken { .. } => text_on(alloc, b"k2"),
        Status::Unrated(_) => text_on(alloc, b"r1"),
        _ => Vec::from_slice(alloc, b"not refused\n"),
    }
}

/// What is said of words that give no request.
fn usage_of(alloc: Global, call: &[Word]) -> Mem<Vec<u8>>
    ensures { IfOk result (λ text. text.items ≡ places_text call.now ++ usage_text call.now) }
{
    let mut text = Vec::new(alloc);
    push_places(alloc, &mut text, call)?;
    push_usage(alloc, &mut text, call)?;
    Ok(text)
}

/// What is said of a constant target.
fn constant_words(alloc: Global, always: bool) -> Mem<Vec<u8>>
    ensures { IfOk result (λ text. text.items ≡ constant_words always) }
{
    if always {
        return Vec::from_slice(
            alloc,
            b"\nThe target holds without any event: no set of events is needed, and it has no tree.\n",
        );
    }
    Vec::from_slice(
        alloc,
        b"\nThe target does not hold even under all events: no set of events brings it about, and it has no tree.\n",
    )
}

/// What is said of a status with a code: the text on that.
fn text_on(alloc: Global, code: &[u8]) -> Mem<Vec<u8>>
    ensures { IfOk result (λ text. text.items ≡ codes "\n" ++ explain_text code.now) }
{
    let mut text = Vec::from_slice(alloc, b"\n")?;
    text.extend_from_slice(explain_text(code))?;
    Ok(text)
}

/// What is said of a refusal of a call.
fn refused(
    alloc: Global,
    names: &[Name],
    call: &[Word],
    read: &ReadFiles,
    refusal: &Refusal,
) -> Mem<Vec<u8>>
    ensures { IfOk result (λ text. TellsRefusal names.now call.now read.now.names read.now.texts refusal.now text.items) }
{
    let Ok(asked) = Request::read(alloc, call, names) else {
        return Err(AllocError);
    };
    let texts = read.texts.items();
    let near = near_word(alloc, call, &asked, texts, refusal)?;
    let name = code_name(alloc, refusal.code)?;
    let mut text = place_in(
        alloc,
        call,
        &asked.options,
        read.names.items(),
        texts,
        refusal,
    )?;
    text.extend_from_slice(near.as_slice())?;
    text.push(b'\n')?;
    text.extend_from_slice(explain_text(name.items()))?;
    Ok(text)
}

/// The name of a code, in lower case.
fn code_name(alloc: Global, code: Code) -> Mem<Name>
    ensures { IfOk result (λ name. name ≡ code_name code) }
{
    fold(alloc, before_sign(b' ', code.text().as_bytes()))
}

/// Where a refusal of a call is: the word that it is about, or the line and the column of its byte.
fn place_in(
    alloc: Global,
    call: &[Word],
    options: &Options,
    files: &[Word],
    texts: &[Name],
    refusal: &Refusal,
) -> Mem<Vec<u8>>
    ensures { IfOk result (λ text. text.items ≡ place_in call.now options.now files.now texts.now refusal.now.code refusal.now.place) }
{
    match refusal.place {
        Place::Words => word_text(alloc, call, options, refusal.code),
        Place::Whole(_) => Ok(Vec::new(alloc)),
        Place::At { file, at } => place_text(
            alloc,
            file_word(files, file),
            text_at(texts, file),
            at,
        ),
    }
}

/// The line of the word of a call that a refusal of the words is about.
fn word_text(alloc: Global, call: &[Word], options: &Options, code: Code) -> Mem<Vec<u8>>
    ensures { IfOk result (λ text. text.items ≡ word_text call.now options.now code) }
{
    match code {
        Code::UnknownPackage => word_line(alloc, b"ROOT", word_at(call, 1)),
        Code::UnknownClassifier => word_line(alloc, b"ROOT", word_at(call, 1)),
        Code::UnknownTarget => word_line(alloc, b"TARGET", word_at(call, 2)),
        Code::BadToken => token_line(alloc, options),
        Code::NotCutSet => token_line(alloc, options),
        _ => Ok(Vec::new(alloc)),
    }
}

/// The line of the text of a set.
fn token_line(alloc: Global, options: &Options) -> Mem<Vec<u8>>
    ensures { IfOk result (λ text. text.items ≡ word_line (codes "TOKEN") (token_of options.now)) }
{
    let token = token_of(alloc, options)?;
    word_line(alloc, b"TOKEN", token.as_slice())
}

/// The line of a word.
fn word_line(alloc: Global, name: &[u8], word: &[u8]) -> Mem<Vec<u8>>
    ensures { IfOk result (λ text. text.items ≡ word_line name.now word.now) }
{
    let mut text = Vec::from_slice(alloc, name)?;
    text.push(b' ')?;
    text.extend_from_slice(word)?;
    text.push(b'\n')?;
    Ok(text)
}
