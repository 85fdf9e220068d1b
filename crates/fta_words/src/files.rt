ghost use Rattle.std.specs.Prelude.{◌≡◌, ◌≤◌, ◌++◌, IfOk, OnOk, drop, [], length, take, slice_get, unwrap_or};
ghost use Rattle.fta_words.specs.Words.{before_options, before_to, behind_to, file_words, files_in, is_option, is_to, shape_named, without_to};
ghost use Rattle.fta_words.specs.inner.Words.{all_names};

use crate::kind::Shape;
use crate::table::{kind_named, shape_of};
use plain_values::{List, Mem, Word, copied, is_same};
use std::alloc::Global;

/// Words that name files, as they stand: perhaps in two parts, since `to` stands between older files and newer ones.
#[derive(Clone, Copy)]
pub struct FileWords<'a> {
    /// The first of them.
    before: &'a [Word],
    /// The others.
    behind: &'a [Word],
}

impl<'a> FileWords<'a> {
    /// Words that stand together.
    pub fn of(words: &'a [Word]) -> FileWords<'a>
        ensures { all_names result ≡ words.now }
    {
        FileWords {
            before: words,
            behind: &[],
        }
    }

    /// The word of a number, counted from 0; an empty one where there is none.
    pub fn word(&self, number: u32) -> &'a [u8]
        ensures { result.now ≡ unwrap_or (slice_get (all_names self.now) number) [] }
    {
        let number = number as usize;
        if number < self.before.len() {
            return self.before[number].items();
        }
        match self.behind.get(number - self.before.len()) {
            Some(word) => word.items(),
            None => &[],
        }
    }
}

/// The words that name files: by the shape of the first word's command, up to the first that begins with `-`. Behind a name that is no
/// command's two words are taken for a root and a target.
pub fn file_words(words: &[Word]) -> FileWords<'_>
    ensures { all_names result ≡ file_words words.now }
{
    let [name, ..] = words else {
        return FileWords::of(words);
    };
    let plain = before_options(words);
    files_in(shape_named(name.items()), plain)
}

/// The shape of the words behind a name.
fn shape_named(name: &[u8]) -> Shape
    ensures { result ≡ shape_named name.now }
{
    match kind_named(name) {
        Some(kind) => shape_of(kind),
        None => Shape::Target,
    }
}

/// The words that name files, of plain words of a shape with the name before them.
fn files_in(shape: Shape, words: &[Word]) -> FileWords<'_>
    ensures { all_names result ≡ files_in shape words.now }
{
    match shape {
        Shape::Model | Shape::Requirements | Shape::Number | Shape::Code => {
            FileWords::of(behind(words, 2))
        }
        Shape::Compared => parted(behind(words, 3)),
        Shape::File => FileWords::of(behind(words, 1)),
        Shape::Place => FileWords::of(second_of(words)),
        Shape::Target | Shape::Derivation | Shape::Topic | Shape::Alone => {
            FileWords::of(behind(words, 3))
        }
    }
}

/// The words without the first `to`.
fn parted(words: &[Word]) -> FileWords<'_>
    ensures { all_names result ≡ without_to words.now }
{
    FileWords {
        before: before_to(words),
        behind: behind_to(words),
    }
}

/// Copies of the words without the first `to`.
pub(crate) fn without_to(alloc: Global, words: &[Word]) -> Mem<List<Word>>
    ensures { IfOk result (λ copies. copies ≡ without_to words.now) }
{
    let mut copies = copies(alloc, before_to(words))?;
    add_copies(alloc, &mut copies, behind_to(words))?;
    Ok(copies)
}

/// Copies of words.
pub(crate) fn copies(alloc: Global, words: &[Word]) -> Mem<List<Word>>
    ensures { IfOk result (λ copies. copies ≡ words.now) }
{
    let mut copies = List::new(alloc);
    add_copies(alloc, &mut copies, words)?;
    Ok(copies)
}

/// Adds copies of words.
fn add_copies(alloc: Global, copies: &mut List<Word>, words: &[Word]) -> Mem<()>
    ensures { OnOk result (copies.new ≡ copies.old ++ words.now) }
{
    for word in words {
        copies.push(copied(alloc, word.items())?)?;
    }
    Ok(())
}

/// The words before the first `to`, or all where there is none.
pub(crate) fn before_to(words: &[Word]) -> &[Word]
    ensures { result.now ≡ before_to words.now }
{
    for (number, word) in words.iter().enumerate() {
        if is_to(word.items()) {
            return &words[..number];
        }
    }
    words
}

/// The words behind the first `to`; none where there is none.
pub(crate) fn behind_to(words: &[Word]) -> &[Word]
    ensures { result.now ≡ behind_to words.now }
{
    for (number, word) in words.iter().enumerate() {
        if is_to(word.items()) {
            return &words[number + 1..];
        }
    }
    &[]
}

/// Whether a word is `to`.
fn is_to(word: &[u8]) -> bool
    ensures { result ≡ is_to word.now }
{
    is_same(word, b"to")
}

/// The words behind so many.
fn behind(words: &[Word], count: usize) -> &[Word]
    ensures { result.now ≡ drop count words.now }
{
    if count < words.len() {
        &words[count..]
    } else {
        &[]
    }
}
/// The second of some words, as a list.
fn second_of(words: &[Word]) -> &[Word]
    ensures { result.now ≡ take 1 (drop 1 words.now) }
{
    if words.len() < 2 {
        return &[];
    }
    &words[1..2]
}

/// The words before the first that begins with `-`.
pub(crate) fn before_options(words: &[Word]) -> &[Word]
    ensures value { result.now ≡ before_options words.now }
    ensures front { length result.now ≤ length words.now }
{
    for (number, word) in words.iter().enumerate() {
        if is_option(word.items()) {
            return &words[..number];
        }
    }
    words
}

/// Whether a word begins with `-`.
pub fn is_option(word: &[u8]) -> bool
    ensures { result ≡ is_option word.now }
{
    match word {
        [] => false,
        [first, ..] => *first == b'-',
    }
}
