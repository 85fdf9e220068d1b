//! The words of a box.

ghost use Rattle.std.specs.Prelude.{◌≡◌, ◌<◌, ◌++◌, IfSome, OnOk, length, option_copied};
ghost use Rattle.dot_writer.specs.Words.{behind, happening, part_name, place_of, spoken, typed_words, until, verb_of, words_of};

use crate::shown::push_shown;
use plain_values::{Mem, is_same};

/// Adds the words of a box: the part in bold, and below it what happens. A name without a slash stands as it is.
pub(crate) fn push_words(line: &mut Vec<u8>, name: &[u8]) -> Mem<()>
    ensures { OnOk result (line.new.items ≡ line.old.items ++ words_of name.now) }
{
    match behind(name, b'/') {
        Some(what) => {
            line.extend_from_slice(b"<b>")?;
            push_shown(line, part_name(until(name, b'/')))?;
            line.extend_from_slice(b" </b><br/>")?;
            push_happening(line, until(what, b'@'))
        }
        None => push_shown(line, name),
    }
}

/// Adds what happens.
fn push_happening(line: &mut Vec<u8>, text: &[u8]) -> Mem<()>
    ensures { OnOk result (line.new.items ≡ line.old.items ++ happening text.now) }
{
    push_spoken(line, verb_of(until(text, b':')), behind(text, b':'), text)
}

/// Adds a verb and what it is said of, where both are there, and else the text itself.
fn push_spoken(
    line: &mut Vec<u8>,
    verb: Option<&'static [u8]>,
    rest: Option<&[u8]>,
    text: &[u8],
) -> Mem<()>
    ensures { OnOk result (line.new.items ≡ line.old.items ++ spoken (option_copied verb.entry) (option_copied rest.entry) text.now) }
{
    let Some(verb) = verb else {
        return push_typed(line, text);
    };
    let Some(rest) = rest else {
        return push_typed(line, text);
    };
    line.extend_from_slice(verb)?;
    push_typed(line, rest)
}

/// What is said of a state, of what leaves, of what arrives and of a source.
fn verb_of(word: &[u8]) -> Option<&'static [u8]>
    ensures { option_copied result ≡ verb_of word.now }
{
    if is_same(word, b"state") {
        return Some(b"is ");
    }
    if is_same(word, b"out") {
        return Some(b"sends ");
    }
    if is_same(word, b"in") {
        return Some(b"gets ");
    }
    if is_same(word, b"source") {
        return Some(b"source ");
    }
    None
}

/// Adds a name, and its type on a line of its own.
fn push_typed(line: &mut Vec<u8>, text: &[u8]) -> Mem<()>
    ensures { OnOk result (line.new.items ≡ line.old.items ++ typed_words text.now) }
{
    push_shown(line, until(text, b'{'))?;
    match behind(text, b'{') {
        Some(kind) => {
            line.extend_from_slice(b"<br/>")?;
            push_shown(line, until(kind, b'}'))
        }
        None => Ok(()),
    }
}

/// How a component is called: by its path without `root.`, and the root itself `system`.
fn part_name(path: &[u8]) -> &[u8]
    ensures { result.now ≡ part_name path.now }
{
    if !is_same(until(path, b'.'), b"root") {
        return path;
    }
    match behind(path, b'.') {
        Some(rest) => rest,
        None => b"system",
    }
}

/// A text up to the first of a byte, and all of it where there is none.
pub(crate) fn until(text: &[u8], byte: u8) -> &[u8]
    ensures { result.now ≡ until byte text.now }
{
    match place_of(text, byte) {
        Some(place) => &text[..place],
        None => text,
    }
}

/// A text behind the first of a byte, where there is one.
pub(crate) fn behind(text: &[u8], byte: u8) -> Option<&[u8]>
    ensures { option_copied result ≡ behind byte text.now }
{
    let place = place_of(text, byte)?;
    Some(&text[place + 1..])
}

/// The place of the first of a byte.
fn place_of(text: &[u8], byte: u8) -> Option<usize>
    ensures place { result ≡ place_of byte text.now }
    ensures inside { IfSome result (λ place. place < length text.now) }
{
    text.iter().position(|other| *other == byte)
}
