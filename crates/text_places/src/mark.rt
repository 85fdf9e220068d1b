//! How far a text is read, byte by byte.

ghost use Rattle.std.specs.Prelude.{◌≡◌, ◌<◌, ◌≤◌, ◌+◌, cond, length};
ghost use Rattle.std.specs.Io.BufRead.{ends_with_byte};
ghost use Rattle.text_places.specs.Places.{begins_character, is_feed};
ghost use Rattle.text_places.specs.inner.Marks.{counted, further, further_of, passed, start};

use crate::columns::begins_character;

/// How far a text is read: how many bytes, how many line feeds, and how many characters begin behind the last of these.
#[derive(Clone, Copy)]
pub(crate) struct Mark {
    pub(crate) at: usize,
    pub(crate) feeds: usize,
    pub(crate) characters: usize,
}

/// Where each text begins.
pub(crate) fn start() -> Mark
    ensures { result ≡ start }
{
    Mark {
        at: 0,
        feeds: 0,
        characters: 0,
    }
}

/// The mark behind one more byte.
pub(crate) fn passed(mark: Mark, byte: u8) -> Mark
    requires at { mark.at < 18446744073709551615 }
    requires feeds { mark.feeds ≤ mark.at }
    requires characters { mark.characters ≤ mark.at }
    ensures { result ≡ passed mark byte }
{
    Mark {
        at: mark.at + 1,
        feeds: mark.feeds + counted(byte == b'\n'),
        characters: characters_behind(mark.characters, byte),
    }
}

/// How many characters begin behind the last line feed, with one more byte.
fn characters_behind(characters: usize, byte: u8) -> usize
    requires { characters < 18446744073709551615 }
    ensures { result ≡ cond (is_feed byte) 0 (characters + counted (begins_character byte)) }
{
    if byte == b'\n' {
        return 0;
    }
    characters + counted(begins_character(byte))
}

/// One for yes.
fn counted(yes: bool) -> usize
    ensures value { result ≡ counted yes }
    ensures most { result ≤ 1 }
{
    if yes { 1 } else { 0 }
}

/// How many characters a byte of a text adds to those before it in its line.
pub(crate) fn further(text: &[u8], byte: usize) -> usize
    requires { byte ≤ length text.now }
    ensures value { result ≡ further text.now byte }
    ensures most { result ≤ 1 }
{
    match text.get(byte) {
        Some(own) => further_of(*own, ends_with_return(&text[..byte])),
        None => 1,
    }
}

/// The same of this byte, where a carriage return stands right before it, or not.
fn further_of(byte: u8, behind: bool) -> usize
    ensures value { result ≡ further_of byte behind }
    ensures most { result ≤ 1 }
{
    if byte == b'\n' {
        return counted(!behind);
    }
    counted(begins_character(byte))
}

/// Whether a text ends with a carriage return.
fn ends_with_return(text: &[u8]) -> bool
    ensures { result ≡ ends_with_byte 13 text.now }
{
    match text {
        [.., last] if *last == b'\r' => true,
        _ => false,
    }
}
