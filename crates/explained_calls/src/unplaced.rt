//! Which words of a call that gives no request have no place in it.

ghost use Rattle.std.specs.Prelude.{◌≡◌, ◌++◌, Some, OnOk, codes};
ghost use Rattle.near_names.specs.inner.Near.{near_line};
ghost use Rattle.fta_words.specs.Table.{shape_of};
ghost use Rattle.help_texts.specs.inner.Usage.{name_in};
ghost use Rattle.explained_calls.specs.inner.Unplaced.{has_dashes, has_no_value, has_sign, is_full, is_known, is_written, known_text, no_place, one_less, option_place, places_of, places_text, room_behind, room_of, stands_again, topic_of, topic_text, unplaced, wants_value, word_place};

use fta_words::{Kind, flags_of, is_among, is_option, kind_named, valued_of};
use help_texts::{name_in, push_usage};
use plain_values::{Mem, Word, is_same};
use std::alloc::Global;

/// Adds which words of a call that gives no request have no place in it.
pub(crate) fn push_places(alloc: Global, text: &mut Vec<u8>, call: &[Word]) -> Mem<()>
    ensures { OnOk result (text.new.items ≡ text.old.items ++ places_text call.now) }
{
    let Some((name, words)) = call.split_first() else {
        return Ok(());
    };
    match kind_named(name.items()) {
        None => Ok(()),
        Some(kind) => push_places_of(alloc, text, kind, words),
    }
}

/// Adds which words behind the name of a command have no place.
fn push_places_of(alloc: Global, text: &mut Vec<u8>, kind: Kind, words: &[Word]) -> Mem<()>
    ensures { OnOk result (text.new.items ≡ text.old.items ++ places_of (Some kind) words.now) }
{
    push_topic(alloc, text, kind, words)?;
    push_unplaced(text, kind, room_of(kind), words)
}

/// Adds that the first word behind `help` is no command.
fn push_topic(alloc: Global, text: &mut Vec<u8>, kind: Kind, words: &[Word]) -> Mem<()>
    ensures { OnOk result (text.new.items ≡ text.old.items ++ topic_of kind words.now) }
{
    match kind {
        Kind::Help => push_topic_text(alloc, text, words),
        _ => Ok(()),
    }
}

/// Adds that the first of some words is no command, and the nearest ones.
fn push_topic_text(alloc: Global, text: &mut Vec<u8>, words: &[Word]) -> Mem<()>
    ensures { OnOk result (text.new.items ≡ text.old.items ++ topic_text words.now) }
{
    let Some((word, _)) = words.split_first() else {
        return Ok(());
    };
    if is_option(word.items()) || kind_named(word.items()).is_some() {
        return Ok(());
    }
    push_usage(alloc, text, words)
}

/// How many words that begin with no `-` may stand behind the name of a command; none where there is no bound.
fn room_of(kind: Kind) -> Option<u32>
    ensures { result ≡ room_of (shape_of kind) }
{
    match kind {
        Kind::Check | Kind::Cuts | Kind::Tree | Kind::Fmea | Kind::Report => None,
        Kind::Paths | Kind::Why | Kind::Confirm | Kind::Targets | Kind::Events => None,
        Kind::Review | Kind::Manifest | Kind::Refusals => None,
        Kind::Probability | Kind::Require | Kind::Compare | Kind::Explain => None,
        Kind::Make | Kind::Galileo | Kind::Help => Some(1),
        Kind::Place => Some(2),
        Kind::Version => Some(0),
    }
}

/// Adds which of some words have no place, where so many that begin with no `-` may stand next.
fn push_unplaced(text: &mut Vec<u8>, kind: Kind, room: Option<u32>, words: &[Word]) -> Mem<()>
    ensures { OnOk result (text.new.items ≡ text.old.items ++ unplaced kind room words.now) }
{
    let mut left = room;
    let mut rest = words;
    while let Some((word, behind)) = rest.split_first() {
        push_word(text, kind, left, word.items(), behind)?;
        left = room_behind(kind, left, word.items());
        rest = behind;
    }
    Ok(())
}

/// Adds that a word has no place, with these behind it.
fn push_word(
    text: &mut Vec<u8>,
    kind: Kind,
    room: Option<u32>,
    word: &[u8],
    behind: &[Word],
) -> Mem<()>
    ensures { OnOk result (text.new.items ≡ text.old.items ++ word_place kind room word.now behind.now) }
{
    if is_option(word) {
        return push_option(text, kind, word, behind);
    }
    if is_full(room) {
        return push_no_place(text, word);
    }
    Ok(())
}

/// Whether no more words may stand.
fn is_full(room: Option<u32>) -> bool
    ensures { result ≡ is_full room }
{
    match room {
        None => false,
        Some(room) => room == 0,
    }
}

/// How many words that begin with no `-` may stand behind a word.
fn room_behind(kind: Kind, room: Option<u32>, word: &[u8]) -> Option<u32>
    ensures { result ≡ room_behind kind room word.now }
{
    if is_option(word) {
        return if wants_value(kind, word) {
            Some(1)
        } else {
            Some(0)
        };
    }
    one_less(room)
}

/// One word less.
fn one_less(room: Option<u32>) -> Option<u32>
    ensures { result ≡ one_less room }
{
    match room {
        None => None,
        Some(room) => Some(room.saturating_sub(1)),
    }
}

/// Adds what is said of a word that begins with `-`.
fn push_option(text: &mut Vec<u8>, kind: Kind, word: &[u8], behind: &[Word]) -> Mem<()>
    ensures { OnOk result (text.new.items ≡ text.old.items ++ option_place kind word.now behind.now) }
{
    if is_known(kind, name_in(word)) {
        push_known(text, kind, word, behind)
    } else {
        Ok(())
    }
}

/// Adds what is said of a word that has the name of an option.
fn push_known(text: &mut Vec<u8>, kind: Kind, word: &[u8], behind: &[Word]) -> Mem<()>
    ensures { OnOk result (text.new.items ≡ text.old.items ++ known_text kind word.now behind.now) }
{
    if !is_written(kind, word) {
        return push_other(text, word);
    }
    if stands_again(word, behind) {
        return push_no_place(text, word);
    }
    if wants_value(kind, word) && has_no_value(behind) {
        return push_no_value(text, word);
    }
    Ok(())
}

/// Adds that a word has no place, and the option that it names.
fn push_other(text: &mut Vec<u8>, word: &[u8]) -> Mem<()>
    ensures { OnOk result (text.new.items ≡ text.old.items ++ (no_place word.now ++ near_line (codes "--") (name_in word.now))) }
{
    push_no_place(text, word)?;
    push_option_line(text, name_in(word))
}

/// Adds the line of an option.
fn push_option_line(text: &mut Vec<u8>, name: &[u8]) -> Mem<()>
    ensures { OnOk result (text.new.items ≡ text.old.items ++ near_line (codes "--") name.now) }
{
    text.extend_from_slice(b"near --")?;
    text.extend_from_slice(name)?;
    text.push(b'\n')?;
    Ok(())
}

/// Adds that a word has no place.
fn push_no_place(text: &mut Vec<u8>, word: &[u8]) -> Mem<()>
    ensures { OnOk result (text.new.items ≡ text.old.items ++ no_place word.now) }
{
    text.extend_from_slice(b"no place ")?;
    text.extend_from_slice(word)?;
    text.push(b'\n')?;
    Ok(())
}

/// Adds that an option has no value.
fn push_no_value(text: &mut Vec<u8>, word: &[u8]) -> Mem<()>
    ensures { OnOk result (text.new.items ≡ text.old.items ++ (codes "no value " ++ (word.now ++ codes "\n"))) }
{
    text.extend_from_slice(b"no value ")?;
    text.extend_from_slice(word)?;
    text.push(b'\n')?;
    Ok(())
}

/// Whether a command has an option of this name.
fn is_known(kind: Kind, name: &[u8]) -> bool
    ensures { result ≡ is_known kind name.now }
{
    is_among(flags_of(kind), name) || is_among(valued_of(kind), name)
}

/// Whether a word that has the name of an option is written as one.
fn is_written(kind: Kind, word: &[u8]) -> bool
    ensures { result ≡ is_written kind word.now }
{
    has_dashes(word) && (is_among(valued_of(kind), name_in(word)) || !has_sign(b'=', word))
}

/// Whether the next word is the value of a word that begins with `-`.
fn wants_value(kind: Kind, word: &[u8]) -> bool
    ensures { result ≡ wants_value kind word.now }
{
    !(has_sign(b'=', word) || is_among(flags_of(kind), name_in(word)))
}

/// Whether an option of the same name stands among some words.
fn stands_again(word: &[u8], words: &[Word]) -> bool
    ensures { result ≡ stands_again word.now words.now }
{
    let name = name_in(word);
    words.iter().any(|other| is_option(other.items()) && is_same(name_in(other.items()), name))
}

/// Whether no value stands first.
fn has_no_value(words: &[Word]) -> bool
    ensures { result ≡ has_no_value words.now }
{
    match words.split_first() {
        None => true,
        Some((word, _)) => is_option(word.items()),
    }
}

/// Whether a word begins with `--`.
fn has_dashes(word: &[u8]) -> bool
    ensures { result ≡ has_dashes word.now }
{
    match word {
        [first, second, ..] => *first == b'-' && *second == b'-',
        _ => false,
    }
}

/// Whether a text has a byte that is this sign.
pub(crate) fn has_sign(sign: u8, text: &[u8]) -> bool
    ensures { result ≡ has_sign sign text.now }
{
    text.iter().any(|byte| *byte == sign)
}
