ghost use Rattle.std.specs.Prelude.{◌≡◌, true, ◌↔◌, ◌≤◌, ◌++◌, ℕ, length, List, IsTrue, MatchOption, ◌∷◌};
ghost use Rattle.std.specs.List.{AllByRecursion};
ghost use Rattle.fta_words.specs.Table.{flags_of, required_of, valued_of};
ghost use Rattle.fta_words.specs.Words.{Given, is_drawn_or_listed, is_fit, is_given, is_listed, is_shown, is_timed, is_table_or_sheet, is_told_or_shown, is_whole_or_to_order, option_words};
ghost use Rattle.fta_words.specs.inner.Reading.{Allowed, HaveOptions, NoneStandsFirst, StandsFirst};

use crate::kind::Kind;
use crate::plain::is_plain;
use crate::table::{has_flag, has_valued, required_of};
use crate::text::split_once;
use plain_values::{Word, is_same};

/// Whether the words are options of the command, none of which stands twice.
pub(crate) fn are_options(kind: Kind, words: &[Word]) -> bool
    ensures { IsTrue result ↔ HaveOptions (flags_of kind) (valued_of kind) words.now }
{
    if words.is_empty() {
        return true;
    }
    let Some(next) = next_option(kind, words) else {
        return false;
    };
    !is_given(kind, next.rest, next.name) && are_options(kind, next.rest)
}

/// Whether all options that the command requires are given in words that are options.
pub(crate) fn are_complete(kind: Kind, words: &[Word]) -> bool
    ensures { (given : List Given) → words.now ≡ option_words given → Allowed (flags_of kind) (valued_of kind) given → IsTrue result ↔ AllByRecursion (λ name. is_given name given ≡ true) (required_of kind) }
{
    are_given(kind, words, required_of(kind))
}

/// Whether options of the command that are given have a meaning together: a tree that is read from a file has no sets where it is
/// written in a format, and no gates are chosen where it is not, and neither where its probability is asked for; the importance of events
/// is by all sets, and a sheet has all effects.
pub(crate) fn are_fit(kind: Kind, words: &[Word]) -> bool
    ensures { (given : List Given) → words.now ≡ option_words given → Allowed (flags_of kind) (valued_of kind) given → IsTrue result ↔ (is_fit kind given ≡ true) }
{
    match kind {
        Kind::Galileo => is_told_or_shown(kind, words),
        Kind::Probability => is_whole_or_to_order(kind, words),
        Kind::Fmea => is_table_or_sheet(kind, words),
        _ => true,
    }
}

/// Whether options of a tree that is read from a file have a meaning together: those of a probability where one is asked for, and else
/// those of a listing or of a picture.
fn is_told_or_shown(kind: Kind, words: &[Word]) -> bool
    ensures { (given : List Given) → words.now ≡ option_words given → Allowed (flags_of kind) (valued_of kind) given → result ≡ is_told_or_shown given }
{
    if is_given(kind, words, b"probability") {
        !is_shown(kind, words) && is_whole_or_to_order(kind, words)
    } else {
        !is_timed(kind, words) && is_drawn_or_listed(kind, words)
    }
}

/// Whether an option of a page of sets, or of a picture, is given.
fn is_shown(kind: Kind, words: &[Word]) -> bool
    ensures { (given : List Given) → words.now ≡ option_words given → Allowed (flags_of kind) (valued_of kind) given → result ≡ is_shown given }
{
    is_given(kind, words, b"paths")
        || is_given(kind, words, b"limit")
        || is_given(kind, words, b"format")
        || is_given(kind, words, b"gates")
}

/// Whether an option of a probability is given.
fn is_timed(kind: Kind, words: &[Word]) -> bool
    ensures { (given : List Given) → words.now ≡ option_words given → Allowed (flags_of kind) (valued_of kind) given → result ≡ is_timed given }
{
    is_given(kind, words, b"hours") || is_given(kind, words, b"events")
}

/// Whether no option of a listing is given where a format is, and no gates where none is.
fn is_drawn_or_listed(kind: Kind, words: &[Word]) -> bool
    ensures { (given : List Given) → words.now ≡ option_words given → Allowed (flags_of kind) (valued_of kind) given → result ≡ is_drawn_or_listed given }
{
    if is_given(kind, words, b"format") {
        !is_listed(kind, words)
    } else {
        !is_given(kind, words, b"gates")
    }
}

/// Whether not both the importance of events and a greatest number of events of a set are given.
fn is_whole_or_to_order(kind: Kind, words: &[Word]) -> bool
    ensures { (given : List Given) → words.now ≡ option_words given → Allowed (flags_of kind) (valued_of kind) given → result ≡ is_whole_or_to_order given }
{
    !(is_given(kind, words, b"events") && is_given(kind, words, b"max-order"))
}

/// Whether not both a table of all effects and a sheet are asked for.
fn is_table_or_sheet(kind: Kind, words: &[Word]) -> bool
    ensures { (given : List Given) → words.now ≡ option_words given → Allowed (flags_of kind) (valued_of kind) given → result ≡ is_table_or_sheet given }
{
    !(is_given(kind, words, b"all") && is_given(kind, words, b"sheet"))
}

/// Whether an option of a listing is given.
fn is_listed(kind: Kind, words: &[Word]) -> bool
    ensures { (given : List Given) → words.now ≡ option_words given → Allowed (flags_of kind) (valued_of kind) given → result ≡ is_listed given }
{
    is_given(kind, words, b"paths")
        || is_given(kind, words, b"limit")
        || is_given(kind, words, b"max-order")
}

/// Whether all options of these names are given in words that are options.
fn are_given(kind: Kind, words: &[Word], names: &[&[u8]]) -> bool
    ensures { (given : List Given) → words.now ≡ option_words given → Allowed (flags_of kind) (valued_of kind) given → IsTrue result ↔ AllByRecursion (λ name. is_given name.now given ≡ true) names.now }
{
    for name in names {
        if !is_given(kind, words, name) {
            return false;
        }
    }
    true
}

/// Whether an option of this name is given in words that are options.
fn is_given(kind: Kind, words: &[Word], name: &[u8]) -> bool
    ensures { (given : List Given) → words.now ≡ option_words given → Allowed (flags_of kind) (valued_of kind) given → result ≡ is_given name.now given }
{
    let mut rest = words;
    while let Some(next) = next_option(kind, rest) {
        if is_same(name, next.name) {
            return true;
        }
        rest = next.rest;
    }
    false
}

/// An option as it stands, and the words behind it.
#[derive(Drop)]
struct Next<'a> {
    name: &'a [u8],
    rest: &'a [Word],
}

/// The option that stands first.
fn next_option<'a>(kind: Kind, words: &'a [Word]) -> Option<Next<'a>>
    ensures { MatchOption result (NoneStandsFirst (flags_of kind) (valued_of kind) words.now) (λ next. StandsFirst (flags_of kind) (valued_of kind) words.now next.name.now next.rest.now) }
{
    let Some((word, rest)) = words.split_first() else {
        return None;
    };
    let text = behind_dashes(word.items())?;
    let (name, value) = split_once(text, b"=");
    match value {
        Some(value) => value_attached(kind, name, value, rest),
        None => value_apart(kind, name, rest),
    }
}

/// What follows `--` in a word that begins with it.
fn behind_dashes(word: &[u8]) -> Option<&[u8]>
    ensures { MatchOption result ((text : List ℕ) → word.now ≡ 45 ∷ 45 ∷ text → ⊥) (λ text. word.now ≡ 45 ∷ 45 ∷ text.now) }
{
    match word {
        [first, second, text @ ..] if *first == b'-' && *second == b'-' => Some(text),
        _ => None,
    }
}

/// The option whose value stands behind a `=` in its own word.
fn value_attached<'a>(
    kind: Kind,
    name: &'a [u8],
    value: &'a [u8],
    rest: &'a [Word],
) -> Option<Next<'a>>
    requires { (front back : List ℕ) → name.now ++ (61 ∷ value.now) ≡ front ++ (61 ∷ back) → length name.now ≤ length front }
    ensures { MatchOption result (NoneStandsFirst (flags_of kind) (valued_of kind) ((45 ∷ 45 ∷ name.now ++ (61 ∷ value.now)) ∷ rest.now)) (λ next. StandsFirst (flags_of kind) (valued_of kind) ((45 ∷ 45 ∷ name.now ++ (61 ∷ value.now)) ∷ rest.now) next.name.now next.rest.now) }
{
    if has_valued(kind, name) && is_plain(value) {
        return Some(Next { name, rest });
    }
    None
}

/// The option whose word is its name: a flag, or one whose value is the next word.
fn value_apart<'a>(kind: Kind, name: &'a [u8], words: &'a [Word]) -> Option<Next<'a>>
    requires { (front back : List ℕ) → name.now ≡ front ++ (61 ∷ back) → ⊥ }
    ensures { MatchOption result (NoneStandsFirst (flags_of kind) (valued_of kind) ((45 ∷ 45 ∷ name.now) ∷ words.now)) (λ next. StandsFirst (flags_of kind) (valued_of kind) ((45 ∷ 45 ∷ name.now) ∷ words.now) next.name.now next.rest.now) }
{
    if has_flag(kind, name) {
        return Some(Next { name, rest: words });
    }
    let Some((value, rest)) = words.split_first() else {
        return None;
    };
    if has_valued(kind, name) && is_plain(value.items()) {
        return Some(Next { name, rest });
    }
    None
}
