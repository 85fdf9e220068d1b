//! How a tree is read and written, as options say it.

ghost use Rattle.std.specs.Prelude.{◌≡◌, List, ℕ, IfOk, IfSome, Some, map, option_map, true};
ghost use Rattle.clap.specs.Words.{found_of, rows_of};
ghost use Rattle.fta_words.specs.Table.{is_among};
ghost use Rattle.fta_words.specs.declared.command.Form.{Form as FormSaid};
ghost use Rattle.fta_words.specs.Words.{Given, IsChoice, SayForm, value_of};
ghost use Rattle.fta_words.specs.inner.Parsed.{StandIn, all_valued};

use crate::command::Form;
use crate::kind::Kind;
use crate::parsed::value_in;
use crate::table::{GATES, PROFILES, UNRATED, formats_of, is_among};
use clap::ArgMatches;
use plain_values::{List, Mem, Name, copied};
use std::alloc::Global;

/// How a tree is read and written; none where a word is none of those that its option has.
pub(crate) fn form_in(alloc: Global, kind: Kind, matches: &ArgMatches<'_>) -> Mem<Option<Form>>
    ensures found { (given : List Given) → StandIn (rows_of (found_of matches.now)) given → IfOk result (λ answer. IfSome answer (SayForm kind given)) }
    ensures only { (given : List Given) → StandIn (rows_of (found_of matches.now)) given → (form : FormSaid) → SayForm kind given form → IfOk result (λ answer. answer ≡ Some form) }
{
    let Some(format) = choice_in(alloc, matches, "format", formats_of(kind))? else {
        return Ok(None);
    };
    let Some(gates) = choice_in(alloc, matches, "gates", &GATES)? else {
        return Ok(None);
    };
    let Some(unrated) = choice_in(alloc, matches, "unrated", &UNRATED)? else {
        return Ok(None);
    };
    let Some(profile) = choice_in(alloc, matches, "profile", &PROFILES)? else {
        return Ok(None);
    };
    Ok(Some(Form {
        format,
        gates,
        unrated,
        profile,
    }))
}

/// The word that an option says, which is one of these; an empty one where it is not given; none where it says another.
fn choice_in(
    alloc: Global,
    matches: &ArgMatches<'_>,
    name: &str,
    words: &[&[u8]],
) -> Mem<Option<Name>>
    requires { is_among all_valued name.now ≡ true }
    ensures found { (given : List Given) → StandIn (rows_of (found_of matches.now)) given → IfOk result (λ answer. IfSome answer (IsChoice (map (λ word. word.now) words.now) (value_of name.now given))) }
    ensures only { (given : List Given) → StandIn (rows_of (found_of matches.now)) given → (chosen : List ℕ) → IsChoice (map (λ word. word.now) words.now) (value_of name.now given) chosen → IfOk result (λ answer. answer ≡ Some chosen) }
{
    choice_said(alloc, value_in(matches, name), words)
}

/// A text that is one of these words; an empty one where there is no text; none where it is another.
fn choice_said(alloc: Global, text: Option<&[u8]>, words: &[&[u8]]) -> Mem<Option<Name>>
    ensures found { IfOk result (λ answer. IfSome answer (IsChoice (map (λ word. word.now) words.now) (option_map (λ t. t.now) text.entry))) }
    ensures only { (chosen : List ℕ) → IsChoice (map (λ word. word.now) words.now) (option_map (λ t. t.now) text.entry) chosen → IfOk result (λ answer. answer ≡ Some chosen) }
{
    match text {
        None => Ok(Some(List::new(alloc))),
        Some(text) => word_said(alloc, text, words),
    }
}

/// A text that is one of these words; none where it is another.
fn word_said(alloc: Global, text: &[u8], words: &[&[u8]]) -> Mem<Option<Name>>
    ensures found { IfOk result (λ answer. IfSome answer (IsChoice (map (λ word. word.now) words.now) (Some text.now))) }
    ensures only { (chosen : List ℕ) → IsChoice (map (λ word. word.now) words.now) (Some text.now) chosen → IfOk result (λ answer. answer ≡ Some chosen) }
{
    if !is_among(words, text) {
        return Ok(None);
    }
    Ok(Some(copied(alloc, text)?))
}
