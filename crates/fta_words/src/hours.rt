//! The hours for which a probability is asked.

ghost use Rattle.std.specs.Prelude.{◌≡◌, ◌==◌, ◌||◌, ℕ, List, Option, Some, IfOk, IfSome, codes, is_some, not, option_map};
ghost use Rattle.std.specs.List.{list_all};
ghost use Rattle.clap.specs.Words.{found_of, rows_of};
ghost use Rattle.decimals.specs.Numerals.{number_of};
ghost use Rattle.fta_words.specs.Words.{AreHours, Given, Says, is_hours, value_of};
ghost use Rattle.fta_words.specs.inner.Parsed.{StandIn};

use crate::parsed::value_in;
use clap::ArgMatches;
use decimals::Numeral;
use plain_values::{Mem, Name, copied};
use std::alloc::Global;

/// The hours that `--hours` says, where it is given; none where it says no number of hours.
pub(crate) fn hours_in(alloc: Global, matches: &ArgMatches<'_>) -> Mem<Option<Option<Name>>>
    ensures found { (given : List Given) → StandIn (rows_of (found_of matches.now)) given → IfOk result (λ answer. IfSome answer (Says AreHours (value_of (codes "hours") given))) }
    ensures only { (given : List Given) → StandIn (rows_of (found_of matches.now)) given → (said : Option (List ℕ)) → Says AreHours (value_of (codes "hours") given) said → IfOk result (λ answer. answer ≡ Some said) }
{
    hours_said(alloc, value_in(matches, "hours"))
}

/// The hours of a text, where there is one; none where it is no number of hours.
fn hours_said(alloc: Global, text: Option<&[u8]>) -> Mem<Option<Option<Name>>>
    ensures found { IfOk result (λ answer. IfSome answer (Says AreHours (option_map (λ t. t.now) text.entry))) }
    ensures only { (said : Option (List ℕ)) → Says AreHours (option_map (λ t. t.now) text.entry) said → IfOk result (λ answer. answer ≡ Some said) }
{
    match text {
        None => Ok(Some(None)),
        Some(text) => text_of_hours(alloc, text),
    }
}

/// A text that is a number of hours; none where it is none.
fn text_of_hours(alloc: Global, text: &[u8]) -> Mem<Option<Option<Name>>>
    ensures found { IfOk result (λ answer. IfSome answer (Says AreHours (Some text.now))) }
    ensures only { (said : Option (List ℕ)) → Says AreHours (Some text.now) said → IfOk result (λ answer. answer ≡ Some said) }
{
    if !is_hours(text) {
        return Ok(None);
    }
    Ok(Some(Some(copied(alloc, text)?)))
}

/// Whether a text is a number of hours.
fn is_hours(text: &[u8]) -> bool
    ensures { result ≡ is_hours text.now }
{
    is_number(text) && is_plain_number(text)
}

/// Whether a text is a number.
fn is_number(text: &[u8]) -> bool
    ensures { result ≡ is_some (number_of text.now) }
{
    Numeral::read(text).is_some()
}

/// Whether a text has no `_` and no `#`.
fn is_plain_number(text: &[u8]) -> bool
    ensures { result ≡ list_all (λ byte. not (byte == 95 || byte == 35)) text.now }
{
    text.iter().all(|byte| !(*byte == b'_' || *byte == b'#'))
}
