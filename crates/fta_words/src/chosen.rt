ghost use Rattle.std.specs.Prelude.{◌≡◌, ℕ, List, Some, IfOk, IfSome, MatchOption, Contains, length, option_map, true, false};
ghost use Rattle.fta_words.specs.Words.{AreAll, AreChosen, IsReport};
ghost use Rattle.fta_words.specs.inner.Naming.{AreInOrder, NamesNoPlaces, NamesPlaces};

use crate::text::split_once;
use plain_values::{List, Mem, Name, is_same};
use std::alloc::{AllocError, Global};

/// The places of the reports that a text names, in order, or of all where no text is given; none where the text is none of such
/// names.
pub(crate) fn chosen_of(
    alloc: Global,
    reports: &[Name],
    text: Option<&[u8]>,
) -> Mem<Option<List<u32>>>
    ensures found { IfOk result (λ answer. IfSome answer (λ chosen. AreChosen reports.now (option_map (λ t. t.now) text.entry) chosen)) }
    ensures only { (chosen : List ℕ) → AreChosen reports.now (option_map (λ t. t.now) text.entry) chosen → IfOk result (λ answer. answer ≡ Some chosen) }
{
    match text {
        None => Ok(Some(all_places(alloc, reports)?)),
        Some(text) => named_places(alloc, reports, text),
    }
}

/// The places of the reports that a text names, in order.
fn named_places(alloc: Global, reports: &[Name], text: &[u8]) -> Mem<Option<List<u32>>>
    ensures found { IfOk result (λ answer. IfSome answer (λ chosen. AreChosen reports.now (Some text.now) chosen)) }
    ensures only { (chosen : List ℕ) → AreChosen reports.now (Some text.now) chosen → IfOk result (λ answer. answer ≡ Some chosen) }
{
    let Some(places) = places_of(alloc, reports, text)? else {
        return Ok(None);
    };
    Ok(Some(in_order(alloc, reports, places.items())?))
}

/// How many reports there are, where 32 bits hold it.
fn count_of(reports: &[Name]) -> Mem<u32>
    ensures { IfOk result (λ count. count ≡ length reports.now) }
{
    if reports.len() > 4_294_967_295 {
        return Err(AllocError);
    }
    Ok(reports.len() as u32)
}

fn all_places(alloc: Global, reports: &[Name]) -> Mem<List<u32>>
    ensures { IfOk result (λ chosen. AreAll reports.now chosen) }
{
    let mut chosen = List::new(alloc);
    for place in 0..count_of(reports)? {
        chosen.push(place)?;
    }
    Ok(chosen)
}

/// The places that are among these, in order.
fn in_order(alloc: Global, reports: &[Name], places: &[u32]) -> Mem<List<u32>>
    ensures { IfOk result (λ chosen. AreInOrder (length reports.now) (Contains places.now) chosen) }
{
    let mut chosen = List::new(alloc);
    for place in 0..count_of(reports)? {
        if is_among(places, place) {
            chosen.push(place)?;
        }
    }
    Ok(chosen)
}

fn is_among(places: &[u32], place: u32) -> bool
    ensures yes { result ≡ true → Contains places.now place }
    ensures not { result ≡ false → Contains places.now place → ⊥ }
{
    places.contains(&place)
}

/// The places of the reports that a text names, in the order of the names.
fn places_of(alloc: Global, reports: &[Name], text: &[u8]) -> Mem<Option<List<u32>>>
    ensures { IfOk result (λ answer. MatchOption answer (NamesNoPlaces reports.now text.now) (λ places. NamesPlaces reports.now text.now places)) }
{
    let mut places = List::new(alloc);
    let mut rest = text;
    loop {
        let (name, more) = split_once(rest, b"+");
        let Some(place) = place_of(reports, name)? else {
            return Ok(None);
        };
        if is_among(places.items(), place) {
            return Ok(None);
        }
        places.push(place)?;
        match more {
            Some(more) => rest = more,
            None => return Ok(Some(places)),
        }
    }
}

/// The place of the first report of a name.
fn place_of(reports: &[Name], name: &[u8]) -> Mem<Option<u32>>
    ensures { IfOk result (λ answer. MatchOption answer ((place : ℕ) → IsReport reports.now name.now place → ⊥) (λ place. IsReport reports.now name.now place)) }
{
    for place in 0..count_of(reports)? {
        if is_same(reports[place as usize].items(), name) {
            return Ok(Some(place));
        }
    }
    Ok(None)
}
