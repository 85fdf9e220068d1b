//! Page tokens: the texts of sets of events.

ghost use Rattle.std.specs.List.{flat_map};
ghost use Rattle.std.specs.Prelude.{◌≡◌, ◌+◌, ◌<◌, ◌≤◌, ◌∷◌, ◌++◌, [], ℕ, List as Items, length, IfOk, IfErr, IsOk, OnOk, OnErr, MatchBool, MatchResult, vec_len, vec_capacity};
ghost use Rattle.plain_values.specs.declared.refusal.Stop.TheVariants.{Memory};
ghost use Rattle.fault_system.specs.Systems.{event_name};
ghost use Rattle.cutset_lister.specs.SetText.{IsSetOfText, quoted_name, quoted_text, set_text};
ghost use Rattle.cutset_lister.specs.inner.SetText.{HasTokenNames, IsBadToken};
ghost use Rattle.cutset_lister.specs.inner.Scanning.{AddsText, IsNext, LacksRoom, Scanned, names_text};

use fault_system::FaultSystem;
use plain_values::{Answer, Code, List, Mem, Refusal, Stop, is_same};
use std::alloc::Global;

/// The set of events whose text this is: the names of its events in order with `+` between them, or `none` for the empty set.
///
/// A text that no rising list of events has is refused with K1. The time goes with the length of all names.
pub fn read_token(alloc: Global, system: &FaultSystem, text: &[u8]) -> Answer<List<u32>>
    requires { HasTokenNames system.now }
    ensures set { IfOk result (IsSetOfText system.now text.now) }
    ensures one { (set : Items ℕ) → IsSetOfText system.now text.now set → MatchResult result (λ read. read ≡ set) (λ stop. stop ≡ Memory) }
    ensures refused { IfErr result (IsBadToken system.now text.now) }
{
    let _events = system.events();
    if is_same(text, b"none") {
        return Ok(List::new(alloc));
    }
    let (set, place) = scan_events(alloc, system, text)?;
    if place <= text.len() {
        return Err(Stop::Refused(Refusal::of_words(Code::BadToken)));
    }
    let set = List::of(set)?;
    Ok(set)
}

/// Finds the events that the text names in rising order, one after another, and the place behind them.
fn scan_events(alloc: Global, system: &FaultSystem, text: &[u8]) -> Mem<(Vec<u32>, usize)>
    requires { HasTokenNames system.now }
    ensures { IfOk result (λ found. Scanned system.now text.now (length system.now.events) found.1 found.0.items) }
{
    let mut set = Vec::new(alloc);
    let mut place = 0;
    for number in 0..system.events() {
        place = take_event(system, number, text, place, &mut set)?;
    }
    Ok((set, place))
}

/// Adds the event if the text names it at the place; the place where the text goes on.
fn take_event(
    system: &FaultSystem,
    number: u32,
    text: &[u8],
    place: usize,
    set: &mut Vec<u32>,
) -> Mem<usize>
    requires names { HasTokenNames system.now }
    requires event { number < length system.now.events }
    requires scanned { Scanned system.now text.now number place set.old.items }
    ensures { IfOk result (λ next. Scanned system.now text.now (number + 1) next set.new.items) }
{
    let _events = system.events();
    if place > text.len() {
        return Ok(place);
    }
    let name = system.event_name(number);
    if !is_next(&text[place..], name) {
        return Ok(place);
    }
    set.push(number)?;
    Ok(place + name.len() + 1)
}

/// Whether the text begins with the name, and has ended then or goes on with a `+`.
fn is_next(text: &[u8], name: &[u8]) -> bool
    ensures { MatchBool result (IsNext text.now name.now) (IsNext text.now name.now → ⊥) }
{
    if text.len() < name.len() {
        return false;
    }
    if !is_same(&text[..name.len()], name) {
        return false;
    }
    if text.len() == name.len() {
        return true;
    }
    text[name.len()] == b'+'
}

/// Adds the text of a set: the names of its events in order with `+` between them, or `none` for the empty set.
///
/// It takes no memory where there is room, and where memory is refused the bytes stay as they were.
pub fn write_token(system: &FaultSystem, set: &[u32], to: &mut Vec<u8>) -> Mem<()>
    ensures text { OnOk result (to.new.items ≡ to.old.items ++ set_text system.now set.now) }
    ensures unchanged { OnErr result (to.new.items ≡ to.old.items) }
    ensures room { vec_len to.old + length (set_text system.now set.now) ≤ vec_capacity to.old → IsOk result }
    ensures capacity { vec_capacity to.old ≤ vec_capacity to.new }
{
    let before = to.len();
    match push_text(system, set, to) {
        Ok(()) => Ok(()),
        Err(error) => {
            to.truncate(before);
            Err(error)
        }
    }
}

fn push_text(system: &FaultSystem, set: &[u32], to: &mut Vec<u8>) -> Mem<()>
    ensures { MatchResult result (λ _. AddsText (set_text system.now set.now) to.old.items to.new.items (vec_capacity to.old) (vec_capacity to.new))
        (λ _. LacksRoom (set_text system.now set.now) to.old.items to.new.items (vec_capacity to.old) (vec_capacity to.new)) }
{
    match set.split_first() {
        None => push_bytes(b"none", to),
        Some((first, others)) => {
            push_bytes(system.event_name(*first), to)?;
            push_names(system, others, to)
        }
    }
}

fn push_names(system: &FaultSystem, events: &[u32], to: &mut Vec<u8>) -> Mem<()>
    ensures { MatchResult result (λ _. AddsText (names_text system.now events.now) to.old.items to.new.items (vec_capacity to.old) (vec_capacity to.new))
        (λ _. LacksRoom (names_text system.now events.now) to.old.items to.new.items (vec_capacity to.old) (vec_capacity to.new)) }
{
    for event in events {
        push_name(system, *event, to)?;
    }
    Ok(())
}

fn push_name(system: &FaultSystem, event: u32, to: &mut Vec<u8>) -> Mem<()>
    ensures { MatchResult result (λ _. AddsText (43 ∷ event_name system.now event) to.old.items to.new.items (vec_capacity to.old) (vec_capacity to.new))
        (λ _. LacksRoom (43 ∷ event_name system.now event) to.old.items to.new.items (vec_capacity to.old) (vec_capacity to.new)) }
{
    push_bytes(b"+", to)?;
    push_bytes(system.event_name(event), to)
}

/// Adds the text of a set in quotes: the names of its events in order, each between quotes and behind a blank, or ` none` for the
/// empty set.
///
/// It takes no memory where there is room, and where memory is refused the bytes stay as they were.
pub fn write_quoted(system: &FaultSystem, set: &[u32], to: &mut Vec<u8>) -> Mem<()>
    ensures text { OnOk result (to.new.items ≡ to.old.items ++ quoted_text system.now set.now) }
    ensures unchanged { OnErr result (to.new.items ≡ to.old.items) }
    ensures room { vec_len to.old + length (quoted_text system.now set.now) ≤ vec_capacity to.old → IsOk result }
    ensures capacity { vec_capacity to.old ≤ vec_capacity to.new }
{
    let before = to.len();
    match push_quoted_text(system, set, to) {
        Ok(()) => Ok(()),
        Err(error) => {
            to.truncate(before);
            Err(error)
        }
    }
}

fn push_quoted_text(system: &FaultSystem, set: &[u32], to: &mut Vec<u8>) -> Mem<()>
    ensures { MatchResult result (λ _. AddsText (quoted_text system.now set.now) to.old.items to.new.items (vec_capacity to.old) (vec_capacity to.new))
        (λ _. LacksRoom (quoted_text system.now set.now) to.old.items to.new.items (vec_capacity to.old) (vec_capacity to.new)) }
{
    match set {
        [] => push_bytes(b" none", to),
        [_, ..] => push_quoted_names(system, set, to),
    }
}

fn push_quoted_names(system: &FaultSystem, events: &[u32], to: &mut Vec<u8>) -> Mem<()>
    ensures { MatchResult result (λ _. AddsText (flat_map (quoted_name system.now) events.now) to.old.items to.new.items (vec_capacity to.old) (vec_capacity to.new))
        (λ _. LacksRoom (flat_map (quoted_name system.now) events.now) to.old.items to.new.items (vec_capacity to.old) (vec_capacity to.new)) }
{
    for event in events {
        push_quoted_name(system, *event, to)?;
    }
    Ok(())
}

fn push_quoted_name(system: &FaultSystem, event: u32, to: &mut Vec<u8>) -> Mem<()>
    ensures { MatchResult result (λ _. AddsText (quoted_name system.now event) to.old.items to.new.items (vec_capacity to.old) (vec_capacity to.new))
        (λ _. LacksRoom (quoted_name system.now event) to.old.items to.new.items (vec_capacity to.old) (vec_capacity to.new)) }
{
    push_opened_name(system, event, to)?;
    push_bytes(b"\"", to)
}

fn push_opened_name(system: &FaultSystem, event: u32, to: &mut Vec<u8>) -> Mem<()>
    ensures { MatchResult result (λ _. AddsText (32 ∷ 34 ∷ event_name system.now event) to.old.items to.new.items (vec_capacity to.old) (vec_capacity to.new))
        (λ _. LacksRoom (32 ∷ 34 ∷ event_name system.now event) to.old.items to.new.items (vec_capacity to.old) (vec_capacity to.new)) }
{
    push_bytes(b" \"", to)?;
    push_bytes(system.event_name(event), to)
}

fn push_bytes(bytes: &[u8], to: &mut Vec<u8>) -> Mem<()>
    ensures { MatchResult result (λ _. AddsText bytes.now to.old.items to.new.items (vec_capacity to.old) (vec_capacity to.new))
        (λ _. LacksRoom bytes.now to.old.items to.new.items (vec_capacity to.old) (vec_capacity to.new)) }
{
    to.extend_from_slice(bytes)
}
