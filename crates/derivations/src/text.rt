//! The text of a derivation, read line after line.
ghost use Rattle.std.specs.Prelude.{◌≡◌, ◌+◌, ◌<◌, ◌≤◌, ◌^◌, ◌==◌, ℕ, not, IfOk, MatchResult, List as Items, drop, length, take};
ghost use Rattle.std.specs.List.{prefix_len};
ghost use Rattle.fault_system.specs.Truth.{NumberSet, member};
ghost use Rattle.fault_system.specs.Systems.{NamesDiffer};
ghost use Rattle.derivations.specs.inner.Reading.{line_place};
ghost use Rattle.derivations.specs.Text.{IsBadAt, IsTextOf, event_names, fact_names, lines_of};
ghost use Rattle.derivations.specs.inner.Text.{AreLineNames};

use crate::derivation::{Derivation, Firing};
use crate::reading::{Vocabulary, read_line};
use fault_system::{Bits, FaultSystem, Names};
use plain_values::{List, Mem};
use std::alloc::Global;

/// The steps of a text; or the byte, from 0, of its first bad line, which is not as `write_step` writes the step of the next
/// number, of a fact, with rising events of the set and rising uses of earlier steps. An empty line is bad, and a last
/// one without line feed.
///
/// Each byte is passed a constant number of times.
pub fn read_steps(
    alloc: Global,
    system: &FaultSystem,
    events: &Bits,
    bytes: &[u8],
) -> Mem<Result<Derivation, usize>>
    requires facts { AreLineNames (fact_names system.now) }
    requires events { AreLineNames (event_names system.now) }
    ensures read { IfOk result (λ read. MatchResult read
        (λ derivation. IsTextOf (fact_names system.now) (event_names system.now) (member events.now)
        bytes.now derivation.steps)
        (λ at. IsBadAt (fact_names system.now) (event_names system.now) (member events.now) bytes.now at)) }
    ensures only { (steps : Items Firing) → length steps < 2 ^ 32
        → IsTextOf (fact_names system.now) (event_names system.now) (member events.now) bytes.now steps
        → IfOk result (λ read. MatchResult read (λ derivation. derivation.steps ≡ steps) (λ _. ⊥)) }
{
    let facts = fact_table(alloc, system)?;
    let names = event_table(alloc, system)?;
    read_lines(alloc, &facts, &names, events, bytes)
}

// The names of the facts.
fn fact_table(alloc: Global, system: &FaultSystem) -> Mem<Names<'_>>
    ensures { IfOk result (λ names. (names ≡ fact_names system.now) × NamesDiffer names × (length names < 2 ^ 32)) }
{
    // The names of a system differ, so there is a table of them.
    let _ = system.facts();
    match Names::of(alloc, system.fact_infos())? {
        Some(names) => Ok(names),
        None => unreachable!(),
    }
}

// The names of the events.
fn event_table(alloc: Global, system: &FaultSystem) -> Mem<Names<'_>>
    ensures { IfOk result (λ names. (names ≡ event_names system.now) × NamesDiffer names × (length names < 2 ^ 32)) }
{
    let _ = system.events();
    match Names::of(alloc, system.event_infos())? {
        Some(names) => Ok(names),
        None => unreachable!(),
    }
}

// The steps of a text, where facts and events have these names; or the byte of the first bad line.
fn read_lines(
    alloc: Global,
    facts: &Names<'_>,
    names: &Names<'_>,
    events: &Bits,
    bytes: &[u8],
) -> Mem<Result<Derivation, usize>>
    requires few { (length facts.now < 2 ^ 32) × (length names.now < 2 ^ 32) }
    requires differ { NamesDiffer facts.now × NamesDiffer names.now }
    requires line_names { AreLineNames facts.now × AreLineNames names.now }
    ensures read { IfOk result (λ read. MatchResult read
        (λ derivation. IsTextOf facts.now names.now (member events.now) bytes.now derivation.steps)
        (λ at. IsBadAt facts.now names.now (member events.now) bytes.now at)) }
    ensures only { (steps : Items Firing) → length steps < 2 ^ 32
        → IsTextOf facts.now names.now (member events.now) bytes.now steps
        → IfOk result (λ read. MatchResult read (λ derivation. derivation.steps ≡ steps) (λ _. ⊥)) }
{
    let vocabulary = Vocabulary {
        facts,
        names,
        events,
    };
    let mut steps = List::new(alloc);
    let mut at = 0;
    while at < bytes.len() {
        let number = steps.items().len() as u32;
        let end = line_end(bytes, at);
        if end >= bytes.len() {
            return Ok(Err(at));
        }
        let Some(step) = read_line(alloc, &vocabulary, number, &bytes[at..end])? else {
            return Ok(Err(at));
        };
        steps.push(step)?;
        at = end + 1;
    }
    Ok(Ok(Derivation { steps }))
}

/// The byte, from 0, at which the line of a step begins in the text of a derivation.
pub fn step_place(bytes: &[u8], number: u32) -> usize
    ensures { (facts names : Items (Items ℕ)) (events : NumberSet) (steps : Items Firing)
        → AreLineNames facts → AreLineNames names → length steps < 2 ^ 32
        → IsTextOf facts names events bytes.now steps → number < length steps
        → result ≡ length (lines_of facts names 0 (take number steps)) }
{
    line_place(bytes, number)
}

// How many bytes stand before the line of a number.
fn line_place(bytes: &[u8], number: u32) -> usize
    ensures { result ≡ line_place number bytes.now }
{
    let mut at = 0;
    let mut more = number;
    while more > 0 {
        let end = line_end(bytes, at);
        if end >= bytes.len() {
            return bytes.len();
        }
        at = end + 1;
        more -= 1;
    }
    at
}

// Where the line ends that begins at a place: at its line feed, or where the text ends.
fn line_end(bytes: &[u8], at: usize) -> usize
    requires { at ≤ length bytes.now }
    ensures value { result ≡ at + prefix_len (λ byte. not (byte == 10)) (drop at bytes.now) }
    ensures within { result ≤ length bytes.now }
{
    at + feed_len(&bytes[at..])
}

// How many bytes stand before the first line feed.
fn feed_len(text: &[u8]) -> usize
    ensures within { result ≤ length text.now }
    ensures value { result ≡ prefix_len (λ byte. not (byte == 10)) text.now }
{
    text.iter().take_while(|byte| **byte != b'\n').count()
}
