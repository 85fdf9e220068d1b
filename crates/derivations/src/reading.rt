//! Reading the lines of a derivation.
ghost use Rattle.std.specs.Prelude.{◌≡◌, ◌+◌, ◌<◌, ◌≤◌, ◌^◌, ◌==◌, ◌↔◌, not, ℕ, IsTrue, MatchOption, IfOk, IfSome, cond, decimal, drop, length, slice_range};
ghost use Rattle.derivations.specs.inner.Reading.{begins_use, cut, no_items, step_of, step_of_fact, step_of_words, step_with, use_of, with_event, with_use, with_word, with_words, words_behind};
ghost use Rattle.std.specs.List.{prefix_len};
ghost use Rattle.fault_system.specs.Truth.{member};

use crate::derivation::Firing;
use fault_system::{Bits, Names};
use itoa::Buffer;
use plain_values::{List, Mem};
use std::alloc::Global;
use std::marker::Model;

/// By what a line is read: the names of the facts and of the events of a system, and a set of its events.
#[derive(Clone, Copy)]
pub(crate) struct Vocabulary<'s, 'n> {
    /// The names of the facts.
    pub facts: &'s Names<'n>,
    /// The names of the events.
    pub names: &'s Names<'n>,
    /// The set, of which each event of a step is.
    pub events: &'s Bits,
}

/// The number whose digits these are, with no zero in front.
pub(crate) fn number_of(digits: &[u8]) -> Option<u32>
    ensures number { MatchOption result ((n : ℕ) → n < 2 ^ 32 → digits.now ≡ decimal n → ⊥) (λ n. digits.now ≡ decimal n) }
    ensures small { IfSome result (λ n. n < 2 ^ 32) }
{
    let Ok(text) = std::str::from_utf8(digits) else {
        return None;
    };
    let Ok(number) = text.parse::<u32>() else {
        return None;
    };
    if is_number(digits, number as u64) {
        Some(number)
    } else {
        None
    }
}

// Whether these are the digits of a number.
fn is_number(digits: &[u8], number: u64) -> bool
    ensures { IsTrue result ↔ (digits.now ≡ decimal number) }
{
    let mut buffer = Buffer::new();
    buffer.format(number).as_bytes() == digits
}

// The number of an earlier step, from its digits.
fn use_of(limit: u32, digits: &[u8]) -> Option<u32>
    ensures { result ≡ use_of limit digits.now }
{
    let Some(number) = number_of(digits) else {
        return None;
    };
    if number == 0 || number > limit {
        return None;
    }
    Some(number - 1)
}

// How long the word is that a text begins with.
fn word_len(text: &[u8]) -> usize
    ensures within { result ≤ length text.now }
    ensures value { result ≡ prefix_len (λ byte. not (byte == 32)) text.now }
{
    text.iter().take_while(|byte| **byte != b' ').count()
}

// Where the word ends that begins at a place.
fn word_end(line: &[u8], at: usize) -> usize
    requires { at ≤ length line.now }
    ensures word { slice_range line.now at result ≡ (cut (drop at line.now)).first }
    ensures later { words_behind (drop result line.now) ≡ (cut (drop at line.now)).later }
    ensures within { result ≤ length line.now }
    ensures from { at ≤ result }
{
    at + word_len(&line[at..])
}

// What was read of the later words of a line: the events and the uses, and how great the next of each must be at least.
#[derive(Drop)]
struct Items {
    events: Vec<u32>,
    uses: Vec<u32>,
    next_event: usize,
    next_use: usize,
}

impl Model for Items {
    ghost use Rattle.derivations.specs.inner.Reading.{Items as Read};

    ghost Value = { Read };

    ghost view = { λ i. record {
      events = i.events.items;
      uses = i.uses.items;
      next_event = i.next_event;
      next_use = i.next_use;
    } };
}

impl Items {
    fn new(alloc: Global) -> Items
        ensures { result ≡ no_items }
    {
        Items {
            events: Vec::new(alloc),
            uses: Vec::new(alloc),
            next_event: 0,
            next_use: 0,
        }
    }

    // Adds an event, if it may stand there.
    fn add_event(&mut self, events: &Bits, event: usize) -> Mem<bool>
        requires { event < 2 ^ 32 }
        ensures { IfOk result
            (λ read. with_event (member events.now) self.old (Some event) ≡ cond read (Some self.new) None) }
    {
        if self.next_use != 0 || event < self.next_event || !events.has(event as u32) {
            return Ok(false);
        }
        self.events.push(event as u32)?;
        self.next_event = event + 1;
        Ok(true)
    }

    // Adds a use, if it may stand there.
    fn add_use(&mut self, number: u32) -> Mem<bool>
        ensures { IfOk result (λ read. with_use self.old (Some number) ≡ cond read (Some self.new) None) }
    {
        if (number as usize) < self.next_use {
            return Ok(false);
        }
        self.uses.push(number)?;
        self.next_use = number as usize + 1;
        Ok(true)
    }

    // Adds what a word says, if it may stand there.
    fn add_word(&mut self, vocabulary: &Vocabulary<'_, '_>, number: u32, word: &[u8]) -> Mem<bool>
        requires { length vocabulary.now.names.now < 2 ^ 32 }
        ensures { IfOk result
            (λ read. with_word vocabulary.now.names.now (member vocabulary.now.events.now) number self.old word.now ≡ cond read (Some self.new) None) }
    {
        if begins_use(word) {
            return match use_of(number, &word[1..]) {
                Some(earlier) => self.add_use(earlier),
                None => Ok(false),
            };
        }
        match vocabulary.names.place(word) {
            Some(event) => self.add_event(vocabulary.events, event),
            None => Ok(false),
        }
    }
}

fn begins_use(word: &[u8]) -> bool
    ensures { result ≡ begins_use word.now }
{
    match word {
        [first, ..] => *first == b'#',
        [] => false,
    }
}

// What the words say that stand behind a place of a line.
fn read_words(
    alloc: Global,
    vocabulary: &Vocabulary<'_, '_>,
    number: u32,
    line: &[u8],
    from: usize,
) -> Mem<Option<Items>>
    requires names { length vocabulary.now.names.now < 2 ^ 32 }
    requires from { from ≤ length line.now }
    ensures { IfOk result
        (λ items. with_words vocabulary.now.names.now (member vocabulary.now.events.now) number no_items (words_behind (drop from line.now)) ≡ items) }
{
    let mut items = Items::new(alloc);
    let mut at = from;
    while at < line.len() {
        let end = word_end(line, at + 1);
        if !items.add_word(vocabulary, number, &line[at + 1..end])? {
            return Ok(None);
        }
        at = end;
    }
    Ok(Some(items))
}

// The step of a line that has a number.
pub(crate) fn read_line(
    alloc: Global,
    vocabulary: &Vocabulary<'_, '_>,
    number: u32,
    line: &[u8],
) -> Mem<Option<Firing>>
    requires facts { length vocabulary.now.facts.now < 2 ^ 32 }
    requires names { length vocabulary.now.names.now < 2 ^ 32 }
    ensures { IfOk result
        (λ step. step_of vocabulary.now.facts.now vocabulary.now.names.now (member vocabulary.now.events.now) number line.now ≡ step) }
{
    let end = word_end(line, 0);
    if !is_number(&line[..end], number as u64 + 1) {
        return Ok(None);
    }
    if end >= line.len() {
        return Ok(None);
    }
    read_fact(alloc, vocabulary, number, line, end)
}

// The step of what stands behind the number of a line.
fn read_fact(
    alloc: Global,
    vocabulary: &Vocabulary<'_, '_>,
    number: u32,
    line: &[u8],
    end: usize,
) -> Mem<Option<Firing>>
    requires facts { length vocabulary.now.facts.now < 2 ^ 32 }
    requires names { length vocabulary.now.names.now < 2 ^ 32 }
    requires end { end < length line.now }
    ensures { IfOk result
        (λ step. step_of_words vocabulary.now.facts.now vocabulary.now.names.now (member vocabulary.now.events.now) number (words_behind (drop end line.now)) ≡ step) }
{
    let name_end = word_end(line, end + 1);
    let Some(fact) = vocabulary.facts.place(&line[end + 1..name_end]) else {
        return Ok(None);
    };
    read_items(alloc, fact as u32, vocabulary, number, line, name_end)
}

// The step of a fact and of what stands behind a place of a line.
fn read_items(
    alloc: Global,
    fact: u32,
    vocabulary: &Vocabulary<'_, '_>,
    number: u32,
    line: &[u8],
    from: usize,
) -> Mem<Option<Firing>>
    requires names { length vocabulary.now.names.now < 2 ^ 32 }
    requires from { from ≤ length line.now }
    ensures { IfOk result
        (λ step. step_of_fact vocabulary.now.names.now (member vocabulary.now.events.now) number (words_behind (drop from line.now)) (Some fact) ≡ step) }
{
    let Some(items) = read_words(alloc, vocabulary, number, line, from)? else {
        return Ok(None);
    };
    step_with(fact, items)
}

fn step_with(fact: u32, items: Items) -> Mem<Option<Firing>>
    ensures { IfOk result (λ step. step_with fact items ≡ step) }
{
    Ok(Some(Firing {
        fact,
        events: List::of(items.events)?,
        uses: List::of(items.uses)?,
    }))
}
