//! The sentences of requirements.

ghost use Rattle.std.specs.Prelude.{◌≡◌, Ok, IfErr, IfOk};
ghost use Rattle.requirements.specs.Sentences.{alone_of, exceptions_of, is_word, mixed_of, mixed_with, order_of, order_with, probability_of, probability_within, sentence_of, without_of};
ghost use Rattle.requirements.specs.inner.Faults.{IsFault};

use crate::number::number_of;
use crate::reading::Fault;
use crate::words::PlacedWord;
use compared_numbers::{is_limit, is_time};
use plain_values::{List, Mem, copied, is_same};
use std::alloc::Global;

/// What a requirement says of its target, where E is any set of error events.
#[derive(Drop)]
pub enum Sentence {
    /// It holds under some E, and under no E of fewer events than this that contains none of these sets.
    Order(u32, List<PlacedWord>),
    /// It holds under some E, and under no E, of at most so many events, that lies in this group.
    Mixed(PlacedWord, Option<u32>),
    /// It holds under some E without this event, and no minimal set has it.
    Without(PlacedWord),
    /// It holds under some E, and not under none.
    Possible,
    /// It holds under no E.
    Never,
    /// Its probability is at most this number, in so many hours.
    Probability(PlacedWord, PlacedWord),
}

/// The sentence that begins with this word, where these stand behind it.
pub(crate) fn sentence_of(
    alloc: Global,
    word: &PlacedWord,
    more: &[PlacedWord],
) -> Result<Sentence, Fault>
    ensures read { IfOk result (λ sentence. sentence_of word.now more.now ≡ Ok sentence) }
    ensures wrong { IfErr result (IsFault (sentence_of word.now more.now)) }
{
    if word.is(b"order") {
        return order_of(alloc, word, more);
    }
    if word.is(b"mixed") {
        return mixed_of(alloc, word, more);
    }
    if word.is(b"without") {
        return without_of(alloc, word, more);
    }
    if word.is(b"possible") {
        return alone_of(Sentence::Possible, more);
    }
    if word.is(b"never") {
        return alone_of(Sentence::Never, more);
    }
    if word.is(b"probability") {
        return probability_of(alloc, word, more);
    }
    Err(Fault::Wrong(word.at))
}

fn order_of(alloc: Global, word: &PlacedWord, more: &[PlacedWord]) -> Result<Sentence, Fault>
    ensures read { IfOk result (λ sentence. order_of word.now more.now ≡ Ok sentence) }
    ensures wrong { IfErr result (IsFault (order_of word.now more.now)) }
{
    match more.split_first() {
        None => Err(Fault::Wrong(word.at)),
        Some((number, more)) => order_with(alloc, number, number_of(number.text.items()), more),
    }
}

fn order_with(
    alloc: Global,
    word: &PlacedWord,
    number: Option<u32>,
    more: &[PlacedWord],
) -> Result<Sentence, Fault>
    ensures read { IfOk result (λ sentence. order_with word.now number more.now ≡ Ok sentence) }
    ensures wrong { IfErr result (IsFault (order_with word.now number more.now)) }
{
    match number {
        None => Err(Fault::Wrong(word.at)),
        Some(least) => Ok(Sentence::Order(least, exceptions_of(alloc, more)?)),
    }
}

/// `except` and the tokens of sets, or nothing.
fn exceptions_of(alloc: Global, more: &[PlacedWord]) -> Result<List<PlacedWord>, Fault>
    ensures read { IfOk result (λ tokens. exceptions_of more.now ≡ Ok tokens) }
    ensures wrong { IfErr result (IsFault (exceptions_of more.now)) }
{
    let Some((word, tokens)) = more.split_first() else {
        return Ok(List::new(alloc));
    };
    if tokens.is_empty() || !word.is(b"except") {
        return Err(Fault::Wrong(word.at));
    }
    Ok(words_again(alloc, tokens)?)
}

fn mixed_of(alloc: Global, word: &PlacedWord, more: &[PlacedWord]) -> Result<Sentence, Fault>
    ensures read { IfOk result (λ sentence. mixed_of word.now more.now ≡ Ok sentence) }
    ensures wrong { IfErr result (IsFault (mixed_of word.now more.now)) }
{
    let Some((group, more)) = more.split_first() else {
        return Err(Fault::Wrong(word.at));
    };
    let Some((number, more)) = more.split_first() else {
        return Ok(Sentence::Mixed(group.again(alloc)?, None));
    };
    match more.first() {
        None => mixed_with(alloc, group, number, number_of(number.text.items())),
        Some(other) => Err(Fault::Wrong(other.at)),
    }
}

fn mixed_with(
    alloc: Global,
    group: &PlacedWord,
    word: &PlacedWord,
    number: Option<u32>,
) -> Result<Sentence, Fault>
    ensures read { IfOk result (λ sentence. mixed_with group.now word.now number ≡ Ok sentence) }
    ensures wrong { IfErr result (IsFault (mixed_with group.now word.now number)) }
{
    match number {
        None => Err(Fault::Wrong(word.at)),
        Some(most) => Ok(Sentence::Mixed(group.again(alloc)?, Some(most))),
    }
}

fn without_of(alloc: Global, word: &PlacedWord, more: &[PlacedWord]) -> Result<Sentence, Fault>
    ensures read { IfOk result (λ sentence. without_of word.now more.now ≡ Ok sentence) }
    ensures wrong { IfErr result (IsFault (without_of word.now more.now)) }
{
    let Some((event, more)) = more.split_first() else {
        return Err(Fault::Wrong(word.at));
    };
    match more.first() {
        None => Ok(Sentence::Without(event.again(alloc)?)),
        Some(other) => Err(Fault::Wrong(other.at)),
    }
}

/// A sentence of one word.
fn alone_of(sentence: Sentence, more: &[PlacedWord]) -> Result<Sentence, Fault>
    ensures read { IfOk result (λ its. alone_of sentence more.now ≡ Ok its) }
    ensures wrong { IfErr result (IsFault (alone_of sentence more.now)) }
{
    match more.first() {
        None => Ok(sentence),
        Some(other) => Err(Fault::Wrong(other.at)),
    }
}

/// A number less than 1, `hours`, and a number above 0.
fn probability_of(alloc: Global, word: &PlacedWord, more: &[PlacedWord]) -> Result<Sentence, Fault>
    ensures read { IfOk result (λ sentence. probability_of word.now more.now ≡ Ok sentence) }
    ensures wrong { IfErr result (IsFault (probability_of word.now more.now)) }
{
    let Some((most, more)) = more.split_first() else {
        return Err(Fault::Wrong(word.at));
    };
    let Some((unit, more)) = more.split_first() else {
        return Err(Fault::Wrong(most.at));
    };
    let Some((hours, more)) = more.split_first() else {
        return Err(Fault::Wrong(unit.at));
    };
    if !unit.is(b"hours") {
        return Err(Fault::Wrong(unit.at));
    }
    match more.first() {
        None => probability_within(alloc, most, hours),
        Some(other) => Err(Fault::Wrong(other.at)),
    }
}

/// The sentence of `probability` with these words for its numbers.
fn probability_within(
    alloc: Global,
    most: &PlacedWord,
    hours: &PlacedWord,
) -> Result<Sentence, Fault>
    ensures read { IfOk result (λ sentence. probability_within most.now hours.now ≡ Ok sentence) }
    ensures wrong { IfErr result (IsFault (probability_within most.now hours.now)) }
{
    if !is_limit(most.text.items()) {
        return Err(Fault::Wrong(most.at));
    }
    if !is_time(hours.text.items()) {
        return Err(Fault::Wrong(hours.at));
    }
    Ok(Sentence::Probability(most.again(alloc)?, hours.again(alloc)?))
}

/// These words again.
pub(crate) fn words_again(alloc: Global, words: &[PlacedWord]) -> Mem<List<PlacedWord>>
    ensures { IfOk result (λ again. again ≡ words.now) }
{
    let mut again = List::new(alloc);
    for word in words {
        again.push(word.again(alloc)?)?;
    }
    Ok(again)
}

impl PlacedWord {
    /// Whether the word is this one.
    pub(crate) fn is(&self, text: &[u8]) -> bool
        ensures { result ≡ is_word self.now text.now }
    {
        is_same(self.text.items(), text)
    }

    /// The word again.
    pub(crate) fn again(&self, alloc: Global) -> Mem<PlacedWord>
        ensures { IfOk result (λ again. again ≡ self.now) }
    {
        Ok(PlacedWord {
            text: copied(alloc, self.text.items())?,
            at: self.at,
        })
    }
}
