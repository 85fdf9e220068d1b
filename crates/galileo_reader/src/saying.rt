//! What a line says, by its tokens.

ghost use Rattle.std.specs.Prelude.{◌≡◌, ◌-◌, min, IfOk};
ghost use Rattle.std.specs.List.{list_all, list_any};
ghost use Rattle.std.specs.Option.{option_or};
ghost use Rattle.galileo_reader.specs.Statements.{count_of, event_with, figures, first_rate, gate_with, is_attribute, is_name, is_other, least_of, name_part, named_line, names_of, other_rate, part, placed, rate_in, rate_of, statement_of, top_line, votes_of, word_len};

use crate::bytes::{behind, front};
use crate::number::number;
use crate::statement::{PlacedName, Statement};
use crate::token::{Mark, Token};
use plain_values::{List, Mem, Name, copied};
use property_reader::{Rate, RateKind};
use round_gates::GateKind;
use std::alloc::Global;

/// Bytes of a text: so many, from so many behind a place.
fn part(alloc: Global, text: &[u8], at: u32, from: usize, len: usize) -> Mem<Name>
    ensures { IfOk result (λ name. name ≡ part text.now at from len) }
{
    let rest = behind(behind(text, at as usize), from);
    List::of(Vec::from_slice(alloc, front(rest, len))?)
}

pub(crate) fn is_name(token: Token) -> bool
    ensures { result ≡ is_name token }
{
    match token {
        Token::Name | Token::Bare => true,
        _ => false,
    }
}

fn is_attribute(token: Token) -> bool
    ensures { result ≡ is_attribute token }
{
    match token {
        Token::Rate(_) | Token::Dorm | Token::Value(_, _) | Token::Other => true,
        _ => false,
    }
}

/// The name of a token, between its quotes where it has any.
fn name_part(alloc: Global, text: &[u8], mark: &Mark) -> Mem<Name>
    ensures { IfOk result (λ name. name ≡ name_part text.now mark.now mark.now.token) }
{
    match mark.token {
        Token::Bare => part(alloc, text, mark.at, 0, mark.len as usize),
        _ => part(
            alloc,
            text,
            mark.at,
            1,
            (mark.len as usize).saturating_sub(2),
        ),
    }
}

/// The name of a token, with its place.
fn placed(alloc: Global, text: &[u8], mark: &Mark) -> Mem<PlacedName>
    ensures { IfOk result (λ name. name ≡ placed text.now mark.now) }
{
    let name = name_part(alloc, text, mark)?;
    Ok(PlacedName { at: mark.at, name })
}

/// The names of tokens that are all names.
fn names_of(alloc: Global, text: &[u8], marks: &[Mark]) -> Mem<Option<List<PlacedName>>>
    ensures { IfOk result (λ names. names ≡ names_of text.now marks.now) }
{
    let mut names = List::new(alloc);
    for mark in marks {
        if !is_name(mark.token) {
            return Ok(None);
        }
        names.push(placed(alloc, text, mark)?)?;
    }
    Ok(Some(names))
}

/// The line of a gate, which has an input.
fn gate_with(
    name: PlacedName,
    kind: GateKind,
    count: Option<u32>,
    inputs: Option<List<PlacedName>>,
) -> Option<Statement>
    ensures { result ≡ gate_with name kind count inputs }
{
    match inputs {
        Some(inputs) => {
            if inputs.items().is_empty() {
                return None;
            }
            Some(Statement::Gate(name, kind, count, inputs))
        }
        None => None,
    }
}

fn is_other(token: Token) -> bool
    ensures { result ≡ is_other token }
{
    match token {
        Token::Other => true,
        _ => false,
    }
}

fn are_attributes(marks: &[Mark]) -> bool
    ensures { result ≡ list_all (λ mark. is_attribute mark.token) marks.now }
{
    marks.iter().all(|mark| is_attribute(mark.token))
}

fn word_len(kind: RateKind) -> usize
    ensures { result ≡ word_len kind }
{
    match kind {
        RateKind::Lambda => 7,
        RateKind::Prob => 5,
    }
}

/// The rate of a token, whose number is what stands behind so many bytes of it.
fn rate_of(alloc: Global, text: &[u8], mark: &Mark, kind: RateKind, from: usize) -> Mem<Rate>
    ensures { IfOk result (λ rate. rate ≡ rate_of text.now mark.now kind from) }
{
    let number = part(
        alloc,
        text,
        mark.at,
        from,
        (mark.len as usize).saturating_sub(from),
    )?;
    Ok(Rate { kind, text: number })
}

/// The rate of a token that has one.
fn rate_in(alloc: Global, text: &[u8], mark: &Mark) -> Mem<Option<Rate>>
    ensures { IfOk result (λ rate. rate ≡ rate_in text.now mark.now mark.now.token) }
{
    match mark.token {
        Token::Rate(kind) => Ok(Some(rate_of(alloc, text, mark, kind, word_len(kind))?)),
        Token::Value(kind, from) => Ok(Some(rate_of(alloc, text, mark, kind, from)?)),
        _ => Ok(None),
    }
}

/// The first rate of some tokens.
fn first_rate(alloc: Global, text: &[u8], marks: &[Mark]) -> Mem<Option<Rate>>
    ensures { IfOk result (λ rate. rate ≡ first_rate text.now marks.now) }
{
    for mark in marks {
        if let Some(rate) = rate_in(alloc, text, mark)? {
            return Ok(Some(rate));
        }
    }
    Ok(None)
}

/// Whether one of these tells of a failure without a rate.
fn has_other(marks: &[Mark]) -> bool
    ensures { result ≡ list_any (λ mark. is_other mark.token) marks.now }
{
    marks.iter().any(|mark| is_other(mark.token))
}

/// The rate of an event of whose failure the text tells in another way.
fn other_rate(alloc: Global, marks: &[Mark]) -> Mem<Option<Rate>>
    ensures { IfOk result (λ rate. rate ≡ other_rate marks.now) }
{
    if !has_other(marks) {
        return Ok(None);
    }
    Ok(Some(Rate {
        kind: RateKind::Prob,
        text: copied(alloc, b"1")?,
    }))
}

/// The rate of an event of these attributes.
fn some_rate(alloc: Global, text: &[u8], marks: &[Mark]) -> Mem<Option<Rate>>
    ensures { IfOk result (λ rate. rate ≡ option_or (first_rate text.now marks.now) (other_rate marks.now)) }
{
    match first_rate(alloc, text, marks)? {
        Some(rate) => Ok(Some(rate)),
        None => other_rate(alloc, marks),
    }
}

/// The line of an event.
fn event_with(
    alloc: Global,
    text: &[u8],
    name: PlacedName,
    marks: &[Mark],
) -> Mem<Option<Statement>>
    ensures { IfOk result (λ said. said ≡ event_with text.now name marks.now) }
{
    if !are_attributes(marks) {
        return Ok(None);
    }
    match some_rate(alloc, text, marks)? {
        Some(rate) => Ok(Some(Statement::Event(name, rate))),
        None => Ok(None),
    }
}

fn up_to_nine(len: usize) -> usize
    ensures { result ≡ min len 9 }
{
    if len < 9 { len } else { 9 }
}

/// The number that the first of some bytes are, at most nine.
fn figures(text: &[u8], len: usize) -> u32
    ensures { result ≡ figures text.now len }
{
    number(front(text, up_to_nine(len)))
}

/// How many inputs are to be true, in a token with so many digits before `of`.
fn least_of(text: &[u8], mark: &Mark, len: usize) -> u32
    ensures { result ≡ least_of text.now mark.now len }
{
    figures(behind(text, mark.at as usize), len)
}

/// How many inputs there are, in a token with so many digits before `of`.
fn count_of(text: &[u8], mark: &Mark, len: usize) -> u32
    ensures { result ≡ count_of text.now mark.now len }
{
    let digits = behind(behind(behind(text, mark.at as usize), len), 2);
    figures(
        digits,
        (mark.len as usize).saturating_sub(len).saturating_sub(2),
    )
}

/// How many inputs are to be true, in a token that begins with `vot`.
fn votes_of(text: &[u8], mark: &Mark) -> u32
    ensures { result ≡ votes_of text.now mark.now }
{
    let digits = behind(behind(text, mark.at as usize), 3);
    figures(digits, (mark.len as usize).saturating_sub(3))
}

/// What a line says that begins with a name.
fn named_line(
    alloc: Global,
    text: &[u8],
    name: PlacedName,
    marks: &[Mark],
) -> Mem<Option<Statement>>
    ensures { IfOk result (λ said. said ≡ named_line text.now name marks.now) }
{
    let [mark, rest @ ..] = marks else {
        return Ok(None);
    };
    match mark.token {
        Token::And => Ok(gate_with(name, GateKind::And, None, names_of(alloc, text, rest)?)),
        Token::Or => Ok(gate_with(name, GateKind::Or, None, names_of(alloc, text, rest)?)),
        Token::Counts(len) => {
            let kind = GateKind::AtLeast(least_of(text, mark, len));
            let count = count_of(text, mark, len);
            Ok(gate_with(name, kind, Some(count), names_of(alloc, text, rest)?))
        }
        Token::Votes => {
            let kind = GateKind::AtLeast(votes_of(text, mark));
            Ok(gate_with(name, kind, None, names_of(alloc, text, rest)?))
        }
        _ => event_with(alloc, text, name, marks),
    }
}

/// The line of the top, which begins at a place.
fn top_line(alloc: Global, text: &[u8], at: u32, marks: &[Mark]) -> Mem<Option<Statement>>
    ensures { IfOk result (λ said. said ≡ top_line text.now at marks.now) }
{
    match marks {
        [mark] if is_name(mark.token) => {
            Ok(Some(Statement::Top(at, placed(alloc, text, mark)?)))
        }
        _ => Ok(None),
    }
}

/// What a line says, by its tokens.
#[tactic(auto, unfolding(crate::specs::Statements::statement_of))]
pub(crate) fn statement_of(alloc: Global, text: &[u8], marks: &[Mark]) -> Mem<Option<Statement>>
    ensures { IfOk result (λ said. said ≡ statement_of text.now marks.now) }
{
    let [mark, rest @ ..] = marks else {
        return Ok(None);
    };
    match mark.token {
        Token::Toplevel => top_line(alloc, text, mark.at, rest),
        Token::Name | Token::Bare => named_line(alloc, text, placed(alloc, text, mark)?, rest),
        _ => Ok(None),
    }
}
