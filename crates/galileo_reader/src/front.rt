//! The token at the front of a text.

ghost use Rattle.std.specs.Prelude.{◌≡◌, ◌<◌, ◌≤◌, ◌+◌, drop, length, IfSome};
ghost use Rattle.galileo_reader.specs.Marks.{front_of, gap_len, mark_from};
ghost use Rattle.galileo_reader.specs.Tokens.{blanks_len, closed_len, counts_len, figures_len, front_or, is_few, name_len, plain_len, rate_at, rate_len, token_at, word_at};

use crate::gaps::wide_gap_len;
use crate::token::{Front, Mark, Token};
use crate::wide::wide_token_at;
use aadl_lexer::{digits_len, is_blank, is_digit, number_len};
use property_reader::RateKind;

/// How many blanks begin a text.
pub(crate) fn blanks_len(text: &[u8]) -> usize
    ensures within { result ≤ length text.now }
    ensures value { result ≡ blanks_len text.now }
{
    text.iter().take_while(|b| is_blank(**b)).count()
}

/// How many bytes that are neither a quote nor a line feed begin a text.
fn plain_len(text: &[u8]) -> usize
    ensures within { result ≤ length text.now }
    ensures value { result ≡ plain_len text.now }
{
    text.iter()
        .take_while(|b| !(**b == b'"' || **b == b'\n'))
        .count()
}

/// How many decimal digits begin a text.
pub(crate) fn figures_len(text: &[u8]) -> usize
    ensures within { result ≤ length text.now }
    ensures value { result ≡ figures_len text.now }
{
    text.iter().take_while(|b| is_digit(**b)).count()
}

/// How long the name in quotes is that begins a text, or 0.
#[tactic(auto, unfolding(crate::specs::Tokens::name_len))]
pub(crate) fn name_len(text: &[u8]) -> usize
    ensures within { result ≤ length text.now }
    ensures value { result ≡ name_len text.now }
{
    match text {
        [b'"', rest @ ..] => name_rest_len(rest),
        _ => 0,
    }
}

/// How long the name is whose opening quote stands before a text, or 0.
fn name_rest_len(text: &[u8]) -> usize
    ensures within { result ≤ length text.now + 1 }
    ensures value { result ≡ closed_len (plain_len text.now) (drop (plain_len text.now) text.now) }
{
    let len = plain_len(text);
    match &text[len..] {
        [b'"', ..] if len > 0 => len + 2,
        _ => 0,
    }
}

pub(crate) fn is_few(len: usize) -> bool
    ensures { result ≡ is_few len }
{
    1 <= len && len <= 9
}

/// How long the digits, `of` and the digits are that begin a text, or 0; a number has one to nine digits.
#[tactic(auto, unfolding(crate::specs::Tokens::counts_len))]
fn counts_len(text: &[u8]) -> usize
    ensures within { result ≤ length text.now }
    ensures value { result ≡ counts_len text.now }
{
    let least = figures_len(text);
    if !is_few(least) || !text[least..].starts_with(b"of") {
        return 0;
    }
    let count = figures_len(&text[least + 2..]);
    if is_few(count) { least + 2 + count } else { 0 }
}

/// How long the word and the number after it are, where the text begins with the word, or 0.
#[tactic(auto, unfolding(crate::specs::Tokens::rate_len))]
fn rate_len(text: &[u8], word: &[u8]) -> usize
    ensures within { result ≤ length text.now }
    ensures value { result ≡ rate_len text.now word.now (length word.now) }
{
    if !text.starts_with(word) {
        return 0;
    }
    let rest = &text[word.len()..];
    if digits_len(rest) == 0 {
        return 0;
    }
    word.len() + number_len(rest)
}

/// The attribute that begins a text.
#[tactic(auto, unfolding(crate::specs::Tokens::rate_at))]
fn rate_at(text: &[u8]) -> Option<Front>
    ensures within { IfSome result (λ front. (0 < front.len) × (front.len ≤ length text.now)) }
    ensures value { result ≡ rate_at text.now }
{
    let lambda = rate_len(text, b"lambda=");
    if lambda > 0 {
        return Some(Front {
            token: Token::Rate(RateKind::Lambda),
            len: lambda,
        });
    }
    let prob = rate_len(text, b"prob=");
    if prob > 0 {
        return Some(Front {
            token: Token::Rate(RateKind::Prob),
            len: prob,
        });
    }
    let dorm = rate_len(text, b"dorm=");
    if dorm > 0 {
        return Some(Front {
            token: Token::Dorm,
            len: dorm,
        });
    }
    None
}

/// The word or the attribute that begins a text.
#[tactic(auto, unfolding(crate::specs::Tokens::word_at))]
fn word_at(text: &[u8]) -> Option<Front>
    ensures within { IfSome result (λ front. (0 < front.len) × (front.len ≤ length text.now)) }
    ensures value { result ≡ word_at text.now }
{
    if text.starts_with(b"toplevel") {
        return Some(Front {
            token: Token::Toplevel,
            len: 8,
        });
    }
    if text.starts_with(b"and") {
        return Some(Front {
            token: Token::And,
            len: 3,
        });
    }
    if text.starts_with(b"or") {
        return Some(Front {
            token: Token::Or,
            len: 2,
        });
    }
    rate_at(text)
}

/// The token that begins a text.
#[tactic(auto, unfolding(crate::specs::Tokens::token_at))]
fn token_at(text: &[u8]) -> Option<Front>
    ensures within { IfSome result (λ front. (0 < front.len) × (front.len ≤ length text.now)) }
    ensures value { result ≡ token_at text.now }
{
    if let [b';', ..] = text {
        return Some(Front {
            token: Token::End,
            len: 1,
        });
    }
    let name = name_len(text);
    if name > 0 {
        return Some(Front {
            token: Token::Name,
            len: name,
        });
    }
    counts_or_word_at(text)
}

/// The counts or the word that begin a text.
fn counts_or_word_at(text: &[u8]) -> Option<Front>
    ensures within { IfSome result (λ front. (0 < front.len) × (front.len ≤ length text.now)) }
    ensures value { result ≡ front_or (Token.Counts (figures_len text.now)) (counts_len text.now) (word_at text.now) }
{
    let counts = counts_len(text);
    if counts > 0 {
        return Some(Front {
            token: Token::Counts(figures_len(text)),
            len: counts,
        });
    }
    word_at(text)
}

/// How many bytes stand before the first token of a text: blanks, and in the wide reading comments and parameters too.
pub(crate) fn gap_len(text: &[u8], wide: bool) -> usize
    ensures within { result ≤ length text.now }
    ensures value { result ≡ gap_len wide text.now }
{
    if wide {
        wide_gap_len(text)
    } else {
        blanks_len(text)
    }
}

/// The token that begins a text, in the first reading or in the wide one.
fn front_of(text: &[u8], wide: bool) -> Option<Front>
    ensures within { IfSome result (λ front. (0 < front.len) × (front.len ≤ length text.now)) }
    ensures value { result ≡ front_of wide text.now }
{
    if wide {
        wide_token_at(text)
    } else {
        token_at(text)
    }
}

/// The next token from a place on.
#[tactic(auto, unfolding(crate::specs::Marks::mark_from))]
pub(crate) fn mark_from(text: &[u8], at: usize, wide: bool) -> Option<Mark>
    requires within { at ≤ length text.now }
    requires few { length text.now ≤ 4194304 }
    ensures within { IfSome result (λ mark. (at ≤ mark.at) × (0 < mark.len) × (mark.at + mark.len ≤ length text.now)) }
    ensures inside { IfSome result (λ mark. mark.at + mark.len ≤ length text.now) }
    ensures value { result ≡ mark_from wide text.now at }
{
    let start = at + gap_len(&text[at..], wide);
    let front = front_of(&text[start..], wide)?;
    Some(Mark {
        token: front.token,
        at: start as u32,
        len: front.len as u32,
    })
}
