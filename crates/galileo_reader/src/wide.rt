//! The token at the front of a text as other tools write it.

ghost use Rattle.std.specs.Prelude.{◌≡◌, ◌<◌, ◌≤◌, ◌+◌, None, drop, length, take, IfSome};
ghost use Rattle.galileo_reader.specs.Tokens.{front_or};
ghost use Rattle.galileo_reader.specs.WideTokens.{after, are_counts, are_figures, are_votes, attribute_front, counts_token, is_dependency, is_distribution, is_dynamic_word, is_ordered, is_past, is_sequence, is_single, is_spare, past_front, plain_front, rate_front, real_len, setting_len, value_at, value_behind, wide_token_at, word_front, word_token};
ghost use Rattle.galileo_reader.specs.declared.token.Token.{Token};

use crate::bytes::{behind, front};
use crate::front::{figures_len, is_few, name_len};
use crate::gaps::{spells, wide_gap_len};
use crate::real::{bare_len, real_len, setting_len};
use crate::token::{Front, Token};
use property_reader::RateKind;

// ---- words

/// One to nine digits, and no more.
fn are_figures(word: &[u8]) -> bool
    ensures { result ≡ are_figures word.now }
{
    is_few(word.len()) && figures_len(word) == word.len()
}

/// `vot` and how many inputs are to be true.
fn are_votes(word: &[u8]) -> bool
    ensures { result ≡ are_votes word.now }
{
    spells(front(word, 3), b"vot") && are_figures(behind(word, 3))
}

/// How many inputs are to be true, `of`, and how many there are.
fn are_counts(word: &[u8]) -> bool
    ensures { result ≡ are_counts word.now }
{
    let least = figures_len(word);
    if !is_few(least) {
        return false;
    }
    if !spells(front(behind(word, least), 2), b"of") {
        return false;
    }
    are_figures(behind(word, least + 2))
}

/// A gate that is true where its inputs become true in an order.
fn is_ordered(word: &[u8]) -> bool
    ensures { result ≡ is_ordered word.now }
{
    spells(word, b"pand")
        || spells(word, b"pand-inc")
        || spells(word, b"pand-ex")
        || spells(word, b"por")
        || spells(word, b"por-inc")
        || spells(word, b"por-ex")
}

/// What keeps events in an order, or apart.
fn is_sequence(word: &[u8]) -> bool
    ensures { result ≡ is_sequence word.now }
{
    spells(word, b"seq") || spells(word, b"sand") || spells(word, b"mutex")
}

/// A gate with spares.
fn is_spare(word: &[u8]) -> bool
    ensures { result ≡ is_spare word.now }
{
    spells(word, b"spare") || spells(word, b"wsp") || spells(word, b"csp") || spells(word, b"hsp")
}

/// An event that brings others about.
fn is_dependency(word: &[u8]) -> bool
    ensures { result ≡ is_dependency word.now }
{
    spells(word, b"fdep") || spells(word, b"pdep")
}

/// The word of a dynamic gate.
fn is_dynamic_word(word: &[u8]) -> bool
    ensures { result ≡ is_dynamic_word word.now }
{
    is_ordered(word) || is_sequence(word) || is_spare(word) || is_dependency(word)
}

/// What a word is that is no keyword.
fn counts_token(word: &[u8]) -> Token
    ensures { result ≡ counts_token word.now }
{
    if are_votes(word) {
        return Token::Votes;
    }
    if are_counts(word) {
        return Token::Counts(figures_len(word));
    }
    Token::Bare
}

/// What a word is that is of no dynamic gate, and no attribute.
fn word_token(word: &[u8]) -> Token
    ensures { result ≡ word_token word.now }
{
    if spells(word, b"toplevel") {
        return Token::Toplevel;
    }
    if spells(word, b"and") {
        return Token::And;
    }
    if spells(word, b"or") {
        return Token::Or;
    }
    counts_token(word)
}

// ---- attributes

/// Where the value of an attribute begins, of which so many bytes come before what may be its `=`.
fn value_behind(text: &[u8], at: usize) -> Option<usize>
    requires { at + length text.now ≤ usize.MAX }
    ensures within { IfSome result (λ value. value ≤ at + length text.now) }
    ensures value { result ≡ value_behind at text.now }
{
    match text {
        [b'=', rest @ ..] => Some(at + 1 + wide_gap_len(rest)),
        _ => None,
    }
}

/// Where the value begins of the attribute that begins a text: behind a word and `=`, and what may stand between tokens.
#[tactic(auto, unfolding(crate::specs::WideTokens::value_at))]
fn value_at(text: &[u8]) -> Option<usize>
    ensures within { IfSome result (λ value. value ≤ length text.now) }
    ensures value { result ≡ value_at text.now }
{
    let word = bare_len(text);
    let equals = word + wide_gap_len(&text[word..]);
    value_behind(&text[equals..], equals)
}

/// A token of a part behind so many bytes, where the part is not empty.
fn token_after(token: Token, at: usize, len: usize) -> Option<Front>
    requires { at + len ≤ usize.MAX }
    ensures within { IfSome result (λ front. (0 < front.len) × (front.len ≤ at + len)) }
    ensures value { result ≡ front_or token (after at len) None }
{
    if len == 0 {
        return None;
    }
    Some(Front {
        token,
        len: at + len,
    })
}

/// A rate, of which so many bytes stand before its value; with a parameter for its value it is one without a number.
fn rate_front(kind: RateKind, at: usize, value: &[u8]) -> Option<Front>
    requires { at + length value.now ≤ usize.MAX }
    ensures within { IfSome result (λ front. (0 < front.len) × (front.len ≤ at + length value.now)) }
    ensures value { result ≡ rate_front kind at value.now }
{
    let real = real_len(value);
    if real > 0 {
        return Some(Front {
            token: Token::Value(kind, at),
            len: at + real,
        });
    }
    token_after(Token::Other, at, setting_len(value))
}

/// An attribute of a failure that has another distribution than those of `lambda` and `prob`.
fn is_distribution(word: &[u8]) -> bool
    ensures { result ≡ is_distribution word.now }
{
    spells(word, b"rate")
        || spells(word, b"shape")
        || spells(word, b"mean")
        || spells(word, b"stddev")
}

/// An attribute that is read past.
fn is_past(word: &[u8]) -> bool
    ensures { result ≡ is_past word.now }
{
    spells(word, b"dorm")
        || spells(word, b"repair")
        || spells(word, b"cov")
        || spells(word, b"res")
        || spells(word, b"phases")
        || spells(word, b"interval")
}

/// An event that stands for so many: for one alone.
fn is_single(word: &[u8], value: &[u8]) -> bool
    ensures { result ≡ is_single word.now value.now }
{
    if !spells(word, b"repl") {
        return false;
    }
    match value {
        [b'1', ..] => real_len(value) == 1,
        _ => false,
    }
}

/// An attribute that is no rate.
fn past_front(word: &[u8], at: usize, value: &[u8]) -> Option<Front>
    requires { at + length value.now ≤ usize.MAX }
    ensures within { IfSome result (λ front. (0 < front.len) × (front.len ≤ at + length value.now)) }
    ensures value { result ≡ past_front word.now at value.now }
{
    if is_distribution(word) {
        return token_after(Token::Other, at, setting_len(value));
    }
    if is_past(word) {
        return token_after(Token::Dorm, at, setting_len(value));
    }
    if is_single(word, value) {
        return token_after(Token::Dorm, at, real_len(value));
    }
    None
}

/// The attribute of a word, of which so many bytes stand before its value.
#[tactic(auto, unfolding(crate::specs::WideTokens::attribute_front))]
fn attribute_front(word: &[u8], at: usize, value: &[u8]) -> Option<Front>
    requires { at + length value.now ≤ usize.MAX }
    ensures within { IfSome result (λ front. (0 < front.len) × (front.len ≤ at + length value.now)) }
    ensures value { result ≡ attribute_front word.now at value.now }
{
    if spells(word, b"lambda") {
        return rate_front(RateKind::Lambda, at, value);
    }
    if spells(word, b"prob") {
        return rate_front(RateKind::Prob, at, value);
    }
    past_front(word, at, value)
}

// ---- tokens

/// A word, of so many bytes, that is of no dynamic gate: an attribute where a value follows.
fn plain_front(text: &[u8], len: usize, word: &[u8]) -> Option<Front>
    requires some { 0 < len }
    requires within { len ≤ length text.now }
    requires word { word.now ≡ take len text.now }
    ensures within { IfSome result (λ front. (0 < front.len) × (front.len ≤ length text.now)) }
    ensures value { result ≡ plain_front len text.now (value_at text.now) }
{
    match value_at(text) {
        Some(at) => attribute_front(word, at, &text[at..]),
        None => Some(Front {
            token: word_token(word),
            len,
        }),
    }
}

/// The word, of so many bytes, that begins a text.
#[tactic(auto, unfolding(crate::specs::WideTokens::word_front))]
fn word_front(text: &[u8], len: usize) -> Option<Front>
    requires { len ≤ length text.now }
    ensures within { IfSome result (λ front. (0 < front.len) × (front.len ≤ length text.now)) }
    ensures value { result ≡ word_front len text.now }
{
    if len == 0 {
        return None;
    }
    let word = front(text, len);
    if is_dynamic_word(word) {
        return Some(Front {
            token: Token::Dynamic,
            len,
        });
    }
    plain_front(text, len, word)
}

/// The token that begins a text.
#[tactic(auto, unfolding(crate::specs::WideTokens::wide_token_at))]
pub(crate) fn wide_token_at(text: &[u8]) -> Option<Front>
    ensures within { IfSome result (λ front. (0 < front.len) × (front.len ≤ length text.now)) }
    ensures value { result ≡ wide_token_at text.now }
{
    if let [b';', ..] = text {
        return Some(Front {
            token: Token::End,
            len: 1,
        });
    }
    let name = name_len(text);
    if name > 0 {
        return Some(Front {
            token: Token::Name,
            len: name,
        });
    }
    word_front(text, bare_len(text))
}
