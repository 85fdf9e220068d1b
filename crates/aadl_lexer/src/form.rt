//! The longest form at the front of a text.

ghost use Rattle.std.specs.Prelude.{◌≡◌, ◌<◌, ◌≤◌, length, not, ◌||◌, ◌==◌, slice_index, IsTrue, IfOk, IfErr, IfSome};
ghost use Rattle.aadl_syntax.specs.Form.{is_digit, is_hexadecimal};
ghost use Rattle.std.specs.List.{prefix_len};
ghost use Rattle.aadl_lexer.specs.Scan.{after_one, digits_len, fraction_len, signed_len, exponent_len, decimals_len, closed_len, based_len, tail_len, number_len};
ghost use Rattle.aadl_lexer.specs.inner.Scan.{line_len, word_rest_len, text_rest_len, sign_len, is_pair, is_triple, begins_comment, begins_annex, IsOther, IsFront};
ghost use Rattle.aadl_lexer.specs.Tokens.{IsStuck};

use crate::byte::{
    is_blank, is_digit, is_hexadecimal, is_letter, is_letter_or_digit, is_sign_byte,
};
use aadl_syntax::TokenKind;
use plain_values::Code;

/// What stands at the front of a text: a token of a kind, or, at `None`, a blank or a comment; and how long it is.
#[derive(Clone, Copy)]
pub struct Front {
    pub kind: Option<TokenKind>,
    pub len: usize,
}

/// The longest form at the front of a text that is not empty, or why none stands there.
pub fn front_of(annexes: bool, text: &[u8]) -> Result<Front, Code>
    requires { 0 < length text.now }
    ensures ok { IfOk result (λ front. IsFront annexes text.now front) }
    ensures err { IfErr result (λ code. IsStuck annexes code text.now) }
{
    let first = text[0];
    if is_blank(first) {
        return Ok(Front { kind: None, len: 1 });
    }
    if is_letter(first) {
        let len = 1 + word_rest_len(&text[1..]);
        return Ok(Front {
            kind: Some(TokenKind::Word),
            len,
        });
    }
    if is_digit(first) {
        let len = number_len(text);
        return Ok(Front {
            kind: Some(TokenKind::Number),
            len,
        });
    }
    if first == b'"' {
        return text_front(annexes, text);
    }
    sign_front(annexes, text)
}

/// The quoted text at a quote.
fn text_front(annexes: bool, text: &[u8]) -> Result<Front, Code>
    requires some { 0 < length text.now }
    requires quote { slice_index text.now 0 ≡ 34 }
    ensures ok { IfOk result (λ front. IsFront annexes text.now front) }
    ensures err { IfErr result (λ code. IsStuck annexes code text.now) }
{
    match text_rest_len(&text[1..]) {
        Some(len) => Ok(Front {
            kind: Some(TokenKind::Text),
            len: 1 + len,
        }),
        None => Err(Code::OpenString),
    }
}

/// The longest of a comment, a `{**` where annexes may stand, and a sign.
fn sign_front(annexes: bool, text: &[u8]) -> Result<Front, Code>
    requires some { 0 < length text.now }
    requires other { IsOther (slice_index text.now 0) }
    ensures ok { IfOk result (λ front. IsFront annexes text.now front) }
    ensures err { IfErr result (λ code. IsStuck annexes code text.now) }
{
    if begins_comment(text) {
        let len = 2 + line_len(&text[2..]);
        return Ok(Front { kind: None, len });
    }
    if annexes && begins_annex(text) {
        return Ok(Front {
            kind: Some(TokenKind::AnnexBegin),
            len: 3,
        });
    }
    match sign_len(text) {
        0 => Err(Code::BadByte),
        len => Ok(Front {
            kind: Some(TokenKind::Sign),
            len,
        }),
    }
}

fn begins_comment(text: &[u8]) -> bool
    ensures long { IsTrue result → 2 ≤ length text.now }
    ensures value { result ≡ begins_comment text.now }
{
    match text {
        [a, b, ..] => *a == b'-' && *b == b'-',
        _ => false,
    }
}

fn begins_annex(text: &[u8]) -> bool
    ensures { result ≡ begins_annex text.now }
{
    match text {
        [a, b, c, ..] => *a == b'{' && *b == b'*' && *c == b'*',
        _ => false,
    }
}

/// How many bytes stand before the next line feed, or the end.
#[tactic(auto, unfolding(crate::specs::inner::Scan::line_len))]
fn line_len(text: &[u8]) -> usize
    ensures within { result ≤ length text.now }
    ensures value { result ≡ line_len text.now }
{
    text.iter().take_while(|b| **b != b'\n').count()
}

/// How long the letters and digits are, each perhaps after one `_`.
fn word_rest_len(text: &[u8]) -> usize
    ensures within { result ≤ length text.now }
    ensures value { result ≡ word_rest_len text.now }
{
    let mut len = 0;
    while len < text.len() {
        if is_letter_or_digit(text[len]) {
            len += 1;
        } else if text[len] == b'_' && len + 1 < text.len() && is_letter_or_digit(text[len + 1]) {
            len += 2;
        } else {
            break;
        }
    }
    len
}

/// How long a text is after its opening quote, with its closing quote; nothing where it does not end.
fn text_rest_len(text: &[u8]) -> Option<usize>
    ensures within { IfSome result (λ len. len ≤ length text.now) }
    ensures value { result ≡ text_rest_len text.now }
{
    let mut len = 0;
    while len < text.len() {
        match text[len] {
            b'"' => return Some(len + 1),
            b'\\' => len += 2,
            _ => len += 1,
        }
    }
    None
}

/// How long the number is that begins here with a digit.
#[tactic(auto, unfolding(crate::specs::Scan::number_len))]
pub fn number_len(text: &[u8]) -> usize
    ensures within { result ≤ length text.now }
    ensures value { result ≡ number_len text.now }
{
    let whole = digits_len(text);
    whole + tail_len(&text[whole..])
}

/// How long the base's digits, or the fraction and the exponent, are after the first digits of a number.
#[tactic(auto, unfolding(crate::specs::Scan::tail_len))]
fn tail_len(text: &[u8]) -> usize
    ensures within { result ≤ length text.now }
    ensures value { result ≡ tail_len text.now }
{
    match based_len(text) {
        0 => decimals_len(text),
        len => len,
    }
}

/// How long the fraction and the exponent are.
#[tactic(auto, unfolding(crate::specs::Scan::decimals_len))]
fn decimals_len(text: &[u8]) -> usize
    ensures within { result ≤ length text.now }
    ensures value { result ≡ decimals_len text.now }
{
    let fraction = fraction_len(text);
    fraction + exponent_len(&text[fraction..])
}

/// How long the run of digits is, or 0.
#[tactic(auto, unfolding(crate::specs::Scan::digits_len))]
pub fn digits_len(text: &[u8]) -> usize
    ensures within { result ≤ length text.now }
    ensures value { result ≡ digits_len is_digit text.now }
{
    match text {
        [first, rest @ ..] if is_digit(*first) => 1 + digits_or_lines_len(rest),
        _ => 0,
    }
}

/// How many digits and `_` stand at the front.
fn digits_or_lines_len(text: &[u8]) -> usize
    ensures within { result ≤ length text.now }
    ensures value { result ≡ prefix_len (λ b. is_digit b || b == 95) text.now }
{
    text.iter()
        .take_while(|b| is_digit(**b) || **b == b'_')
        .count()
}

/// How long the run of hexadecimal digits is, or 0.
#[tactic(auto, unfolding(crate::specs::Scan::digits_len))]
fn hexadecimal_len(text: &[u8]) -> usize
    ensures within { result ≤ length text.now }
    ensures value { result ≡ digits_len is_hexadecimal text.now }
{
    match text {
        [first, rest @ ..] if is_hexadecimal(*first) => 1 + hexadecimal_or_lines_len(rest),
        _ => 0,
    }
}

/// How many hexadecimal digits and `_` stand at the front.
fn hexadecimal_or_lines_len(text: &[u8]) -> usize
    ensures within { result ≤ length text.now }
    ensures value { result ≡ prefix_len (λ b. is_hexadecimal b || b == 95) text.now }
{
    text.iter()
        .take_while(|b| is_hexadecimal(**b) || **b == b'_')
        .count()
}

/// How long the `.` with its digits is, or 0.
#[tactic(auto, unfolding(crate::specs::Scan::fraction_len))]
fn fraction_len(text: &[u8]) -> usize
    ensures within { result ≤ length text.now }
    ensures value { result ≡ fraction_len text.now }
{
    match text {
        [b'.', rest @ ..] => after_one(digits_len(rest)),
        _ => 0,
    }
}

/// How long the `e` with its sign and its digits is, or 0.
#[tactic(auto, unfolding(crate::specs::Scan::exponent_len))]
fn exponent_len(text: &[u8]) -> usize
    ensures within { result ≤ length text.now }
    ensures value { result ≡ exponent_len text.now }
{
    match text {
        [b'e' | b'E', rest @ ..] => after_one(signed_len(rest)),
        _ => 0,
    }
}

/// How long the digits are with a sign before them or none, or 0.
#[tactic(auto, unfolding(crate::specs::Scan::signed_len))]
fn signed_len(text: &[u8]) -> usize
    ensures within { result ≤ length text.now }
    ensures value { result ≡ signed_len text.now }
{
    match text {
        [b'+' | b'-', rest @ ..] => after_one(digits_len(rest)),
        [_, ..] => digits_len(text),
        [] => 0,
    }
}

/// How long the hexadecimal digits between two `#` are, with these, or 0.
#[tactic(auto, unfolding(crate::specs::Scan::based_len))]
fn based_len(text: &[u8]) -> usize
    ensures within { result ≤ length text.now }
    ensures value { result ≡ based_len text.now }
{
    match text {
        [b'#', rest @ ..] => after_one(closed_len(rest)),
        _ => 0,
    }
}

/// How long the hexadecimal digits are with a `#` after them, or 0.
#[tactic(auto, unfolding(crate::specs::Scan::closed_len))]
fn closed_len(text: &[u8]) -> usize
    ensures within { result ≤ length text.now }
    ensures value { result ≡ closed_len text.now }
{
    let len = hexadecimal_len(text);
    match &text[len..] {
        [b'#', ..] if len > 0 => len + 1,
        _ => 0,
    }
}

/// One byte and a part after it, or 0 where there is no such part.
fn after_one(len: usize) -> usize
    requires { len < usize.MAX }
    ensures { result ≡ after_one len }
{
    match len {
        0 => 0,
        len => 1 + len,
    }
}

/// How long the longest sign is, or 0.
#[tactic(auto, unfolding(crate::specs::inner::Scan::sign_len))]
fn sign_len(text: &[u8]) -> usize
    ensures within { result ≤ length text.now }
    ensures value { result ≡ sign_len text.now }
{
    match text {
        [a, b, c, ..] if is_triple(*a, *b, *c) => 3,
        [a, b, ..] if is_pair(*a, *b) => 2,
        [a, ..] if is_sign_byte(*a) => 1,
        _ => 0,
    }
}

fn is_pair(a: u8, b: u8) -> bool
    ensures { result ≡ is_pair a b }
{
    (a == b':' && b == b':')
        || (a == b'-' && b == b'>')
        || (a == b'=' && b == b'>')
        || (a == b'.' && b == b'.')
}

fn is_triple(a: u8, b: u8, c: u8) -> bool
    ensures { result ≡ is_triple a b c }
{
    (a == b'<' && b == b'-' && c == b'>') || (a == b'+' && b == b'=' && c == b'>')
}
