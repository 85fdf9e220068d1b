//! Numbers as other tools write them.

ghost use Rattle.std.specs.Prelude.{◌≡◌, ◌≤◌, ◌+◌, ◌<◌, length};
ghost use Rattle.aadl_lexer.specs.Scan.{digits_len};
ghost use Rattle.aadl_syntax.specs.Form.{is_digit, is_letter};
ghost use Rattle.galileo_reader.specs.WideTokens.{bare_len, begins_in, decimals_len, exponent_len, is_bare, is_bare_sign, number_more, open_len, point_len, power_len, real_len, setting_len, sign_len};

use crate::front::figures_len;
use aadl_lexer::{digits_len, is_letter, is_letter_or_digit, number_len};

/// A byte other than a letter and a digit that may stand in a name without quotes.
fn is_bare_sign(b: u8) -> bool
    ensures { result ≡ is_bare_sign b }
{
    match b {
        b'_' | b'-' | b'.' | b':' | b'@' | b'#' | b'$' | b'+' | b'[' | b']' => true,
        _ => false,
    }
}

/// A byte that may stand in a name without quotes.
pub(crate) fn is_bare(b: u8) -> bool
    ensures { result ≡ is_bare b }
{
    is_letter_or_digit(b) || is_bare_sign(b)
}

/// How long the word is that begins a text, or 0.
pub(crate) fn bare_len(text: &[u8]) -> usize
    ensures within { result ≤ length text.now }
    ensures value { result ≡ bare_len text.now }
{
    text.iter().take_while(|b| is_bare(**b)).count()
}

fn sign_len(text: &[u8]) -> usize
    ensures within { result ≤ length text.now }
    ensures value { result ≡ sign_len text.now }
{
    match text {
        [b'+' | b'-', ..] => 1,
        _ => 0,
    }
}

/// How long the digits are with a sign before them or none, or 0.
#[tactic(auto, unfolding(crate::specs::WideTokens::power_len))]
fn power_len(text: &[u8]) -> usize
    ensures within { result ≤ length text.now }
    ensures value { result ≡ power_len text.now }
{
    let sign = sign_len(text);
    let figures = figures_len(&text[sign..]);
    if figures == 0 { 0 } else { sign + figures }
}

/// How long the `e` with its sign and its digits is, or 0.
#[tactic(auto, unfolding(crate::specs::WideTokens::exponent_len))]
fn exponent_len(text: &[u8]) -> usize
    ensures within { result ≤ length text.now }
    ensures value { result ≡ exponent_len text.now }
{
    match text {
        [b'e' | b'E', rest @ ..] => {
            let power = power_len(rest);
            if power == 0 { 0 } else { 1 + power }
        }
        _ => 0,
    }
}

/// Digits, and an exponent or none.
fn decimals_len(text: &[u8]) -> usize
    ensures within { result ≤ length text.now }
    ensures value { result ≡ decimals_len text.now }
{
    let figures = figures_len(text);
    if figures == 0 {
        return 0;
    }
    figures + exponent_len(&text[figures..])
}

/// `.`, digits, and an exponent or none, or 0.
#[tactic(auto, unfolding(crate::specs::WideTokens::point_len))]
fn point_len(text: &[u8]) -> usize
    ensures within { result ≤ length text.now }
    ensures value { result ≡ point_len text.now }
{
    match text {
        [b'.', rest @ ..] => {
            let decimals = decimals_len(rest);
            if decimals == 0 { 0 } else { 1 + decimals }
        }
        _ => 0,
    }
}

/// A `.` without digits behind it, and an exponent or none, or 0.
#[tactic(auto, unfolding(crate::specs::WideTokens::open_len))]
fn open_len(text: &[u8]) -> usize
    ensures within { result ≤ length text.now }
    ensures value { result ≡ open_len text.now }
{
    match text {
        [b'.', rest @ ..] => 1 + exponent_len(rest),
        _ => 0,
    }
}

/// A number as AADL writes it, of so many bytes, and what may stand behind it where it is digits alone.
fn number_more(text: &[u8], len: usize, digits: usize) -> usize
    requires within { len ≤ length text.now }
    requires digits { digits ≡ digits_len is_digit text.now }
    ensures within { result ≤ length text.now }
    ensures value { result ≡ number_more text.now len }
{
    if len == digits {
        return len + open_len(&text[len..]);
    }
    len
}

/// How long the number is that begins a text, or 0: as AADL writes it, or without digits before or behind its point.
#[tactic(auto, unfolding(crate::specs::WideTokens::real_len))]
pub(crate) fn real_len(text: &[u8]) -> usize
    ensures within { result ≤ length text.now }
    ensures value { result ≡ real_len text.now }
{
    let digits = digits_len(text);
    if digits == 0 {
        return point_len(text);
    }
    number_more(text, number_len(text), digits)
}

fn begins_letter(text: &[u8]) -> bool
    ensures { result ≡ begins_in is_letter text.now }
{
    match text {
        [first, ..] => is_letter(*first),
        [] => false,
    }
}

/// How long the number or the name of a parameter is that begins a text, or 0.
#[tactic(auto, unfolding(crate::specs::WideTokens::setting_len))]
pub(crate) fn setting_len(text: &[u8]) -> usize
    ensures within { result ≤ length text.now }
    ensures value { result ≡ setting_len text.now }
{
    let real = real_len(text);
    if real > 0 {
        return real;
    }
    if begins_letter(text) {
        bare_len(text)
    } else {
        0
    }
}
