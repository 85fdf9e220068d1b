//! Where a page begins, by the text of a token.

ghost use Rattle.std.specs.Prelude.{◌≡◌, ◌++◌, ◌∷◌, List as Items, Some, ℕ, IfNone, IfSome, IsTrue, ◌↔◌, ◌≤◌, drop, length, take};
ghost use Rattle.std.specs.List.{AllByRecursion};
ghost use Rattle.phases.specs.inner.Meets.{IsMemory, Meets, MeetsBut};
ghost use Rattle.cutset_lister.specs.inner.SetText.{HasTokenNames};
ghost use Rattle.page_tokens.specs.Forms.{AreDigits, IsDigit, begins_new};
ghost use Rattle.page_tokens.specs.inner.Shown.{said};
ghost use Rattle.page_tokens.specs.Starts.{SaysStart, fresh, page_start, start_in, token_of};

use cutset_lister::read_token;
use fault_system::FaultSystem;
use phases::Status;
use plain_values::{Code, List, Refusal, is_same};
use std::alloc::Global;

/// What a token says: the digits of a key, in the second version alone, and the text behind them.
#[derive(Drop)]
pub(crate) struct Token<'a> {
    digits: Option<[u8; 64]>,
    rest: &'a [u8],
}

/// The set behind which a page begins by the text of a token, where these are the digits of the key of what it is asked of; none
/// where it begins before all sets.
///
/// K1 where the text begins with `v2:` and 64 lower-case hexadecimal digits and `:` do not come next; StaleToken where they do and
/// are other digits; K1 where the rest, or a text of the first version, is that of no set of events, and is not `start` in the second.
pub fn read_page_token(
    alloc: Global,
    system: &FaultSystem,
    key: &[u8; 64],
    text: &[u8],
) -> Result<Option<List<u32>>, Status>
    requires { HasTokenNames system.now }
    ensures { Meets (page_start key.now text.now system.now) result }
{
    let token = token_of(text)?;
    check_key(key, &token)?;
    find_start(alloc, system, &token)
}

/// What a text says as a token.
fn token_of(text: &[u8]) -> Result<Token<'_>, Status>
    ensures { MeetsBut IsMemory said (token_of text.now) result }
{
    if !begins_new(text) {
        return Ok(Token {
            digits: None,
            rest: text,
        });
    }
    let behind = &text[3..];
    let Some(digits) = digits_before(behind) else {
        return Err(Status::Refused(Refusal::of_words(Code::BadToken)));
    };
    Ok(Token {
        digits: Some(digits),
        rest: &behind[65..],
    })
}

/// Whether a text begins as the tokens of the second version do.
pub(crate) fn begins_new(text: &[u8]) -> bool
    ensures { result ≡ begins_new text.now }
{
    is_same(first_three(text), b"v2:")
}

fn first_three(text: &[u8]) -> &[u8]
    ensures { result.now ≡ take 3 text.now }
{
    if text.len() < 3 {
        return text;
    }
    &text[..3]
}

/// The digits of a key that a text begins with, where `:` comes next.
fn digits_before(text: &[u8]) -> Option<[u8; 64]>
    ensures long { IfSome result (λ _. 65 ≤ length text.now) }
    ensures found { IfSome result (λ digits. (text.now ≡ digits ++ (58 ∷ drop 65 text.now)) × AreDigits digits) }
    ensures none { IfNone result ((digits rest : Items ℕ) → text.now ≡ digits ++ (58 ∷ rest) → AreDigits digits → ⊥) }
{
    if text.len() < 65 {
        return None;
    }
    if text[64] != b':' {
        return None;
    }
    let front = front_of(text);
    if !are_digits(front) {
        return None;
    }
    Some(copied(front))
}

fn front_of(text: &[u8]) -> &[u8]
    requires { 64 ≤ length text.now }
    ensures front { result.now ≡ take 64 text.now }
    ensures size { length result.now ≡ 64 }
{
    &text[..64]
}

fn copied(digits: &[u8]) -> [u8; 64]
    requires { length digits.now ≡ 64 }
    ensures { result ≡ digits.now }
{
    let mut copy = [0u8; 64];
    copy.copy_from_slice(digits);
    copy
}

/// Whether each byte is a lower-case hexadecimal digit.
fn are_digits(bytes: &[u8]) -> bool
    ensures { IsTrue result ↔ AllByRecursion IsDigit bytes.now }
{
    for byte in bytes {
        if !is_digit(*byte) {
            return false;
        }
    }
    true
}

fn is_digit(byte: u8) -> bool
    ensures { IsTrue result ↔ IsDigit byte }
{
    (b'0' <= byte && byte <= b'9') || (b'a' <= byte && byte <= b'f')
}

/// Refuses a token of another key.
fn check_key(key: &[u8; 64], token: &Token<'_>) -> Result<(), Status>
    ensures { Meets (fresh key.now (said token.now)) result }
{
    match token.digits {
        None => Ok(()),
        Some(digits) => check_digits(key, digits),
    }
}

fn check_digits(key: &[u8; 64], digits: [u8; 64]) -> Result<(), Status>
    ensures { (rest : Items ℕ) → Meets (fresh key.now (record { digits = Some digits; rest = rest })) result }
{
    if is_same(&digits, key) {
        Ok(())
    } else {
        Err(Status::StaleToken {
            token: digits,
            input: *key,
        })
    }
}

/// Where the page begins for which the token asks.
fn find_start(
    alloc: Global,
    system: &FaultSystem,
    token: &Token<'_>,
) -> Result<Option<List<u32>>, Status>
    requires { HasTokenNames system.now }
    ensures { Meets (start_in (said token.now) system.now) result }
{
    if says_start(token) {
        return Ok(None);
    }
    let set = read_token(alloc, system, token.rest)?;
    Ok(Some(set))
}

/// Whether the token asks for a page that begins before all sets.
fn says_start(token: &Token<'_>) -> bool
    ensures { IsTrue result ↔ SaysStart (said token.now) }
{
    match token.digits {
        None => false,
        Some(_) => is_same(token.rest, b"start"),
    }
}
