ghost use Rattle.std.specs.Prelude.{◌≡◌, ◌<◌, ◌≤◌, ◌++◌, ◌↔◌, ℕ, List, IsSome, IsTrue, IfSome, MatchOption, length, false};
ghost use Rattle.aadl_syntax.specs.Form.{IsWord};
ghost use Rattle.fta_words.specs.inner.Reading.{follows_well};

use aadl_lexer::{is_letter, is_letter_or_digit};

/// What stands before the first sign in a text and what stands after it; without the sign, the whole text.
pub(crate) fn split_once<'a>(text: &'a [u8], sign: &[u8]) -> (&'a [u8], Option<&'a [u8]>)
    requires { 0 < length sign.now }
    ensures parts { MatchOption result.1 (result.0.now ≡ text.now) (λ after. text.now ≡ result.0.now ++ (sign.now ++ after.now)) }
    ensures first { (front back : List ℕ) → text.now ≡ front ++ (sign.now ++ back) → IsSome result.1 × (length result.0.now ≤ length front) }
    ensures shorter { IfSome result.1 (λ after. length after.now < length text.now) }
{
    for at in 0..text.len() {
        if text[at..].starts_with(sign) {
            return (&text[..at], Some(&text[at + sign.len()..]));
        }
    }
    (text, None)
}

/// Whether a text is a letter, and then letters and digits, each perhaps after one `_`.
pub(crate) fn is_identifier(text: &[u8]) -> bool
    ensures { IsTrue result ↔ IsWord text.now }
{
    match text.split_first() {
        None => false,
        Some((first, others)) => is_letter(*first) && follows_well(others),
    }
}

fn follows_well(bytes: &[u8]) -> bool
    ensures { result ≡ follows_well false bytes.now }
{
    let mut waiting = false;
    for byte in bytes {
        if is_letter_or_digit(*byte) {
            waiting = false;
        } else if *byte == b'_' && !waiting {
            waiting = true;
        } else {
            return false;
        }
    }
    !waiting
}
