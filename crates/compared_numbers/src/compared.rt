//! Numbers of texts, compared.

ghost use Rattle.std.specs.Prelude.{◌≡◌, ◌≤◌, ◌↔◌, ◌==◌, ◌||◌, IsTrue, not};
ghost use Rattle.std.specs.List.{list_all};
ghost use Rattle.decimals.specs.Numerals.{Number, number_of};
ghost use Rattle.decimals.specs.inner.Figures.{IsRead};
ghost use Rattle.decimals.specs.Decimals.{decimal_parts, number_parts};
ghost use Rattle.compared_numbers.specs.Compared.{IsAtMost, is_below_one, is_limit, is_plain_text, is_such, is_some_number, is_time};

use crate::powers::is_less;
use decimals::{Decimal, Numeral};

/// Whether so many parts of the whole are at most the number that a text is, if it is one.
pub fn is_at_most(bound: Decimal, text: &[u8], whole: u32) -> bool
    ensures { IsTrue result ↔ IsAtMost whole (number_of text.now) bound }
{
    match Numeral::read(text) {
        None => false,
        Some(number) => is_within(bound, number, whole),
    }
}

/// Whether so many parts of the whole are at most a number.
fn is_within(bound: Decimal, number: Numeral, whole: u32) -> bool
    ensures { (read : Number) → IsRead read number → IsTrue result ↔ decimal_parts read bound ≤ number_parts whole read }
{
    let zeros = number.figures.dropped + number.raised + whole as u64;
    let most = number.figures.mantissa;
    !is_less(
        most,
        zeros,
        bound.mantissa,
        bound.exponent as u64 + number.lowered,
    )
}

/// Whether a text is a number less than 1, without `_` and without a base.
pub fn is_limit(text: &[u8]) -> bool
    ensures { result ≡ is_limit text.now }
{
    is_plain_text(text) && is_number_below_one(text)
}

/// Whether a text is a number above 0, without `_` and without a base.
pub fn is_time(text: &[u8]) -> bool
    ensures { result ≡ is_time text.now }
{
    is_plain_text(text) && is_number_above_nothing(text)
}

/// Whether a text has no `_` and no `#`.
fn is_plain_text(text: &[u8]) -> bool
    ensures { result ≡ is_plain_text text.now }
{
    text.iter().all(|byte| !(*byte == b'_' || *byte == b'#'))
}

fn is_number_below_one(text: &[u8]) -> bool
    ensures { result ≡ is_such is_below_one (number_of text.now) }
{
    match Numeral::read(text) {
        None => false,
        Some(number) => is_below_one(number),
    }
}

/// Whether a number is less than 1.
fn is_below_one(number: Numeral) -> bool
    ensures { (read : Number) → IsRead read number → result ≡ is_below_one read }
{
    let zeros = number.figures.dropped + number.raised;
    is_less(number.figures.mantissa, zeros, 1, number.lowered)
}

fn is_number_above_nothing(text: &[u8]) -> bool
    ensures { result ≡ is_such is_some_number (number_of text.now) }
{
    match Numeral::read(text) {
        None => false,
        Some(number) => is_some_number(number),
    }
}

/// Whether a number is above 0.
fn is_some_number(number: Numeral) -> bool
    ensures { (read : Number) → IsRead read number → result ≡ is_some_number read }
{
    number.figures.mantissa > 0
}
