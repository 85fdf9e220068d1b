//! Numbers as texts have them.

ghost use Rattle.std.specs.Prelude.{◌≡◌, ◌≤◌, ◌+◌, length, IfSome, take, drop};
ghost use Rattle.decimals.specs.Numerals.{base_of, based, digits_to, exponent_of, front_len, hash, is_fraction, is_last, is_plain, lowered, number_behind, number_of, places, point, raised, signed, whole_number, worth};
ghost use Rattle.decimals.specs.inner.Figures.{IsRead, IsReadAs};

use crate::digits::{count_digits, is_figure, is_run, small_worth, up_to};
use crate::figures::Figures;
use crate::numeral::Numeral;

impl Numeral {
    /// The number that a text is: digits, a point, an exponent, or digits to a base between two `#`, with `_` between digits.
    /// None where it is no such number, its exponent is above 10,000,000,000, or to a base it has more than 18 zeros.
    pub fn read(text: &[u8]) -> Option<Numeral>
        ensures { IsReadAs (number_of text.now) result }
    {
        let (front, back) = text.split_at(front_len(text));
        if !is_plain(front) {
            return None;
        }
        numeral_behind(front, back)
    }
}

/// How many bytes at the front are digits, `_` and points.
fn front_len(text: &[u8]) -> usize
    ensures within { result ≤ length text.now }
    ensures value { result ≡ front_len text.now }
{
    text.iter()
        .take_while(|byte| is_figure(**byte, 10) || **byte == b'.')
        .count()
}

/// Where the point of some digits stands, or where they end.
fn point(text: &[u8]) -> usize
    ensures within { result ≤ length text.now }
    ensures value { result ≡ point text.now }
{
    text.iter().take_while(|byte| **byte != b'.').count()
}

/// Where the digits to a base end.
fn hash(text: &[u8]) -> usize
    ensures within { result ≤ length text.now }
    ensures value { result ≡ hash text.now }
{
    text.iter().take_while(|byte| **byte != b'#').count()
}

/// Whether a text is a point and a run of digits, or nothing.
fn is_fraction(text: &[u8]) -> bool
    ensures { result ≡ is_fraction text.now }
{
    match text.split_first() {
        Some((_, rest)) => is_run(rest, 10),
        None => true,
    }
}

/// Whether a text is a run of digits, and perhaps a point and a run of digits.
fn is_plain(text: &[u8]) -> bool
    ensures { result ≡ is_plain text.now }
{
    let (front, back) = text.split_at(point(text));
    is_run(front, 10) && is_fraction(back)
}

/// How many digits stand behind the point.
fn places(text: &[u8]) -> u64
    ensures value { result ≡ places text.now }
    ensures few { result ≤ length text.now }
{
    let (_, back) = text.split_at(point(text));
    count_digits(back)
}

/// Whether a text is one byte.
fn is_last(text: &[u8]) -> bool
    ensures { result ≡ is_last text.now }
{
    match text.split_first() {
        Some((_, rest)) => rest.is_empty(),
        None => false,
    }
}

/// What a run of digits is as an exponent.
fn exponent_of(text: &[u8]) -> Option<u64>
    ensures value { result ≡ exponent_of text.now }
    ensures few { IfSome result (λ exponent. exponent ≤ 10000000000) }
{
    up_to(10_000_000_000, is_run(text, 10), small_worth(text, 10))
}

/// The number of these digits, times ten to the one power, divided by ten to the other.
fn numeral(front: &[u8], raised: u64, lowered: u64) -> Numeral
    requires raised { raised ≤ 10000000000 }
    requires lowered { lowered ≤ 10000000000000000000 }
    ensures { IsRead record { digits = worth 10 front.now; raised = raised; lowered = lowered } result }
{
    Numeral {
        figures: Figures::of(front),
        raised,
        lowered,
    }
}

/// The number of these digits with an exponent.
fn raised(front: &[u8], exponent: Option<u64>) -> Option<Numeral>
    requires { IfSome exponent (λ exponent. exponent ≤ 10000000000) }
    ensures { IsReadAs (raised front.now exponent) result }
{
    match exponent {
        Some(exponent) => Some(numeral(front, exponent, places(front))),
        None => None,
    }
}

/// The number of these digits with an exponent that is less than nothing.
fn lowered(front: &[u8], exponent: Option<u64>) -> Option<Numeral>
    requires { IfSome exponent (λ exponent. exponent ≤ 10000000000) }
    ensures { IsReadAs (lowered front.now exponent) result }
{
    match exponent {
        Some(exponent) => Some(numeral(front, 0, places(front) + exponent)),
        None => None,
    }
}

/// The number of these digits with an exponent that has a sign or none.
fn signed(front: &[u8], text: &[u8]) -> Option<Numeral>
    ensures { IsReadAs (signed front.now text.now) result }
{
    match text.split_first() {
        Some((first, rest)) => {
            if *first == b'-' {
                lowered(front, exponent_of(rest))
            } else if *first == b'+' {
                raised(front, exponent_of(rest))
            } else {
                raised(front, exponent_of(text))
            }
        }
        None => None,
    }
}

/// What a run of digits is as a base.
fn base_of(front: &[u8]) -> Option<u64>
    ensures value { result ≡ base_of front.now }
    ensures least { IfSome result (λ base. 2 ≤ base) }
    ensures most { IfSome result (λ base. base ≤ 16) }
{
    match up_to(16, is_run(front, 10), small_worth(front, 10)) {
        Some(base) => { if 2 <= base { Some(base) } else { None } }
        None => None,
    }
}

/// What digits to a base and a last `#` are worth.
fn digits_to(base: u8, text: &[u8]) -> Option<u64>
    requires least { 1 ≤ base }
    requires most { base ≤ 16 }
    ensures value { result ≡ digits_to base text.now }
    ensures few { IfSome result (λ number. number ≤ 1000000000000000000) }
{
    let (front, back) = text.split_at(hash(text));
    up_to(
        1_000_000_000_000_000_000,
        is_run(front, base) && is_last(back),
        small_worth(front, base),
    )
}

/// The number of digits to a base, where there is a base.
fn based(base: Option<u64>, text: &[u8]) -> Option<Numeral>
    requires least { IfSome base (λ base. 2 ≤ base) }
    requires most { IfSome base (λ base. base ≤ 16) }
    ensures { IsReadAs (based base text.now) result }
{
    match base {
        Some(base) => whole_number(digits_to(base as u8, text)),
        None => None,
    }
}

/// A whole number.
fn whole_number(number: Option<u64>) -> Option<Numeral>
    requires { IfSome number (λ number. number ≤ 1000000000000000000) }
    ensures { IsReadAs (whole_number number) result }
{
    match number {
        Some(number) => Some(Numeral {
            figures: Figures::small(number),
            raised: 0,
            lowered: 0,
        }),
        None => None,
    }
}

/// The number of digits with a point or without, and of what stands behind them.
fn numeral_behind(front: &[u8], back: &[u8]) -> Option<Numeral>
    ensures { IsReadAs (number_behind front.now back.now) result }
{
    match back.split_first() {
        Some((first, rest)) => {
            if *first == b'#' {
                based(base_of(front), rest)
            } else if *first == b'e' || *first == b'E' {
                signed(front, rest)
            } else {
                None
            }
        }
        None => Some(numeral(front, 0, places(front))),
    }
}
