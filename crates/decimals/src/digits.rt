//! Digits of numbers, to a base.

ghost use Rattle.std.specs.Prelude.{ℕ, ◌≡◌, ◌≤◌, min, length, IfSome};
ghost use Rattle.std.specs.List.{count_by, list_all};
ghost use Rattle.decimals.specs.Numerals.{behind, digit_of, is_digit, is_figure, is_run, up_to, worth};

/// What a digit means; 36 where a byte is none.
pub fn digit_of(byte: u8) -> u8
    ensures value { result ≡ digit_of byte }
    ensures few { result ≤ 36 }
{
    if byte >= b'0' && byte <= b'9' {
        byte - b'0'
    } else if byte >= b'A' && byte <= b'F' {
        byte - 55
    } else if byte >= b'a' && byte <= b'f' {
        byte - 87
    } else {
        36
    }
}

/// Whether a byte is a digit to a base.
pub fn is_digit(byte: u8, base: u8) -> bool
    ensures { result ≡ is_digit base byte }
{
    digit_of(byte) + 1 <= base
}

/// Whether a byte is a digit or `_`.
pub fn is_figure(byte: u8, base: u8) -> bool
    ensures { result ≡ is_figure base byte }
{
    is_digit(byte, base) || byte == b'_'
}

/// Whether all bytes are digits or `_`.
fn are_figures(text: &[u8], base: u8) -> bool
    ensures { result ≡ list_all (is_figure base) text.now }
{
    text.iter().all(|byte| is_figure(*byte, base))
}

/// Whether a text is a run of digits.
pub fn is_run(text: &[u8], base: u8) -> bool
    ensures { result ≡ is_run base text.now }
{
    match text.split_first() {
        Some((first, rest)) => is_digit(*first, base) && are_figures(rest, base),
        None => false,
    }
}

/// How many bytes of a text are digits.
pub fn count_digits(text: &[u8]) -> u64
    ensures count { result ≡ count_by (is_digit 10) text.now }
    ensures few { result ≤ length text.now }
{
    let mut count = 0_u64;
    for byte in text {
        if is_digit(*byte, 10) {
            count += 1;
        }
    }
    count
}

/// What a byte adds to a number that is held to 18 digits.
fn small_behind(value: u64, byte: u8, base: u8) -> u64
    requires value { value ≤ 1000000000000000001 }
    requires least { 1 ≤ base }
    requires most { base ≤ 16 }
    ensures few { result ≤ 1000000000000000001 }
    ensures value { (n : ℕ) → value ≡ min 1000000000000000001 n → result ≡ min 1000000000000000001 (behind base n byte) }
{
    if !is_digit(byte, base) {
        return value;
    }
    let more = value * base as u64 + digit_of(byte) as u64;
    more.min(1_000_000_000_000_000_001)
}

/// What the digits of a text are worth to a base, where that has no more than 18 zeros.
pub fn small_worth(text: &[u8], base: u8) -> u64
    requires least { 1 ≤ base }
    requires most { base ≤ 16 }
    ensures { result ≡ min 1000000000000000001 (worth base text.now) }
{
    let mut value = 0_u64;
    for byte in text {
        value = small_behind(value, *byte, base);
    }
    value
}

/// A number that is held to 18 digits, where it passes a test and is no greater than so much.
pub fn up_to(most: u64, test: bool, value: u64) -> Option<u64>
    requires { most ≤ 1000000000000000000 }
    ensures number { (n : ℕ) → value ≡ min 1000000000000000001 n → result ≡ up_to most test n }
    ensures few { IfSome result (λ number. number ≤ most) }
{
    if test && value <= most {
        return Some(value);
    }
    None
}
