//! The line of a byte.

ghost use Rattle.std.specs.Prelude.{◌≡◌, ◌≤◌, drop, length, take};
ghost use Rattle.std.specs.List.{after_last, count_by};
ghost use Rattle.std.specs.Io.BufRead.{strip_last};
ghost use Rattle.text_places.specs.Places.{first_line, is_feed};

/// The text before a byte; all of it where it has no such byte.
pub(crate) fn text_before(text: &[u8], byte: usize) -> &[u8]
    ensures { result.now ≡ take byte text.now }
{
    if byte < text.len() {
        &text[..byte]
    } else {
        text
    }
}

/// How many line feeds a text has.
pub(crate) fn feeds_of(text: &[u8]) -> usize
    ensures count { result ≡ count_by is_feed text.now }
    ensures most { result ≤ length text.now }
{
    text.iter().filter(|byte| **byte == b'\n').count()
}

/// Where the last line of a text begins.
pub(crate) fn line_begin(text: &[u8]) -> usize
    ensures value { drop result text.now ≡ after_last is_feed text.now }
    ensures within { result ≤ length text.now }
{
    let mut begin: usize = 0;
    for (number, byte) in text.iter().enumerate() {
        if *byte == b'\n' {
            begin = number + 1;
        }
    }
    begin
}

/// The line with which a text begins.
pub(crate) fn first_line(text: &[u8]) -> &[u8]
    ensures { result.now ≡ first_line text.now }
{
    for (number, byte) in text.iter().enumerate() {
        if *byte == b'\n' {
            return without_return(&text[..number]);
        }
    }
    text
}

/// A line without the carriage return at its end, if it has one.
fn without_return(line: &[u8]) -> &[u8]
    ensures { result.now ≡ strip_last 13 line.now }
{
    match line {
        [front @ .., last] if *last == b'\r' => front,
        _ => line,
    }
}
