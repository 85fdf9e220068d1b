//! The text on a place.

ghost use Rattle.std.specs.Prelude.{◌≡◌, ◌++◌, IfOk, OnOk, codes, decimal};
ghost use Rattle.text_places.specs.Places.{column, line_number, place_text};

use crate::columns::{column_of, push_caret, reached};
use crate::lines::{feeds_of, first_line, line_begin, text_before};
use itoa::Buffer;
use plain_values::Mem;
use std::alloc::Global;

/// The place of a byte in the text of a file: a line `FILE:LINE:COLUMN`, the line of text, and a line with a caret below the byte.
///
/// Lines end with a line feed; a carriage return right before it is not written. Lines and columns are counted from 1, columns as
/// characters of UTF-8, each tab as one; where the text is not UTF-8, each byte but those from 128 to 191 begins a character. The
/// end of the text, which is the place of each byte behind it too, stands one column behind the last character of the last line,
/// and so does a line feed, and a carriage return before it, in its line.
pub fn place_text(alloc: Global, file: &[u8], text: &[u8], byte: u32) -> Mem<Vec<u8>>
    ensures { IfOk result (λ place. place.items ≡ place_text file.now text.now byte) }
{
    let before = text_before(text, byte as usize);
    let begin = line_begin(before);
    let line = first_line(&text[begin..]);
    let reached = reached(alloc, line, before.len() - begin)?;
    let mut place = Vec::new(alloc);
    push_numbers(
        &mut place,
        file,
        feeds_of(before) as u64 + 1,
        column_of(reached.as_slice()) as u64,
    )?;
    push_line(&mut place, line)?;
    push_caret(&mut place, reached.as_slice())?;
    place.push(b'\n')?;
    Ok(place)
}

/// The line and the column of a byte in a text, as `place_text` counts them.
pub fn line_and_column(alloc: Global, text: &[u8], byte: u32) -> Mem<(u64, u64)>
    ensures line { IfOk result (λ found. found.0 ≡ line_number text.now byte) }
    ensures column { IfOk result (λ found. found.1 ≡ column text.now byte) }
{
    let before = text_before(text, byte as usize);
    let begin = line_begin(before);
    let rest = &text[begin..];
    let line = first_line(rest);
    let reached = reached(alloc, line, before.len() - begin)?;
    Ok((
        feeds_of(before) as u64 + 1,
        column_of(reached.as_slice()) as u64,
    ))
}

/// Adds the line of a file, a line and a column.
fn push_numbers(text: &mut Vec<u8>, file: &[u8], line: u64, column: u64) -> Mem<()>
    ensures { OnOk result (text.new.items ≡ text.old.items ++ file.now ++ codes ":" ++ decimal line ++ codes ":" ++ decimal column ++ codes "\n") }
{
    text.extend_from_slice(file)?;
    push_number(text, line)?;
    push_number(text, column)?;
    text.push(b'\n')?;
    Ok(())
}

/// Adds a colon and a number.
fn push_number(text: &mut Vec<u8>, number: u64) -> Mem<()>
    ensures { OnOk result (text.new.items ≡ text.old.items ++ codes ":" ++ decimal number) }
{
    let mut digits = Buffer::new();
    text.push(b':')?;
    text.extend_from_slice(digits.format(number).as_bytes())?;
    Ok(())
}

/// Adds a line and a line feed.
fn push_line(text: &mut Vec<u8>, line: &[u8]) -> Mem<()>
    ensures { OnOk result (text.new.items ≡ text.old.items ++ line.now ++ codes "\n") }
{
    text.extend_from_slice(line)?;
    text.push(b'\n')?;
    Ok(())
}
