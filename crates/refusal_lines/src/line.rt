ghost use Rattle.std.specs.Prelude.{◌≡◌, ◌++◌, IfOk, OnOk, codes, decimal};
ghost use Rattle.refusal_lines.specs.Text.{byte_text, limit_text, place_text, refusal_line, text_at};

use itoa::Buffer;
use plain_values::{List, Mem, Name, Place, Refusal, Word};
use std::alloc::Global;
use text_places::line_and_column;

/// The line of a refusal of files of these names and texts.
pub(crate) fn refusal_line(
    alloc: Global,
    files: &[Word],
    texts: &[Name],
    refusal: &Refusal,
) -> Mem<Name>
    ensures { IfOk result (λ line. line ≡ refusal_line files.now texts.now refusal.now) }
{
    let mut line = Vec::new(alloc);
    push_place(alloc, &mut line, files, texts, refusal.place)?;
    line.extend_from_slice(refusal.code.text().as_bytes())?;
    push_limit(&mut line, refusal.limit)?;
    line.push(b'\n')?;
    Ok(List::of(line)?)
}

/// Adds the place of a refusal.
fn push_place(
    alloc: Global,
    line: &mut Vec<u8>,
    files: &[Word],
    texts: &[Name],
    place: Place,
) -> Mem<()>
    ensures { OnOk result (line.new.items ≡ line.old.items ++ place_text files.now texts.now place) }
{
    match place {
        Place::Words => Ok(()),
        Place::Whole(file) => push_word(line, text_at(files, file)),
        Place::At { file, at } => push_byte(
            alloc,
            line,
            text_at(files, file),
            text_at(texts, file),
            at,
        ),
    }
}

/// Adds a word and a blank.
fn push_word(line: &mut Vec<u8>, word: &[u8]) -> Mem<()>
    ensures { OnOk result (line.new.items ≡ line.old.items ++ (word.now ++ codes " ")) }
{
    line.extend_from_slice(word)?;
    line.push(b' ')?;
    Ok(())
}

/// Adds the place of a byte in the text of a file.
fn push_byte(alloc: Global, line: &mut Vec<u8>, file: &[u8], text: &[u8], at: u32) -> Mem<()>
    ensures { OnOk result (line.new.items ≡ line.old.items ++ byte_text file.now text.now at) }
{
    let (number, column) = line_and_column(alloc, text, at)?;
    line.extend_from_slice(file)?;
    push_number(line, number)?;
    push_number(line, column)?;
    line.push(b' ')?;
    Ok(())
}

/// Adds a colon and a number.
fn push_number(line: &mut Vec<u8>, number: u64) -> Mem<()>
    ensures { OnOk result (line.new.items ≡ line.old.items ++ (codes ":" ++ decimal number)) }
{
    let mut digits = Buffer::new();
    line.push(b':')?;
    line.extend_from_slice(digits.format(number).as_bytes())?;
    Ok(())
}

/// Adds the limit that was exceeded, if there is one.
fn push_limit(line: &mut Vec<u8>, limit: u64) -> Mem<()>
    ensures { OnOk result (line.new.items ≡ line.old.items ++ limit_text limit) }
{
    if limit == 0 {
        return Ok(());
    }
    let mut digits = Buffer::new();
    line.extend_from_slice(b" over ")?;
    line.extend_from_slice(digits.format(limit).as_bytes())?;
    Ok(())
}

/// The text of a number; empty where there is none.
fn text_at(texts: &[Name], number: u32) -> &[u8]
    ensures { result.now ≡ text_at texts.now number }
{
    match texts.get(number as usize) {
        Some(text) => text.items(),
        None => &[],
    }
}
