ghost use Rattle.std.specs.Prelude.{◌≡◌, ◌++◌, ◌∷◌, [], IfOk, OnOk, decimal, option_copied, slice_index_or};
ghost use Rattle.finding_lines.specs.Text.{line_text, place_in, place_text, review_text, spot_text};

use finding_places::ReviewLine;
use itoa::Buffer;
use plain_values::{List, Mem, Name, Spot, Word};
use std::alloc::Global;
use text_places::LineTable;

/// The text of a review with these lines, of a model in files of these names and texts: each line, behind it the file, the line and the
/// column of what it names, where such a place is known; and the line `end`.
pub fn review_text(
    alloc: Global,
    files: &[Word],
    texts: &[Name],
    lines: &List<ReviewLine>,
) -> Mem<Vec<u8>>
    ensures { IfOk result (λ text. text.items ≡ review_text files.now texts.now lines.now) }
{
    let tables = tables_of(alloc, texts)?;
    let mut text = Vec::new(alloc);
    for line in lines.items() {
        push_line(&mut text, files, tables.items(), line)?;
    }
    text.extend_from_slice(b"end\n")?;
    Ok(text)
}

/// A table of lines for each text.
fn tables_of(alloc: Global, texts: &[Name]) -> Mem<List<LineTable<'_>>>
    ensures { IfOk result (λ tables. tables ≡ texts.now) }
{
    let mut tables = List::new(alloc);
    for text in texts {
        tables.push(LineTable::of(alloc, text.items())?)?;
    }
    Ok(tables)
}

/// Adds a line, with the place of what it names.
fn push_line(text: &mut Vec<u8>, files: &[Word], tables: &[LineTable], line: &ReviewLine) -> Mem<()>
    ensures { OnOk result (text.new.items ≡ text.old.items ++ line_text files.now tables.now line.now) }
{
    text.extend_from_slice(line.text.items())?;
    push_spot(text, files, tables, line.spot)?;
    text.push(b'\n')?;
    Ok(())
}

/// Adds where a line's finding stands, if it is known.
fn push_spot(
    text: &mut Vec<u8>,
    files: &[Word],
    tables: &[LineTable],
    spot: Option<Spot>,
) -> Mem<()>
    ensures { OnOk result (text.new.items ≡ text.old.items ++ spot_text files.now tables.now spot) }
{
    match spot {
        Some(spot) => push_in(
            text,
            file_word(files, spot.file),
            tables.get(spot.file as usize),
            spot.at,
        ),
        None => Ok(()),
    }
}

/// Adds the place of a byte in a file, if its text is there.
fn push_in(text: &mut Vec<u8>, file: &[u8], table: Option<&LineTable>, at: u32) -> Mem<()>
    ensures { OnOk result (text.new.items ≡ text.old.items ++ place_in file.now (option_copied table.entry) at) }
{
    match table {
        Some(table) => push_place(text, file, table, at),
        None => Ok(()),
    }
}

/// Adds a blank and the place of a byte.
fn push_place(text: &mut Vec<u8>, file: &[u8], table: &LineTable, at: u32) -> Mem<()>
    ensures { OnOk result (text.new.items ≡ text.old.items ++ place_text file.now table.now at) }
{
    let (line, column) = table.at(at);
    text.push(b' ')?;
    text.extend_from_slice(file)?;
    push_number(text, line)?;
    push_number(text, column)?;
    Ok(())
}

/// Adds a colon and a number.
fn push_number(text: &mut Vec<u8>, number: u64) -> Mem<()>
    ensures { OnOk result (text.new.items ≡ text.old.items ++ (58 ∷ decimal number)) }
{
    let mut digits = Buffer::new();
    text.push(b':')?;
    text.extend_from_slice(digits.format(number).as_bytes())?;
    Ok(())
}

/// The file word of a number; empty where there is none.
fn file_word(files: &[Word], number: u32) -> &[u8]
    ensures { result.now ≡ slice_index_or files.now number [] }
{
    match files.get(number as usize) {
        Some(file) => file.items(),
        None => &[],
    }
}
