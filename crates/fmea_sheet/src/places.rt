//! Where the declarations of events stand.

ghost use Rattle.std.specs.Prelude.{◌≡◌, ◌++◌, ◌∷◌, [], IfOk, OnOk, decimal, option_and_then, option_copied, slice_get, slice_index_or};
ghost use Rattle.fmea_sheet.specs.Text.{place_in, place_of, place_text, spot_text};

use event_origins::EventOrigin;
use itoa::Buffer;
use plain_values::{List, Mem, Name, Spot, Word};
use std::alloc::Global;
use text_places::LineTable;

/// A table of lines for each text.
pub(crate) fn tables_of(alloc: Global, texts: &[Name]) -> Mem<List<LineTable<'_>>>
    ensures { IfOk result (λ tables. tables ≡ texts.now) }
{
    let mut tables = List::new(alloc);
    for text in texts {
        tables.push(LineTable::of(alloc, text.items())?)?;
    }
    Ok(tables)
}

/// Where the declaration of an event stands; empty where that is not known.
pub(crate) fn place_of(
    alloc: Global,
    files: &[Word],
    tables: &[LineTable],
    origins: &[EventOrigin],
    event: u32,
) -> Mem<Name>
    ensures { IfOk result (λ place. place ≡ place_of files.now tables.now origins.now event) }
{
    spot_text(alloc, files, tables, spot_of(origins, event))
}

/// The spot of the declaration of an event, if it has one.
fn spot_of(origins: &[EventOrigin], event: u32) -> Option<Spot>
    ensures { result ≡ option_and_then (λ origin. origin.spot) (slice_get origins.now event) }
{
    origins.get(event as usize)?.spot
}

/// Where that stands which has a spot.
fn spot_text(alloc: Global, files: &[Word], tables: &[LineTable], spot: Option<Spot>) -> Mem<Name>
    ensures { IfOk result (λ place. place ≡ spot_text files.now tables.now spot) }
{
    match spot {
        Some(spot) => place_in(
            alloc,
            file_word(files, spot.file),
            tables.get(spot.file as usize),
            spot.at,
        ),
        None => Ok(List::new(alloc)),
    }
}

/// The place of a byte in a file, if its text is there.
fn place_in(alloc: Global, file: &[u8], table: Option<&LineTable>, at: u32) -> Mem<Name>
    ensures { IfOk result (λ place. place ≡ place_in file.now (option_copied table.entry) at) }
{
    match table {
        Some(table) => place_text(alloc, file, table, at),
        None => Ok(List::new(alloc)),
    }
}

/// The place of a byte in a file.
fn place_text(alloc: Global, file: &[u8], table: &LineTable, at: u32) -> Mem<Name>
    ensures { IfOk result (λ place. place ≡ place_text file.now table.now at) }
{
    let (line, column) = table.at(at);
    let mut text = Vec::from_slice(alloc, file)?;
    push_number(&mut text, line)?;
    push_number(&mut text, column)?;
    List::of(text)
}

/// Adds a colon and a number.
fn push_number(text: &mut Vec<u8>, number: u64) -> Mem<()>
    ensures { OnOk result (text.new.items ≡ text.old.items ++ (58 ∷ decimal number)) }
{
    let mut digits = Buffer::new();
    text.push(b':')?;
    text.extend_from_slice(digits.format(number).as_bytes())?;
    Ok(())
}

/// The file word of a number; empty where there is none.
fn file_word(files: &[Word], number: u32) -> &[u8]
    ensures { result.now ≡ slice_index_or files.now number [] }
{
    match files.get(number as usize) {
        Some(file) => file.items(),
        None => &[],
    }
}
