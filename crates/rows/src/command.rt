//! Rows that run the tool, with files and sinks in memory.

use cut_reports::{EventUse, FailingReport, OrderProfile, SinglePoints};
use explained_calls::run_explained;
use fta_outside::{MemoryFiles, MemorySink, Report};
use plain_values::{List, Mem, Word};
use row_reader::{Row, Text, Tool, cut, has_key, head_and_body, number_of};
use std::alloc::Global;

/// The tool, with files and sinks in memory.
#[derive(Clone, Copy)]
pub struct InMemory;

impl Tool for InMemory {
    fn holds(&self, row: &Row, wanted: &mut Text, found: &mut Text) -> bool {
        put_wanted(row, wanted);
        let mut scratch = Text::new(row.texts.alloc());
        if put_found(row.texts.alloc(), row, &mut scratch, found).is_err() {
            found.refuse("memory is wanting");
        }
        found.refuse_as(&scratch);
        if wants_front(row) {
            return found.bytes().starts_with(wanted.bytes());
        }
        found.bytes() == wanted.bytes()
    }
}

/// Writes what the row wants: the exit status, the output, and what stands on the error stream.
fn put_wanted(row: &Row, out: &mut Text) {
    if !row.put_first(b"exit:", out) {
        out.refuse("the row has no line `exit:`");
    }
    out.put(b"\nout:\n");
    put_stream(row, b"out", out);
    out.put(b"err:\n");
    put_stream(row, b"err", out);
}

/// Whether the row wants no more than a front of what stands on the error stream.
fn wants_front(row: &Row) -> bool {
    has_key(row.lines(b"err"), b"err begins:")
}

fn put_stream(row: &Row, key: &[u8], out: &mut Text) {
    for line in row.lines(key) {
        if line.starts_with(key) {
            let (head, body) = head_and_body(line);
            row.put(body, out);
            if head == key {
                out.put(b"\n");
            }
        }
    }
}

/// Runs the words of the row, and writes what came. What goes wrong in its lines is kept in mind in `scratch`.
fn put_found(alloc: Global, row: &Row, scratch: &mut Text, found: &mut Text) -> Mem<()> {
    let words = words_of(alloc, row, scratch)?;
    let mut files = files_of(alloc, row, scratch)?;
    put_run(alloc, row, words.as_slice(), &mut files, scratch, found)
}

fn put_run(
    alloc: Global,
    row: &Row,
    words: &[Word],
    files: &mut MemoryFiles,
    scratch: &mut Text,
    found: &mut Text,
) -> Mem<()> {
    let mut out = sink_of(alloc, row, scratch)?;
    let mut err = MemorySink::new(
        alloc,
        numbers_of(alloc, row, b"failing lines:", scratch)?,
        5,
        4096,
    )?;
    let mut reports: Vec<Box<dyn Report>> = Vec::new(alloc);
    if has_own_reports(row, scratch) {
        reports.push(Box::new(alloc, OrderProfile::new(alloc))?)?;
        reports.push(Box::new(alloc, EventUse::new(alloc))?)?;
        reports.push(Box::new(alloc, SinglePoints::new(alloc))?)?;
    }
    if has_key(row.lines(b"failing report"), b"failing report:") {
        let failing = numbers_of(alloc, row, b"failing report:", scratch)?;
        reports.push(Box::new(alloc, FailingReport::new(alloc, failing))?)?;
    }
    let status = run_explained(alloc, words, files, &mut out, &mut err, &mut reports);
    found.put_number(u64::from(status.exit()));
    found.put(b"\nout:\n");
    found.put(out.bytes());
    found.put(b"err:\n");
    found.put(err.bytes());
    Ok(())
}

/// Whether the three reports of the tool's own are handed in.
fn has_own_reports(row: &Row, scratch: &mut Text) -> bool {
    if !row.put_first(b"reports:", scratch) {
        return true;
    }
    if scratch.bytes() != b"none".as_slice() {
        scratch.refuse("the handed-in reports are the own ones or `none`");
    }
    false
}

/// The sink of the output.
fn sink_of(alloc: Global, row: &Row, scratch: &mut Text) -> Mem<MemorySink> {
    let piece = size_of(row, b"piece:", 64, scratch);
    let room = size_of(row, b"room:", 65536, scratch);
    let writes = numbers_of(alloc, row, b"failing writes:", scratch)?;
    MemorySink::new(alloc, writes, piece, room)
}

/// A word, or the name of a file, of these bytes.
fn word_of(alloc: Global, bytes: &[u8]) -> Mem<Word> {
    List::of(Vec::from_slice(alloc, bytes)?)
}

/// The words of the lines `words:`, which blanks part, and of the lines `word:`, of which each gives one.
fn words_of(alloc: Global, row: &Row, scratch: &mut Text) -> Mem<Vec<Word>> {
    let mut words = Vec::new(alloc);
    for line in row.lines(b"word") {
        if line.starts_with(b"word") {
            add_words(alloc, row, line, &mut words, scratch)?;
        }
    }
    Ok(words)
}

fn add_words(
    alloc: Global,
    row: &Row,
    line: &[u8],
    words: &mut Vec<Word>,
    scratch: &mut Text,
) -> Mem<()> {
    let (head, body) = head_and_body(line);
    scratch.clear();
    row.put(body, scratch);
    if head == b"word".as_slice() {
        words.push(word_of(alloc, scratch.bytes())?)?;
        return Ok(());
    }
    for piece in scratch.bytes().split(|b| *b == b' ') {
        if !piece.is_empty() {
            words.push(word_of(alloc, piece)?)?;
        }
    }
    Ok(())
}

/// The files of the row and of its scene; of two of one name the first counts, which is the row's.
fn files_of(alloc: Global, row: &Row, scratch: &mut Text) -> Mem<MemoryFiles> {
    let mut files = Vec::new(alloc);
    add_files(alloc, row, row.own, &mut files, scratch)?;
    add_files(alloc, row, row.scene, &mut files, scratch)?;
    let failing = numbers_of(alloc, row, b"failing reads:", scratch)?;
    Ok(MemoryFiles::new(files, failing))
}

fn add_files(
    alloc: Global,
    row: &Row,
    lines: &[&[u8]],
    files: &mut Vec<(Word, Vec<u8>)>,
    trouble: &mut Text,
) -> Mem<()> {
    for line in lines {
        let (head, body) = head_and_body(line);
        if let Some(name) = head.strip_prefix(b"file ") {
            let text = row.text(body);
            trouble.refuse_as(&text);
            files.push((word_of(alloc, name)?, text.into_bytes()))?;
        }
    }
    Ok(())
}

/// The numbers in the first line of a key.
fn numbers_of(alloc: Global, row: &Row, key: &[u8], scratch: &mut Text) -> Mem<Vec<u64>> {
    let mut numbers = Vec::new(alloc);
    if row.put_first(key, scratch) {
        let mut rest = scratch.bytes();
        for _ in 0..scratch.bytes().len() {
            let (word, more) = cut(rest, b" ");
            match number_of(word) {
                Some(number) => numbers.push(number)?,
                None => break,
            }
            rest = more;
        }
        if !rest.is_empty() {
            scratch.refuse("a call that fails is no number");
        }
    }
    Ok(numbers)
}

/// The number in the first line of a key, or another one where there is no such line.
fn size_of(row: &Row, key: &[u8], default: usize, scratch: &mut Text) -> usize {
    if !row.put_first(key, scratch) {
        return default;
    }
    match number_of(scratch.bytes()) {
        Some(number) => number as usize,
        None => {
            scratch.refuse("a size is no number");
            default
        }
    }
}
