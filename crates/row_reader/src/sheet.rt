//! A file of rows, line by line.

use crate::expand::{Texts, cut, number_of};
use crate::galileo::{Wanted, put_galileo};
use crate::reading::{Reading, put_reading};
use crate::report::{Line, Report};
use crate::row::{Row, head_and_body};
use crate::text::Text;
use std::alloc::{AllocError, Global};

/// What a row tries.
#[derive(Clone, Copy)]
enum Trial {
    Command,
    Read(Reading),
    Galileo(Wanted),
}

/// The tool that rows run.
pub trait Tool {
    /// Whether the tool answers to a row as it wants. Writes what is wanted, and what was found.
    fn holds(&self, row: &Row, wanted: &mut Text, found: &mut Text) -> bool;
}

/// What may stand before the `:` of a line that begins no item; besides these `file` and a name.
const KEYS: [&[u8]; 17] = [
    b"words",
    b"word",
    b"exit",
    b"out",
    b"out part",
    b"err",
    b"err part",
    b"err begins",
    b"failing reads",
    b"failing writes",
    b"failing lines",
    b"reports",
    b"failing report",
    b"piece",
    b"room",
    b"try",
    b"each",
];

/// Runs the rows of a file, and names its texts.
pub(crate) fn run_sheet<T: Tool>(
    tool: &T,
    alloc: Global,
    texts: &mut Texts,
    file: &[u8],
    bytes: &[u8],
    report: &mut Report,
) -> Result<(), AllocError> {
    let mut lines = Vec::new(alloc);
    for line in bytes.split(|b| *b == b'\n') {
        lines.push(line)?;
    }
    run_lines(tool, texts, file, lines.as_slice(), report);
    Ok(())
}

/// Runs the items, each of which goes on until the next begins.
fn run_lines<T: Tool>(
    tool: &T,
    texts: &mut Texts,
    file: &[u8],
    lines: &[&[u8]],
    report: &mut Report,
) {
    let mut scene = (0usize, 0usize);
    let mut start = 0usize;
    for end in 1..=lines.len() {
        if ends_item(lines, end) {
            let item = lines.get(start..end).unwrap_or(&[]);
            let line = Line {
                file,
                number: start as u64,
            };
            if begins_with(item, b"scene") {
                scene = (start, end);
            }
            let shared = lines.get(scene.0..scene.1).unwrap_or(&[]);
            run_item(tool, texts, line, shared, item, report);
            start = end;
        }
    }
}

fn ends_item(lines: &[&[u8]], end: usize) -> bool {
    match lines.get(end) {
        None => true,
        Some(line) => begins_item(first_word(line)),
    }
}

/// The first word of a line that has a `:` behind it.
fn first_word<'a>(line: &'a [u8]) -> &'a [u8] {
    let (head, _) = head_and_body(line);
    let (word, _) = cut(head, b" ");
    word
}

fn begins_with(item: &[&[u8]], word: &[u8]) -> bool {
    match item.first() {
        Some(line) => first_word(line) == word,
        None => false,
    }
}

fn begins_item(word: &[u8]) -> bool {
    word == b"text".as_slice() || word == b"scene".as_slice() || trial_of(word).is_some()
}

fn trial_of(word: &[u8]) -> Option<Trial> {
    match word {
        b"row" => Some(Trial::Command),
        b"tokens" => Some(Trial::Read(Reading::Tokens)),
        b"library" => Some(Trial::Read(Reading::Library)),
        b"clause" => Some(Trial::Read(Reading::Clause)),
        b"core" => Some(Trial::Read(Reading::Core)),
        b"tree" => Some(Trial::Galileo(Wanted::Tree)),
        b"sets" => Some(Trial::Galileo(Wanted::Sets)),
        [b'G', b'1'..=b'6'] => Some(Trial::Galileo(Wanted::Flaw)),
        _ => None,
    }
}

fn run_item<T: Tool>(
    tool: &T,
    texts: &mut Texts,
    line: Line,
    scene: &[&[u8]],
    item: &[&[u8]],
    report: &mut Report,
) {
    check_lines(line, item, report);
    if begins_with(item, b"text") {
        return name_text(texts, line, item, report);
    }
    let Some(first) = item.first() else { return };
    let Some(trial) = trial_of(first_word(first)) else {
        return;
    };
    let row = Row {
        texts,
        scene,
        own: item,
        hole: b"",
    };
    run_rows(tool, &row, trial, line, report);
}

/// The line so many behind another.
fn line_behind<'a>(line: Line<'a>, count: usize) -> Line<'a> {
    Line {
        file: line.file,
        number: line.number.saturating_add(count as u64).saturating_add(1),
    }
}

/// Counts each line that is none of an item as a row that can not be read.
fn check_lines(line: Line, item: &[&[u8]], report: &mut Report) {
    for (k, text) in item.iter().enumerate() {
        if !is_line(text) {
            report.fail_to_read(line_behind(line, k), text, "no line begins so");
        }
    }
}

fn is_line(line: &[u8]) -> bool {
    match line {
        [] | [b'#' | b'|' | b'=', ..] => true,
        _ => begins_item(first_word(line)) || is_key(line),
    }
}

fn is_key(line: &[u8]) -> bool {
    let (head, _) = head_and_body(line);
    if head.len() == line.len() {
        return false;
    }
    for key in &KEYS {
        if head == *key {
            return true;
        }
    }
    head.starts_with(b"file ")
}

/// Names the text of an item.
fn name_text(texts: &mut Texts, line: Line, item: &[&[u8]], report: &mut Report) {
    let Some(first) = item.first() else { return };
    let (head, body) = head_and_body(first);
    let (_, name) = cut(head, b" ");
    let row = Row {
        texts,
        scene: &[],
        own: item,
        hole: b"",
    };
    let mut text = row.text(body);
    row.put_text_lines(&mut text);
    if let Some(why) = text.trouble() {
        return report.fail_to_read(line_behind(line, 0), name, why);
    }
    if !texts.name(name, text) {
        report.fail_to_read(
            line_behind(line, 0),
            name,
            "the name is taken, or memory is wanting",
        );
    }
}

/// Runs a row once, or once for each text of its lines `try:` and each number of its lines `each:`.
fn run_rows<T: Tool>(tool: &T, row: &Row, trial: Trial, line: Line, report: &mut Report) {
    let mut tried = false;
    for (k, text) in row.own.iter().enumerate() {
        let (head, body) = head_and_body(text);
        if head == b"try".as_slice() {
            run_with(tool, row, trial, line_behind(line, k), body, report);
            tried = true;
        }
        if head == b"each".as_slice() {
            run_each(tool, row, trial, line_behind(line, k), body, report);
            tried = true;
        }
    }
    if !tried {
        run_with(tool, row, trial, line_behind(line, 0), b"", report);
    }
}

/// Runs a row once for each number that stands in a line `each:`.
fn run_each<T: Tool>(
    tool: &T,
    row: &Row,
    trial: Trial,
    line: Line,
    numbers: &[u8],
    report: &mut Report,
) {
    for word in numbers.split(|b| *b == b' ') {
        run_word(tool, row, trial, line, word, report);
    }
}

/// Runs a row once for each number of a word, as 3 or 5-17.
fn run_word<T: Tool>(
    tool: &T,
    row: &Row,
    trial: Trial,
    line: Line,
    word: &[u8],
    report: &mut Report,
) {
    let (low, high) = cut(word, b"-");
    let high = if high.is_empty() { low } else { high };
    let (Some(low), Some(high)) = (number_of(low), number_of(high)) else {
        return report.fail_to_read(line, word, "after `each` stand numbers, as 3 or 5-17");
    };
    for number in low..=high {
        let mut hole = Text::new(row.texts.alloc());
        hole.put_number(number);
        run_with(tool, row, trial, line, hole.bytes(), report);
    }
}

fn run_with<T: Tool>(
    tool: &T,
    row: &Row,
    trial: Trial,
    line: Line,
    hole: &[u8],
    report: &mut Report,
) {
    let row = Row {
        texts: row.texts,
        scene: row.scene,
        own: row.own,
        hole,
    };
    let mut wanted = Text::new(row.texts.alloc());
    let mut found = Text::new(row.texts.alloc());
    let holds = match trial {
        Trial::Command => tool.holds(&row, &mut wanted, &mut found),
        Trial::Read(reading) => holds_in_reading(&row, reading, &mut wanted, &mut found),
        Trial::Galileo(answer) => holds_in_galileo(&row, answer, &mut wanted, &mut found),
    };
    if holds && wanted.trouble().is_none() && found.trouble().is_none() {
        report.hold();
    } else {
        report.fail(line, hole, &wanted, &found);
    }
}

fn holds_in_reading(row: &Row, reading: Reading, wanted: &mut Text, found: &mut Text) -> bool {
    let Some(first) = row.own.first() else {
        return false;
    };
    let (head, body) = head_and_body(first);
    let (_, answer) = cut(head, b" ");
    row.put(answer, wanted);
    if answer.is_empty() {
        row.put_value_lines(wanted);
    }
    let mut text = row.text(body);
    row.put_text_lines(&mut text);
    found.refuse_as(&text);
    put_reading(
        row.texts.alloc(),
        reading,
        text.bytes(),
        answer.is_empty(),
        found,
    );
    is_answer(wanted.bytes(), found.bytes())
}

/// Whether a text in Galileo form comes to what the row wants of it.
fn holds_in_galileo(row: &Row, answer: Wanted, wanted: &mut Text, found: &mut Text) -> bool {
    let Some(first) = row.own.first() else {
        return false;
    };
    let (head, body) = head_and_body(first);
    match answer {
        Wanted::Flaw => row.put(head, wanted),
        Wanted::Tree | Wanted::Sets => row.put_value_lines(wanted),
    }
    let mut text = row.text(body);
    row.put_text_lines(&mut text);
    found.refuse_as(&text);
    put_galileo(row.texts.alloc(), answer, text.bytes(), found);
    wanted.bytes() == found.bytes()
}

/// Whether an answer is the one that is wanted; `somewhere` is the byte of any syntax error.
fn is_answer(wanted: &[u8], found: &[u8]) -> bool {
    if wanted == b"somewhere".as_slice() {
        return number_of(found).is_some();
    }
    wanted == found
}
