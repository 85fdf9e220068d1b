use crate::text::Text;
use std::alloc::Global;

/// How many rows there were, how many held, and what is said of the others.
#[derive(Drop)]
pub struct Report {
    pub rows: u64,
    pub held: u64,
    pub text: Text,
}

/// A line of a file, numbered from 1.
#[derive(Clone, Copy)]
pub struct Line<'a> {
    pub file: &'a [u8],
    pub number: u64,
}

impl Report {
    /// No row yet.
    pub fn new(alloc: Global) -> Report {
        Report {
            rows: 0,
            held: 0,
            text: Text::new(alloc),
        }
    }

    /// Counts a row that held.
    pub fn hold(&mut self) {
        self.rows = self.rows.saturating_add(1);
        self.held = self.held.saturating_add(1);
    }

    /// Counts a row that did not hold, and says what was wanted and what was found.
    pub fn fail(&mut self, line: Line, hole: &[u8], wanted: &Text, found: &Text) {
        if let Some(why) = wanted.trouble().or(found.trouble()) {
            return self.fail_to_read(line, hole, why);
        }
        self.begin(line, hole, "does not hold");
        self.text.put(b"wanted: ");
        self.put_shown(wanted.bytes());
        self.text.put(b"\nfound: ");
        self.put_shown(found.bytes());
        self.text.put(b"\n");
    }

    /// Counts a row that can not be read, and says why.
    pub fn fail_to_read(&mut self, line: Line, hole: &[u8], why: &str) {
        self.begin(line, hole, "can not be read");
        self.text.put(why.as_bytes());
        self.text.put(b"\n");
    }

    fn begin(&mut self, line: Line, hole: &[u8], what: &str) {
        self.rows = self.rows.saturating_add(1);
        self.text.put(line.file);
        self.text.put(b":");
        self.text.put_number(line.number);
        self.text.put(b" [");
        self.put_shown(hole);
        self.text.put(b"] ");
        self.text.put(what.as_bytes());
        self.text.put(b"\n");
    }

    fn put_shown(&mut self, bytes: &[u8]) {
        match std::str::from_utf8(bytes) {
            Ok(_) => self.text.put(bytes),
            Err(_) => self.text.put(b"(bytes that are no UTF-8)"),
        }
    }
}
