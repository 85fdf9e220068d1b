//! The words of a text, line by line.

ghost use Rattle.std.specs.Prelude.{◌≡◌, IfOk, OnOk};
ghost use Rattle.requirements.specs.Words.{add_byte, end_line, end_word, is_between, is_blank, lines_of, nothing_read, with_byte};

use plain_values::{List, Mem, Name};
use std::alloc::Global;

/// A word of a text, and the place of its first byte, counted from 0.
#[derive(Drop)]
pub struct PlacedWord {
    pub text: Name,
    pub at: usize,
}

/// What is read of a text so far: the lines that have ended, the words of the line that has not, the word that is being read (no
/// byte where none is) with the place of its first byte, and whether a comment is being read.
#[derive(Drop)]
pub(crate) struct Scan {
    pub lines: List<List<PlacedWord>>,
    pub words: List<PlacedWord>,
    pub current: Name,
    pub from: usize,
    pub comment: bool,
}

/// The words of each line of a text, in order.
pub(crate) fn lines_of(alloc: Global, text: &[u8]) -> Mem<List<List<PlacedWord>>>
    ensures { IfOk result (λ lines. lines ≡ lines_of text.now) }
{
    let mut scan = Scan::new(alloc);
    for at in 0..text.len() {
        scan.add(alloc, at, text[at])?;
    }
    scan.end_line(alloc)?;
    Ok(scan.lines)
}

impl Scan {
    /// Nothing was read yet.
    fn new(alloc: Global) -> Scan
        ensures { result ≡ nothing_read }
    {
        Scan {
            lines: List::new(alloc),
            words: List::new(alloc),
            current: List::new(alloc),
            from: 0,
            comment: false,
        }
    }

    /// One byte more, at this place.
    fn add(&mut self, alloc: Global, at: usize, byte: u8) -> Mem<()>
        ensures { OnOk result (self.new ≡ with_byte self.old at byte) }
    {
        if byte == b'\n' {
            return self.end_line(alloc);
        }
        if self.comment {
            return Ok(());
        }
        if is_blank(byte) {
            return self.end_word(alloc);
        }
        if byte == b'#' && self.is_between() {
            self.comment = true;
            return Ok(());
        }
        self.add_byte(at, byte)
    }

    /// A line ends, and with it its comment.
    fn end_line(&mut self, alloc: Global) -> Mem<()>
        ensures { OnOk result (self.new ≡ end_line self.old) }
    {
        self.end_word(alloc)?;
        let words = std::mem::replace(&mut self.words, List::new(alloc));
        self.lines.push(words)?;
        self.comment = false;
        Ok(())
    }

    /// A word ends, if one was being read.
    fn end_word(&mut self, alloc: Global) -> Mem<()>
        ensures { OnOk result (self.new ≡ end_word self.old) }
    {
        if self.is_between() {
            return Ok(());
        }
        let text = std::mem::replace(&mut self.current, List::new(alloc));
        self.words.push(PlacedWord {
            text,
            at: self.from,
        })
    }

    /// A byte at this place is one of a word.
    fn add_byte(&mut self, at: usize, byte: u8) -> Mem<()>
        ensures { OnOk result (self.new ≡ add_byte self.old at byte) }
    {
        if self.is_between() {
            self.from = at;
        }
        self.current.push(byte)
    }

    /// Whether no word is being read.
    fn is_between(&self) -> bool
        ensures { result ≡ is_between self.now }
    {
        self.current.items().len() == 0
    }
}

/// Whether a byte is a blank between words.
fn is_blank(byte: u8) -> bool
    ensures { result ≡ is_blank byte }
{
    byte == b' ' || (byte == b'\t' || byte == b'\r')
}
