//! The lines and the columns of many bytes of one text.

ghost use Rattle.std.specs.Prelude.{◌≡◌, ◌<◌, ◌≤◌, ◌+◌, All, IfOk, OnOk, List, length, max, ℕ};
ghost use Rattle.text_places.specs.Places.{column, line_number};
ghost use Rattle.text_places.specs.inner.Marks.{IsMark, mark_at};

use crate::mark::{Mark, further, passed, start};
use plain_values::Mem;
use std::alloc::Global;
use std::marker::Model;

/// About how many bytes stand between two marks.
const SPACE: usize = 64;

/// A text in which the lines and the columns of bytes are found at once. Contracts see the text.
#[derive(Drop)]
pub struct LineTable<'t> {
    text: &'t [u8],
    marks: Vec<Mark>,
}

impl<'t> Model for LineTable<'t> {
    ghost use Rattle.std.specs.Prelude.{All, List, ℕ};
    ghost use Rattle.text_places.specs.inner.Marks.{IsMark};

    ghost Value = { List ℕ };

    ghost view = { λ t. t.text.now };

    ghost invariant = { λ t. All (IsMark t.text.now) t.marks.items };
}

impl<'t> LineTable<'t> {
    /// The table of a text.
    pub fn of(alloc: Global, text: &'t [u8]) -> Mem<LineTable<'t>>
        ensures { IfOk result (λ table. table ≡ text.now) }
    {
        let marks = marks_of(alloc, text)?;
        Ok(LineTable { text, marks })
    }

    /// The line and the column of a byte, as `place_text` counts them.
    pub fn at(&self, byte: u32) -> (u64, u64)
        ensures line { result.0 ≡ line_number self.now byte }
        ensures column { result.1 ≡ column self.now byte }
    {
        let end = (byte as usize).min(self.text.len());
        let mark = mark_to(self.near(end), self.text, end);
        let reached = mark.characters + further(self.text, end);
        (mark.feeds as u64 + 1, at_least_one(reached) as u64)
    }

    /// A mark that stands near before a byte, or there.
    fn near(&self, end: usize) -> Mark
        ensures mark { IsMark self.now result }
        ensures before { result.at ≤ end }
    {
        match self.marks.get(end / SPACE) {
            Some(mark) if mark.at <= end => *mark,
            _ => start(),
        }
    }
}

/// Marks of a text, in order.
fn marks_of(alloc: Global, text: &[u8]) -> Mem<Vec<Mark>>
    ensures { IfOk result (λ marks. All (IsMark text.now) marks.items) }
{
    let mut marks = Vec::new(alloc);
    let mut mark = start();
    for number in 0..text.len() {
        keep(&mut marks, mark)?;
        mark = next(mark, text, number);
    }
    Ok(marks)
}

/// Keeps a mark, where there is none near before it.
fn keep(marks: &mut Vec<Mark>, mark: Mark) -> Mem<()>
    ensures { OnOk result ((text : List ℕ) → IsMark text mark → All (IsMark text) marks.old.items → All (IsMark text) marks.new.items) }
{
    if mark.at % SPACE == 0 {
        marks.push(mark)?;
    }
    Ok(())
}

/// The mark of a byte, from one before it on.
fn mark_to(mark: Mark, text: &[u8], end: usize) -> Mark
    requires mark { IsMark text.now mark }
    requires before { mark.at ≤ end }
    requires within { end ≤ length text.now }
    ensures mark { result ≡ mark_at text.now end }
    ensures few_feeds { result.feeds ≤ end }
    ensures few_characters { result.characters ≤ end }
{
    let mut reached = mark;
    for number in mark.at..end {
        reached = next(reached, text, number);
    }
    reached
}

/// The mark behind the byte of a mark.
fn next(mark: Mark, text: &[u8], number: usize) -> Mark
    requires mark { mark ≡ mark_at text.now number }
    requires within { number < length text.now }
    ensures { result ≡ mark_at text.now (number + 1) }
{
    passed(mark, text[number])
}

/// A number, or one in place of none.
fn at_least_one(number: usize) -> usize
    ensures { result ≡ max 1 number }
{
    number.max(1)
}
