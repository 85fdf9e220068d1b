//! What the last line of a page names, for the next page to begin there.

ghost use Rattle.std.specs.Prelude.{◌≡◌, ◌+◌, ◌≤◌, IfOk, IfSome, Some, length, option_map};
ghost use Rattle.cutset_writer.specs.inner.Lengths.{most_line};
ghost use Rattle.cutset_writer.specs.inner.Pages.{IsOpen, IsOpenMark, key_of, more_text};
ghost use Rattle.cutset_writer.specs.Text.{more_line};
ghost use Rattle.fta_outside.specs.inner.Outside.{Writes};
ghost use Rattle.page_tokens.specs.Starts.{start_text};

use crate::lines::{longest_line, put_more};
use fault_system::FaultSystem;
use fta_outside::{Sink, SinkFailed, write_all};
use plain_values::Mem;
use std::alloc::{AllocError, Global};

/// The digits of the key of what a page is asked of, and the line that says that a further set follows, with all the memory that this
/// needs.
#[derive(Drop)]
pub struct Bookmark {
    key: [u8; 64],
    line: Vec<u8>,
}

impl Bookmark {
    /// A bookmark for the pages of a system, with the digits of a key.
    pub fn new(alloc: Global, system: &FaultSystem, key: &[u8; 64]) -> Mem<Bookmark>
        ensures key { IfOk result (λ bookmark. bookmark.key ≡ key.now) }
        ensures open { IfOk result (IsOpen system.now) }
    {
        let Some(room) = longest_more(system) else {
            return Err(AllocError);
        };
        let line = Vec::with_capacity(alloc, room)?;
        Ok(Bookmark { key: *key, line })
    }
}

/// How many bytes a last line has at most; none where that is too large a number.
fn longest_more(system: &FaultSystem) -> Option<usize>
    ensures { IfSome result (λ most. most ≡ most_line system.now + 74) }
{
    longest_line(system)?.checked_add(74)
}

/// Keeps the set behind which the next page begins, if the page has a bookmark.
pub(crate) fn keep_place(mark: &mut Option<Bookmark>, system: &FaultSystem, set: Option<&[u32]>)
    requires open { IsOpenMark system.now mark.old }
    requires fits { length (start_text system.now (option_map (λ s. s.now) set)) ≤ most_line system.now }
    ensures named { more_text mark.new ≡ more_line (key_of mark.old) system.now (option_map (λ s. s.now) set.entry) }
    ensures key { key_of mark.new ≡ key_of mark.old }
    ensures open { IsOpenMark system.now mark.new }
{
    match mark {
        Some(bookmark) => put_place(bookmark, system, set),
        None => {}
    }
}

fn put_place(bookmark: &mut Bookmark, system: &FaultSystem, set: Option<&[u32]>)
    requires open { IsOpen system.now bookmark.old }
    requires fits { length (start_text system.now (option_map (λ s. s.now) set)) ≤ most_line system.now }
    ensures named { bookmark.new.line.items ≡ more_line (Some bookmark.old.key) system.now (option_map (λ s. s.now) set.entry) }
    ensures key { bookmark.new.key ≡ bookmark.old.key }
    ensures open { IsOpen system.now bookmark.new }
{
    let key = bookmark.key;
    put_more(system, &key, set, &mut bookmark.line);
}

/// Writes the line that says that a further set follows.
pub(crate) fn write_more<S: Sink>(mark: &Option<Bookmark>, sink: &mut S) -> Result<(), SinkFailed>
    ensures { Writes (more_text mark.now) result (S.seen sink.old) (S.seen sink.new) }
{
    match mark {
        Some(bookmark) => write_all(sink, bookmark.line.as_slice()),
        None => write_all(sink, b"more\n"),
    }
}
