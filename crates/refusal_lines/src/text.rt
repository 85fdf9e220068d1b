ghost use Rattle.std.specs.Prelude.{◌≡◌, Bool, List, codes, flat_map, if◌then◌else◌, IfOk};
ghost use Rattle.plain_values.specs.declared.refusal.Refusal.{Refusal};
ghost use Rattle.noted_refusals.specs.inner.Noted.{Lists};
ghost use Rattle.refusal_lines.specs.Text.{refusals_text};

use crate::gathering::lines_of;
use noted_refusals::Refusals;
use plain_values::{Mem, Name, Refusal, Word};
use std::alloc::{AllocError, Global};

/// How many refusals of a group are listed.
pub const MOST_REFUSALS: usize = 1024;

/// The text on a group of which this is the first refusal, and of which as many were noted as are listed; the files have these names and
/// texts. Room for another number is no room: that is want of memory.
pub fn group_text(
    alloc: Global,
    files: &[Word],
    texts: &[Name],
    first: &Refusal,
    refusals: &Refusals,
) -> Mem<Vec<u8>>
    ensures { IfOk result (λ text. (group : List Refusal) → Lists group refusals.now → text.items ≡ refusals_text files.now texts.now first.now group) }
{
    if refusals.room() != MOST_REFUSALS {
        return Err(AllocError);
    }
    let kept = refusals.kept();
    let lines = lines_of(alloc, files, texts, first, kept)?;
    let mut text = joined(alloc, lines.as_slice())?;
    text.extend_from_slice(end_line(kept.len() < MOST_REFUSALS))?;
    Ok(text)
}

/// Lines, one behind the other.
fn joined(alloc: Global, lines: &[Name]) -> Mem<Vec<u8>>
    ensures { IfOk result (λ text. text.items ≡ flat_map (λ line. line) lines.now) }
{
    let mut text = Vec::new(alloc);
    for line in lines {
        text.extend_from_slice(line.items())?;
    }
    Ok(text)
}

/// The last line: that all are listed, or that there may be more.
fn end_line(all: bool) -> &'static [u8]
    ensures { result.now ≡ (if all then codes "end\n" else codes "more\n") }
{
    if all { b"end\n" } else { b"more\n" }
}
