//! The lines of a text.

ghost use Rattle.std.specs.Prelude.{◌≡◌, ◌≤◌, ◌<◌, ◌+◌, false, List, drop, length, IfErr, IfOk, IfSome, MatchOption, MatchResult};
ghost use Rattle.galileo_reader.specs.Marks.{gap_len};
ghost use Rattle.galileo_reader.specs.Statements.{AreLines, HasLine, HasNoLine, IsBadAt, IsLine, IsNoLine};
ghost use Rattle.galileo_reader.specs.declared.statement.Statement.{Statement};

use crate::front::gap_len;
use crate::lines::line_marks;
use crate::saying::statement_of;
use crate::statement::Statement;
use plain_values::{List, Mem};
use std::alloc::Global;

/// The line of tokens of one reading that stands from a place on, and the place behind it; none where no such line stands there.
fn token_line(alloc: Global, text: &[u8], at: usize, wide: bool) -> Mem<Option<(Statement, usize)>>
    requires within { at ≤ length text.now }
    requires few { length text.now ≤ 4194304 }
    ensures line { IfOk result (λ read. MatchOption read (HasNoLine wide text.now at) (λ line. HasLine wide text.now at line.0 line.1)) }
    ensures forward { IfOk result (λ read. IfSome read (λ line. (at < line.1) × (line.1 ≤ length text.now))) }
{
    let mut marks = Vec::new(alloc);
    let Some(next) = line_marks(text, at, wide, &mut marks)? else {
        return Ok(None);
    };
    match statement_of(alloc, text, marks.as_slice())? {
        Some(statement) => Ok(Some((statement, next))),
        None => Ok(None),
    }
}

/// The line that stands from a place on where the first reading has none, and the place behind it; none where no line stands there.
fn wide_line(alloc: Global, text: &[u8], at: usize, wide: bool) -> Mem<Option<(Statement, usize)>>
    requires within { at ≤ length text.now }
    requires few { length text.now ≤ 4194304 }
    requires none { HasNoLine false text.now at }
    ensures line { IfOk result (λ read. MatchOption read (IsNoLine wide text.now at) (λ line. IsLine wide text.now at line.0 line.1)) }
    ensures forward { IfOk result (λ read. IfSome read (λ line. (at < line.1) × (line.1 ≤ length text.now))) }
{
    if wide {
        token_line(alloc, text, at, true)
    } else {
        Ok(None)
    }
}

/// The line that stands from a place on, and the place behind it; none where no line stands there.
fn read_line(alloc: Global, text: &[u8], at: usize, wide: bool) -> Mem<Option<(Statement, usize)>>
    requires within { at ≤ length text.now }
    requires few { length text.now ≤ 4194304 }
    ensures line { IfOk result (λ read. MatchOption read (IsNoLine wide text.now at) (λ line. IsLine wide text.now at line.0 line.1)) }
    ensures forward { IfOk result (λ read. IfSome read (λ line. (at < line.1) × (line.1 ≤ length text.now))) }
{
    let first = token_line(alloc, text, at, false)?;
    match first {
        Some(line) => Ok(Some(line)),
        None => wide_line(alloc, text, at, wide),
    }
}

/// Where the next line would begin, behind what may stand between tokens.
fn start_of(text: &[u8], at: usize, wide: bool) -> usize
    requires { at ≤ length text.now }
    ensures value { result ≡ at + gap_len wide (drop at text.now) }
    ensures within { result ≤ length text.now }
{
    at + gap_len(&text[at..], wide)
}

/// All lines of a text; or the place, behind what may stand between tokens, where no line stands.
pub(crate) fn read_lines(
    alloc: Global,
    text: &[u8],
    wide: bool,
) -> Mem<Result<List<Statement>, u32>>
    requires { length text.now ≤ 4194304 }
    ensures lines { IfOk result (λ read. MatchResult read (AreLines wide text.now 0) (λ bad. (lines : List Statement) × IsBadAt wide text.now 0 lines bad)) }
    ensures within { IfOk result (λ read. IfErr read (λ bad. bad ≤ length text.now)) }
{
    let mut lines = List::new(alloc);
    let mut at = 0;
    let mut start = start_of(text, 0, wide);
    while start < text.len() {
        let read = read_line(alloc, text, at, wide)?;
        match read {
            Some((statement, next)) => {
                lines.push(statement)?;
                at = next;
                start = start_of(text, next, wide);
            }
            None => return Ok(Err(start as u32)),
        }
    }
    Ok(Ok(lines))
}
