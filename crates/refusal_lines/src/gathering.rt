ghost use Rattle.std.specs.Prelude.{◌≡◌, ◌∷◌, IfOk, OnOk};
ghost use Rattle.refusal_lines.specs.Text.{has_line, lines_of, refusal_line, with_line};

use crate::line::refusal_line;
use plain_values::{Mem, Name, Refusal, Word, is_same};
use std::alloc::Global;

/// The lines of a refusal and of others behind it, each once.
pub(crate) fn lines_of(
    alloc: Global,
    files: &[Word],
    texts: &[Name],
    first: &Refusal,
    others: &[Refusal],
) -> Mem<Vec<Name>>
    ensures { IfOk result (λ lines. lines.items ≡ lines_of files.now texts.now (first.now ∷ others.now)) }
{
    let mut lines = Vec::new(alloc);
    add_line(alloc, &mut lines, files, texts, first)?;
    for refusal in others {
        add_line(alloc, &mut lines, files, texts, refusal)?;
    }
    Ok(lines)
}

/// Adds the line of a refusal, unless it is among the lines.
fn add_line(
    alloc: Global,
    lines: &mut Vec<Name>,
    files: &[Word],
    texts: &[Name],
    refusal: &Refusal,
) -> Mem<()>
    ensures { OnOk result (lines.new.items ≡ with_line lines.old.items (refusal_line files.now texts.now refusal.now)) }
{
    let line = refusal_line(alloc, files, texts, refusal)?;
    if !has_line(lines.as_slice(), line.items()) {
        lines.push(line)?;
    }
    Ok(())
}

/// Whether a line is among these.
fn has_line(lines: &[Name], line: &[u8]) -> bool
    ensures { result ≡ has_line lines.now line.now }
{
    lines.iter().any(|other| is_same(other.items(), line))
}
