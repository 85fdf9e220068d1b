//! Texts that are made line by line, as they are written.

ghost use Rattle.std.specs.Prelude.{◌≡◌, ◌<◌, ◌++◌, ℕ, List, [], IfOk, IsTrue, false, length};
ghost use Rattle.fta_outside.specs.inner.Outside.{LacksMemory, WritesBut};

use crate::error::WriteError;
use crate::outside::{Sink, write_all};
use plain_values::Mem;
use std::alloc::Global;

/// A source of lines: it makes a text, one line at a time.
pub trait Lines {
    /// What is left of its text.
    ghost left: { Self → List ℕ };

    /// Puts the next line of what is left into a buffer, in place of what that holds, and says whether there was one.
    fn next(&mut self, line: &mut Vec<u8>) -> Mem<bool>
        ensures line { IfOk result (λ more. IsTrue more → left self.old ≡ line.new.items ++ left self.new) }
        ensures shorter { IfOk result (λ more. IsTrue more → length (left self.new) < length (left self.old)) }
        ensures none { IfOk result (λ more. more ≡ false → left self.old ≡ []) };
}

/// Writes the lines of a source, each as it is made.
pub fn write_lines<L: Lines, S: Sink>(
    alloc: Global,
    lines: &mut L,
    sink: &mut S,
) -> Result<(), WriteError>
    ensures { WritesBut LacksMemory (L.left lines.old) result (S.seen sink.old) (S.seen sink.new) }
{
    let mut line = Vec::new(alloc);
    while lines.next(&mut line)? {
        write_all(sink, line.as_slice())?;
    }
    Ok(())
}
