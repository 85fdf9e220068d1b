//! The column of a byte in its line.

ghost use Rattle.std.specs.Prelude.{◌≡◌, ◌+◌, ◌-◌, ◌++◌, ◌∷◌, [], IfOk, OnOk, codes, length, map, max, take};
ghost use Rattle.std.specs.List.{filter};
ghost use Rattle.text_places.specs.Places.{begins_character, below};

use plain_values::Mem;
use std::alloc::Global;

/// The characters of a line and a line feed behind it, up to that of the byte behind a front of this length, each as the byte with
/// which it begins.
pub(crate) fn reached(alloc: Global, line: &[u8], front: usize) -> Mem<Vec<u8>>
    ensures { IfOk result (λ reached. reached.items ≡ filter begins_character (take (front + 1) (line.now ++ 10 ∷ []))) }
{
    if front < line.len() {
        return characters(alloc, &line[..front + 1]);
    }
    let mut reached = characters(alloc, line)?;
    reached.push(b'\n')?;
    Ok(reached)
}

/// The bytes with which the characters of a text begin.
fn characters(alloc: Global, text: &[u8]) -> Mem<Vec<u8>>
    ensures { IfOk result (λ characters. characters.items ≡ filter begins_character text.now) }
{
    text.iter()
        .copied()
        .filter(|byte| begins_character(*byte))
        .collect(alloc)
}

pub(crate) fn begins_character(byte: u8) -> bool
    ensures { result ≡ begins_character byte }
{
    byte < 128 || 192 <= byte
}

/// The column of the last of the characters that are reached.
pub(crate) fn column_of(reached: &[u8]) -> usize
    ensures { result ≡ max 1 (length reached.now) }
{
    reached.len().max(1)
}

/// Adds what stands below the characters before the last one, and a caret below that.
pub(crate) fn push_caret(text: &mut Vec<u8>, reached: &[u8]) -> Mem<()>
    ensures { OnOk result (text.new.items ≡ text.old.items ++ (map below (take (max 1 (length reached.now) - 1) reached.now) ++ codes "^")) }
{
    let before = &reached[..column_of(reached) - 1];
    for character in before {
        text.push(below(*character))?;
    }
    text.push(b'^')?;
    Ok(())
}

/// What stands below a character.
fn below(character: u8) -> u8
    ensures { result ≡ below character }
{
    if character == b'\t' { b'\t' } else { b' ' }
}
