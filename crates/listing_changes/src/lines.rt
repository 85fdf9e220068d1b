//! The lines that tell what changed.

ghost use Rattle.std.specs.Prelude.{◌≡◌, ◌++◌, ◌∷◌, OnOk, decimal};
ghost use Rattle.cutset_lister.specs.SetText.{set_text};
ghost use Rattle.listing_changes.specs.Changes.{change_line, end_line};

use cutset_lister::write_token;
use fault_system::FaultSystem;
use itoa::Buffer;
use plain_values::Mem;

/// Adds the line of a set.
pub(crate) fn push_line(
    word: &[u8],
    system: &FaultSystem,
    set: &[u32],
    text: &mut Vec<u8>,
) -> Mem<()>
    ensures { OnOk result (text.new.items ≡ text.old.items ++ change_line word.now system.now set.now) }
{
    push_count(word, set.len(), text)?;
    push_token(system, set, text)?;
    text.push(b'\n')?;
    Ok(())
}

/// Adds the last line.
pub(crate) fn push_end(gone: usize, new: usize, text: &mut Vec<u8>) -> Mem<()>
    ensures { OnOk result (text.new.items ≡ text.old.items ++ end_line gone new) }
{
    push_count(b"end gone ", gone, text)?;
    push_count(b" new ", new, text)?;
    text.push(b'\n')?;
    Ok(())
}

/// Adds a word and a number.
fn push_count(word: &[u8], count: usize, text: &mut Vec<u8>) -> Mem<()>
    ensures { OnOk result (text.new.items ≡ text.old.items ++ (word.now ++ decimal count)) }
{
    let mut buffer = Buffer::new();
    text.extend_from_slice(word)?;
    text.extend_from_slice(buffer.format(count).as_bytes())?;
    Ok(())
}

/// Adds a blank and the text of a set.
fn push_token(system: &FaultSystem, set: &[u32], text: &mut Vec<u8>) -> Mem<()>
    ensures { OnOk result (text.new.items ≡ text.old.items ++ 32 ∷ set_text system.now set.now) }
{
    text.push(b' ')?;
    write_token(system, set, text)
}
