//! Verdicts as TAP 13.

ghost use Rattle.std.specs.Prelude.{◌≡◌, ◌+◌, ◌++◌, ◌≤◌, OnOk, IfOk, length};
ghost use Rattle.requirement_lines.specs.Lines.{description, escaped, escaped_byte, tap_line, tap_lines, tap_reason, tap_text, tap_word};

use crate::judgement::Judgement;
use crate::lines::{push_count, push_reason};
use crate::ruling::{Mark, mark_of};
use fault_system::FaultSystem;
use plain_values::Mem;
use std::alloc::Global;

/// Adds the version, the plan, and a line for each requirement.
pub(crate) fn push_tap(
    alloc: Global,
    text: &mut Vec<u8>,
    system: &FaultSystem,
    judgements: &[Judgement],
) -> Mem<()>
    ensures { OnOk result (text.new.items ≡ text.old.items ++ tap_text system.now judgements.now) }
{
    push_count(text, b"TAP version 13\n1..", judgements.len())?;
    text.push(b'\n')?;
    push_tests(alloc, text, system, judgements)
}

/// Adds the lines of requirements, which are numbered from 1 on.
fn push_tests(
    alloc: Global,
    text: &mut Vec<u8>,
    system: &FaultSystem,
    judgements: &[Judgement],
) -> Mem<()>
    ensures { OnOk result (text.new.items ≡ text.old.items ++ tap_lines system.now 1 judgements.now) }
{
    for place in 0..judgements.len() {
        push_test(alloc, text, system, place + 1, &judgements[place])?;
    }
    Ok(())
}

/// Adds the line of a requirement of this number.
fn push_test(
    alloc: Global,
    text: &mut Vec<u8>,
    system: &FaultSystem,
    number: usize,
    judgement: &Judgement,
) -> Mem<()>
    ensures { OnOk result (text.new.items ≡ text.old.items ++ tap_line system.now number judgement.now) }
{
    push_count(text, tap_word(mark_of(&judgement.ruling)), number)?;
    text.extend_from_slice(b" - ")?;
    let description = described(alloc, system, judgement)?;
    push_escaped(text, description.as_slice())?;
    text.push(b'\n')?;
    Ok(())
}

/// The word with which the line of a requirement begins.
fn tap_word(mark: Mark) -> &'static [u8]
    ensures { result.now ≡ tap_word mark }
{
    match mark {
        Mark::Met => b"ok ",
        Mark::Broken => b"not ok ",
        Mark::Vacuous => b"not ok ",
    }
}

/// What is said behind the name of a requirement.
fn tap_reason(mark: Mark) -> &'static [u8]
    ensures { result.now ≡ tap_reason mark }
{
    match mark {
        Mark::Met => b"",
        Mark::Broken => b" broken",
        Mark::Vacuous => b" vacuous",
    }
}

/// What is said of a requirement: its name, and why it is not met.
fn described(alloc: Global, system: &FaultSystem, judgement: &Judgement) -> Mem<Vec<u8>>
    ensures { IfOk result (λ text. text.items ≡ description system.now judgement.now) }
{
    let mut text = Vec::from_slice(alloc, judgement.name.items())?;
    text.extend_from_slice(tap_reason(mark_of(&judgement.ruling)))?;
    push_reason(&mut text, system, &judgement.ruling)?;
    Ok(text)
}

/// Adds a description.
fn push_escaped(text: &mut Vec<u8>, description: &[u8]) -> Mem<()>
    ensures { OnOk result (text.new.items ≡ text.old.items ++ escaped description.now) }
{
    for byte in description {
        push_byte(text, *byte)?;
    }
    Ok(())
}

/// Adds a byte of a description, behind `\` where it would mean something else.
fn push_byte(text: &mut Vec<u8>, byte: u8) -> Mem<()>
    ensures { OnOk result (text.new.items ≡ text.old.items ++ escaped_byte byte) }
{
    if byte == b'#' || byte == b'\\' {
        text.push(b'\\')?;
    }
    text.push(byte)?;
    Ok(())
}
