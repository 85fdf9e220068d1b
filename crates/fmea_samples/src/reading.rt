//! Numbers, names and formulas of lines.

use fault_system::Formula;
use plain_values::{List, Mem, Name};
use std::alloc::Global;

/// The number that digits write; other bytes are passed over.
pub fn number_of(digits: &[u8]) -> u32 {
    let mut number = 0u32;
    for digit in digits {
        if digit.is_ascii_digit() {
            number = number
                .saturating_mul(10)
                .saturating_add(u32::from(digit.wrapping_sub(b'0')));
        }
    }
    number
}

/// A name of its own.
pub fn name_of(alloc: Global, text: &[u8]) -> Mem<Name> {
    List::of(Vec::from_slice(alloc, text)?)
}

/// The formula whose parts and words stand in a text, one blank between two, each behind its parts.
pub fn formula_of(alloc: Global, text: &[u8]) -> Mem<Formula> {
    let mut stack = Vec::new(alloc);
    for word in text.split(|b| *b == b' ') {
        push_word(alloc, &mut stack, word)?;
    }
    match stack.pop() {
        Some(formula) => Ok(formula),
        None => Ok(Formula::True),
    }
}

fn push_word(alloc: Global, stack: &mut Vec<Formula>, word: &[u8]) -> Mem<()> {
    let formula = match word {
        [] => return Ok(()),
        [b'e', digits @ ..] => Formula::Event(number_of(digits)),
        [b'f', digits @ ..] => Formula::Fact(number_of(digits)),
        [b'a', digits @ ..] => Formula::And(last_of(alloc, stack, number_of(digits))?),
        [b'o', digits @ ..] => Formula::Or(last_of(alloc, stack, number_of(digits))?),
        [digit, b'o', b'f', digits @ ..] => Formula::AtLeast(
            u32::from(digit.wrapping_sub(b'0')),
            last_of(alloc, stack, number_of(digits))?,
        ),
        _ => Formula::True,
    };
    stack.push(formula)?;
    Ok(())
}

/// The last so many formulas, in their order, which are taken off.
fn last_of(alloc: Global, stack: &mut Vec<Formula>, count: u32) -> Mem<List<Formula>> {
    let mut turned = Vec::new(alloc);
    for _ in 0..count {
        if let Some(formula) = stack.pop() {
            turned.push(formula)?;
        }
    }
    let mut parts = List::new(alloc);
    for _ in 0..count {
        parts.push_some(turned.pop())?;
    }
    Ok(parts)
}
