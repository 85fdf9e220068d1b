//! The cells of a line: facts of some components, and their names.

ghost use Rattle.std.specs.Prelude.{◌≡◌, ◌++◌, ◌∷◌, ◌==◌, IfOk, OnOk, codes, filter};
ghost use Rattle.fault_system.specs.Truth.{set_of};
ghost use Rattle.fmea_sheet.specs.Cells.{end_text, is_of, names_text};
ghost use Rattle.fmea_sheet.specs.inner.Written.{AreMarks};

use fault_system::{Bits, FaultSystem};
use plain_values::{List, Mem};
use std::alloc::Global;

/// The facts among some that are of one component.
pub(crate) fn facts_of(
    alloc: Global,
    system: &FaultSystem,
    facts: &[u32],
    component: u32,
) -> Mem<List<u32>>
    ensures { IfOk result (λ found. found ≡ filter (is_of (λ owner. owner == component) system.now) facts.now) }
{
    let mut found = List::new(alloc);
    for fact in facts {
        found.push_if(*fact, is_of_one(system, *fact, component))?;
    }
    Ok(found)
}

/// Whether a fact is of a component.
fn is_of_one(system: &FaultSystem, fact: u32, component: u32) -> bool
    ensures { result ≡ is_of (λ owner. owner == component) system.now fact }
{
    match system.fact(fact) {
        Some(info) => info.owner == component,
        None => false,
    }
}

/// The facts among some that are of any of these components, of so many.
pub(crate) fn facts_in(
    alloc: Global,
    system: &FaultSystem,
    facts: &[u32],
    components: &[u32],
    count: u32,
) -> Mem<List<u32>>
    ensures { IfOk result (λ found. found ≡ filter (is_of (set_of components.now) system.now) facts.now) }
{
    let marks = marks_of(alloc, components, count)?;
    let mut found = List::new(alloc);
    for fact in facts {
        let is_found = is_of_any(system, *fact, components, &marks);
        found.push_if(*fact, is_found)?;
    }
    Ok(found)
}

/// The set of those of these numbers that are below a count.
fn marks_of(alloc: Global, numbers: &[u32], count: u32) -> Mem<Bits>
    ensures { IfOk result (AreMarks numbers.now) }
{
    let mut marks = Bits::new(alloc, count)?;
    for number in numbers {
        if *number < count {
            marks.put(*number);
        }
    }
    Ok(marks)
}

/// Whether a fact is of any of these components, which are marked.
fn is_of_any(system: &FaultSystem, fact: u32, components: &[u32], marks: &Bits) -> bool
    requires { AreMarks components.now marks.now }
    ensures { result ≡ is_of (set_of components.now) system.now fact }
{
    match system.fact(fact) {
        Some(info) => is_marked(components, marks, info.owner),
        None => false,
    }
}

/// Whether a number is among these, which are marked. From the size of the marks on it is looked for.
fn is_marked(numbers: &[u32], marks: &Bits, number: u32) -> bool
    requires { AreMarks numbers.now marks.now }
    ensures { result ≡ set_of numbers.now number }
{
    if number < marks.size() {
        return marks.has(number);
    }
    is_among(numbers, number)
}

/// Whether a number is among these.
fn is_among(numbers: &[u32], number: u32) -> bool
    ensures { result ≡ set_of numbers.now number }
{
    numbers.iter().any(|one| *one == number)
}

/// Puts the names of facts into a text, with a blank between each two.
pub(crate) fn put_names(text: &mut Vec<u8>, system: &FaultSystem, facts: &[u32]) -> Mem<()>
    ensures { OnOk result (text.new.items ≡ names_text system.now facts.now) }
{
    text.clear();
    let Some((fact, others)) = facts.split_first() else {
        return Ok(());
    };
    text.extend_from_slice(system.fact_name(*fact))?;
    for other in others {
        push_behind(text, system.fact_name(*other))?;
    }
    Ok(())
}

/// Adds a blank and a name.
fn push_behind(text: &mut Vec<u8>, name: &[u8]) -> Mem<()>
    ensures { OnOk result (text.new.items ≡ text.old.items ++ (32 ∷ name.now)) }
{
    text.push(b' ')?;
    text.extend_from_slice(name)?;
    Ok(())
}

/// Puts the names of facts into a text, or the words for none.
pub(crate) fn put_end(text: &mut Vec<u8>, system: &FaultSystem, facts: &[u32]) -> Mem<()>
    ensures { OnOk result (text.new.items ≡ end_text system.now facts.now) }
{
    if facts.is_empty() {
        return put_none(text);
    }
    put_names(text, system, facts)
}

/// Puts the words for no effect on the root into a text.
fn put_none(text: &mut Vec<u8>) -> Mem<()>
    ensures { OnOk result (text.new.items ≡ codes "none alone") }
{
    text.clear();
    text.extend_from_slice(b"none alone")?;
    Ok(())
}
