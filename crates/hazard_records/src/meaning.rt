//! What a target means.

ghost use Rattle.std.specs.Prelude.{◌≡◌, ◌++◌, IfOk, OnOk, codes, filter, flat_map};
ghost use Rattle.package_index.specs.Names.{front};
ghost use Rattle.hazard_records.specs.Meaning.{ends_with, facts_meant, facts_named, is_of_type, last_text, name_at, own_text, part_text, type_end};

use crate::target::{put, put_dotted};
use crate::whole::Whole;
use fault_system::FactInfo;
use plain_values::{List, Mem, Name, copied, is_same};
use std::alloc::Global;

impl<'r> Whole<'r> {
    /// The facts that names mean, from the root on.
    pub(crate) fn facts_meant(&self, alloc: Global, names: &[Name]) -> Mem<List<u32>>
        ensures { IfOk result (λ numbers. numbers ≡ facts_meant self.now.facts names.now) }
    {
        let state = own_text(alloc, b"/state:", names)?;
        let out = own_text(alloc, b"/out:", names)?;
        let mut numbers = List::new(alloc);
        add_all(&mut numbers, (&*self).facts_named(&state))?;
        add_all(&mut numbers, (&*self).facts_named(&out))?;
        self.add_typed(&mut numbers, alloc, names)?;
        Ok(numbers)
    }

    /// Adds what comes out of the point of the last name but one, of the type of the last name.
    fn add_typed(&self, numbers: &mut List<u32>, alloc: Global, names: &[Name]) -> Mem<()>
        ensures { OnOk result (numbers.new ≡ numbers.old ++ filter (is_of_type self.now.facts (last_text names.now)) (facts_named self.now.facts (own_text (codes "/out:") (front names.now)))) }
    {
        let out = own_text(alloc, b"/out:", front_of(names))?;
        let end = type_end(alloc, last_text(names))?;
        add_those(numbers, self.facts(), &end, (&*self).facts_named(&out))
    }
}

/// Adds numbers.
fn add_all(numbers: &mut List<u32>, all: &[u32]) -> Mem<()>
    ensures { OnOk result (numbers.new ≡ numbers.old ++ all.now) }
{
    for number in all {
        numbers.push(*number)?;
    }
    Ok(())
}

/// Adds the numbers of the facts among these whose names end so.
fn add_those(numbers: &mut List<u32>, facts: &[FactInfo], end: &Name, all: &[u32]) -> Mem<()>
    ensures { OnOk result (numbers.new ≡ numbers.old ++ filter (λ number. ends_with end.now (name_at facts.now number)) all.now) }
{
    for number in all {
        let is_so = ends_with(end.items(), name_at(facts, *number));
        numbers.push_if(*number, is_so)?;
    }
    Ok(())
}

/// The name of the fact of a number.
fn name_at(facts: &[FactInfo], number: u32) -> &[u8]
    ensures { result.now ≡ name_at facts.now number }
{
    match facts.get(number as usize) {
        Some(fact) => fact.name.items(),
        None => &[],
    }
}

/// Whether a text ends with another.
fn ends_with(end: &[u8], text: &[u8]) -> bool
    ensures { result ≡ ends_with end.now text.now }
{
    let from = text.len().saturating_sub(end.len());
    is_same(&text[from..], end)
}

/// How a name ends that has a type of this name.
fn type_end(alloc: Global, name: &[u8]) -> Mem<Name>
    ensures { IfOk result (λ text. text ≡ type_end name.now) }
{
    let mut text = copied(alloc, b"::")?;
    put(&mut text, name)?;
    put(&mut text, b"}")?;
    Ok(text)
}

/// What a fact is called, without its type, by the names of its component's path and its own.
fn own_text(alloc: Global, word: &[u8], names: &[Name]) -> Mem<Name>
    ensures { IfOk result (λ text. text ≡ own_text word.now names.now) }
{
    let mut text = part_text(alloc, front_of(names))?;
    put(&mut text, word)?;
    put(&mut text, last_text(names))?;
    Ok(text)
}

/// The name of a component by its path.
fn part_text(alloc: Global, path: &[Name]) -> Mem<Name>
    ensures { IfOk result (λ text. text ≡ part_text path.now) }
{
    let mut text = copied(alloc, b"root")?;
    add_dotted(&mut text, path)?;
    Ok(text)
}

/// Adds names, each behind a dot.
fn add_dotted(text: &mut Name, names: &[Name]) -> Mem<()>
    ensures { OnOk result (text.new ≡ text.old ++ flat_map (λ name. codes "." ++ name) names.now) }
{
    for name in names {
        put_dotted(text, name.items())?;
    }
    Ok(())
}

/// The names before the last.
fn front_of(names: &[Name]) -> &[Name]
    ensures { result.now ≡ front names.now }
{
    if names.is_empty() {
        return &[];
    }
    &names[..names.len() - 1]
}

/// The last of names, and nothing where there are none.
fn last_text(names: &[Name]) -> &[u8]
    ensures { result.now ≡ last_text names.now }
{
    match names.get(names.len().saturating_sub(1)) {
        Some(name) => name.items(),
        None => &[],
    }
}
