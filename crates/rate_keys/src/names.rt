ghost use Rattle.std.specs.Prelude.{◌≡◌, ℕ, cond, is_some, IfOk, Some, None, map, option_copied};
ghost use Rattle.std.specs.List.{list_any};
ghost use Rattle.std.specs.HashSet.{contains};
ghost use Rattle.package_index.specs.Names.{only};
ghost use Rattle.package_index.specs.inner.Tables.{same_text};
ghost use Rattle.rate_keys.specs.Keys.{event_alone, event_of, is_among, is_event, names_event};
ghost use Rattle.rate_keys.specs.inner.Found.{KnowsNames};

use aadl_syntax::{Atom, Condition, Identifier};
use plain_values::{List, Mem};
use std::alloc::Global;
use std::collections::HashSet;
use std::marker::Model;

/// The names of the events of a component. Contracts see them in order.
#[derive(Drop)]
pub(crate) struct EventNames<'a> {
    list: List<&'a Identifier>,
    names: HashSet<&'a [u8]>,
}

impl<'a> Model for EventNames<'a> {
    ghost use Rattle.std.specs.Prelude.{ℕ, List, map};
    ghost use Rattle.std.specs.HashSet.{contains};
    ghost use Rattle.package_index.specs.inner.Tables.{same_text};
    ghost use Rattle.rate_keys.specs.inner.Found.{KnowsNames};

    ghost Value = { List (List ℕ) };

    ghost view = { λ n. map (λ name. name.now) n.list };

    ghost invariant = { λ n. KnowsNames (map (λ name. name.now) n.list) (contains same_text n.names) };
}

impl<'a> EventNames<'a> {
    /// Of these names.
    pub(crate) fn of(alloc: Global, list: List<&'a Identifier>) -> Mem<EventNames<'a>>
        ensures { IfOk result (λ names. names ≡ map (λ name. name.now) list.entry) }
    {
        let names = names_of(alloc, list.items())?;
        Ok(EventNames { list, names })
    }

    /// Whether a name is among them.
    pub(crate) fn has(&self, name: &[u8]) -> bool
        ensures { result ≡ is_among self.now name.now }
    {
        self.names.contains(&name)
    }

    /// The event that these names are: one identifier, that of an event.
    fn event_of<'b>(&self, names: &'b [Identifier]) -> Option<&'b Identifier>
        ensures { option_copied result ≡ event_of self.now names.now }
    {
        let name = only(names)?;
        if self.has(name.text()) {
            return Some(name);
        }
        None
    }

    /// Whether an event occurs in a condition.
    #[cycle(condition)]
    pub(crate) fn names_event(&self, condition: &Condition) -> bool
        ensures { result ≡ names_event self.now condition.now }
    {
        match condition {
            Condition::Atom(atom) => self.event_of(atom.names.items()).is_some(),
            Condition::All(parts) => self.name_event(parts.items()),
            Condition::Any(parts) => self.name_event(parts.items()),
            Condition::AtLeast(_, parts) => self.name_event(parts.items()),
            Condition::AtMost(_, parts, _) => self.name_event(parts.items()),
        }
    }

    /// Whether an event occurs in one of these conditions.
    #[cycle(condition)]
    fn name_event(&self, parts: &[Condition]) -> bool
        ensures { result ≡ list_any (λ part. part) (map (names_event self.now) parts.now) }
    {
        for part in parts {
            if self.names_event(part) {
                return true;
            }
        }
        false
    }

    /// The event that a condition is, where it is one event without a set of types, and nothing else.
    pub(crate) fn event_alone<'b>(&self, condition: &'b Condition) -> Option<&'b Identifier>
        ensures { option_copied result ≡ event_alone self.now condition.now }
    {
        match condition {
            Condition::Atom(atom) => self.event_in(atom),
            Condition::All(_) => None,
            Condition::Any(_) => None,
            Condition::AtLeast(_, _) => None,
            Condition::AtMost(_, _, _) => None,
        }
    }

    /// The event that a named part of a condition is, where it is one without a set of types.
    fn event_in<'b>(&self, atom: &'b Atom) -> Option<&'b Identifier>
        ensures { option_copied result ≡ cond (is_some atom.now.set) None (event_of self.now atom.now.names) }
    {
        if atom.set.is_some() {
            return None;
        }
        self.event_of(atom.names.items())
    }
}

/// The set of these names.
fn names_of<'a>(alloc: Global, list: &[&'a Identifier]) -> Mem<HashSet<&'a [u8]>>
    ensures { IfOk result (λ names. KnowsNames (map (λ name. name.now) list.now) (contains same_text names)) }
{
    let mut names = HashSet::new(alloc);
    for name in list {
        names.insert(name.text())?;
    }
    Ok(names)
}

/// The name, where it is one identifier.
fn only(names: &[Identifier]) -> Option<&Identifier>
    ensures { option_copied result ≡ only names.now }
{
    let (first, rest) = names.split_first()?;
    if rest.is_empty() {
        return Some(first);
    }
    None
}
