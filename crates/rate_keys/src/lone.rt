ghost use Rattle.std.specs.Prelude.{◌≡◌, IfOk, OnOk, Some, map, option_copied};
ghost use Rattle.std.specs.HashMap.{get};
ghost use Rattle.package_index.specs.inner.Tables.{same_text};
ghost use Rattle.rate_keys.specs.Keys.{is_event_of, lone_event};
ghost use Rattle.rate_keys.specs.inner.Found.{AddsTransition, KnowsFound, SaysOf, SaysOfEach, held, join, lone};

use crate::names::EventNames;
use aadl_syntax::{Identifier, StateRef, Transition};
use plain_values::{List, Mem, is_same};
use std::alloc::Global;
use std::collections::HashMap;
use std::marker::Model;

/// By the name of a state the event that alone leads to it, or that there is more than one.
type Found<'a> = HashMap<&'a [u8], Option<&'a Identifier>>;

/// Which event alone leads to each state of a component. Contracts see the names of its events and its transitions.
#[derive(Drop)]
pub(crate) struct LoneEvents<'a> {
    events: EventNames<'a>,
    transitions: List<&'a Transition>,
    found: Found<'a>,
}

impl<'a> Model for LoneEvents<'a> {
    ghost use Rattle.std.specs.Coded.{codes};
    ghost use Rattle.aadl_syntax.specs.contracts.error_model.Condition as condition;
    ghost use Rattle.std.specs.Prelude.{map};
    ghost use Rattle.std.specs.HashMap.{get};
    ghost use Rattle.package_index.specs.inner.Tables.{same_text};
    ghost use Rattle.rate_keys.specs.inner.Found.{KnowsFound, Lone, lone};

    ghost Value = { Lone };

    ghost coded = { Prim.hlevel (codes, condition.the_row.coded) };

    ghost view = { λ l. lone l.events (map (λ transition. transition.now) l.transitions) };

    ghost invariant = { λ l. KnowsFound l.events (map (λ transition. transition.now) l.transitions) (get same_text l.found) };
}

impl<'a> LoneEvents<'a> {
    /// Of a component with these events and transitions.
    pub(crate) fn of(
        alloc: Global,
        events: EventNames<'a>,
        transitions: List<&'a Transition>,
    ) -> Mem<LoneEvents<'a>>
        ensures { IfOk result (λ l. l ≡ lone events.entry (map (λ transition. transition.now) transitions.entry)) }
    {
        let found = found_in(alloc, &events, transitions.items())?;
        Ok(LoneEvents {
            events,
            transitions,
            found,
        })
    }

    /// The events.
    pub(crate) fn events(&self) -> &EventNames<'a>
        ensures { result.now ≡ self.now.events }
    {
        &self.events
    }

    /// The event that alone leads to the state of a name.
    pub(crate) fn lone_event(&self, state: &[u8]) -> Option<&'a Identifier>
        ensures { option_copied result ≡ lone_event self.now.events self.now.transitions state.now }
    {
        match self.found.get(&state) {
            Some(event) => *event,
            None => None,
        }
    }
}

/// What is said of each state.
fn found_in<'a>(
    alloc: Global,
    events: &EventNames<'a>,
    transitions: &[&'a Transition],
) -> Mem<Found<'a>>
    ensures { IfOk result (λ found. KnowsFound events.now (map (λ transition. transition.now) transitions.now) (get same_text found)) }
{
    let mut found = HashMap::new(alloc);
    for transition in transitions {
        add_transition(&mut found, events, *transition)?;
    }
    Ok(found)
}

/// Adds what a transition says of the states to which it leads.
fn add_transition<'a>(
    found: &mut Found<'a>,
    events: &EventNames<'a>,
    transition: &'a Transition,
) -> Mem<()>
    ensures { OnOk result (AddsTransition events.now (get same_text found.old) (get same_text found.new) transition.now) }
{
    if !events.names_event(&transition.condition) {
        return Ok(());
    }
    let word = events.event_alone(&transition.condition);
    add_targets(found, transition.targets.items(), word)
}

/// Adds what is said of each of these states.
fn add_targets<'a>(
    found: &mut Found<'a>,
    targets: &'a [StateRef],
    word: Option<&'a Identifier>,
) -> Mem<()>
    ensures { OnOk result (SaysOfEach (get same_text found.old) (get same_text found.new) targets.now (option_copied word.entry)) }
{
    for target in targets {
        add_target(found, target.name.text(), word)?;
    }
    Ok(())
}

/// Adds what is said of the state of a name.
fn add_target<'a>(found: &mut Found<'a>, name: &'a [u8], word: Option<&'a Identifier>) -> Mem<()>
    ensures { OnOk result (SaysOf (get same_text found.old) (get same_text found.new) name.now (option_copied word.entry)) }
{
    let joined = joined(found.get(&name).copied(), word);
    found.insert(name, joined)?;
    Ok(())
}

/// What is said of a state so far, with one word more.
fn joined<'a>(
    before: Option<Option<&'a Identifier>>,
    word: Option<&'a Identifier>,
) -> Option<&'a Identifier>
    ensures { Some (option_copied result) ≡ join (held before.entry) (option_copied word.entry) }
{
    match before {
        None => word,
        Some(None) => None,
        Some(Some(event)) => {
            if is_event_of(event, word) {
                return Some(event);
            }
            None
        }
    }
}

/// Whether this is that event.
fn is_event_of(event: &Identifier, word: Option<&Identifier>) -> bool
    ensures { result ≡ is_event_of event.now (option_copied word.entry) }
{
    match word {
        Some(other) => is_same(event.text(), other.text()),
        None => false,
    }
}
