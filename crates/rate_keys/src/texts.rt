ghost use Rattle.std.specs.Prelude.{◌≡◌, ◌++◌, IfOk, OnOk, map, option_copied};
ghost use Rattle.rate_keys.specs.Keys.{event_names, flows_of, machine_events, machine_states, machine_transitions, outgoing_of, transitions_of};

use aadl_syntax::{EventDecl, Flow, Identifier, MachineDecl, Outgoing, StateDecl, Transition};
use component_extension::{Effective, InClause};
use plain_values::{List, Mem};
use std::alloc::Global;

/// The transitions of a component: those of its machine, and then those of its clauses.
pub(crate) fn transitions_of<'a>(
    alloc: Global,
    machine: Option<&'a MachineDecl>,
    effective: &Effective<'a>,
) -> Mem<List<&'a Transition>>
    ensures { IfOk result (λ transitions. map (λ transition. transition.now) transitions ≡ transitions_of (option_copied machine.entry) effective.now) }
{
    let mut transitions = List::new(alloc);
    add_all(&mut transitions, machine_transitions(machine))?;
    add_items(&mut transitions, effective.behavior.transitions.items())?;
    Ok(transitions)
}

/// The names of the events that a component declares, in its machine and in its clauses.
pub(crate) fn event_names<'a>(
    alloc: Global,
    machine: Option<&'a MachineDecl>,
    effective: &Effective<'a>,
) -> Mem<List<&'a Identifier>>
    ensures { IfOk result (λ names. map (λ name. name.now) names ≡ event_names (option_copied machine.entry) effective.now) }
{
    let mut names = List::new(alloc);
    add_declared(&mut names, machine_events(machine))?;
    add_named(&mut names, effective.behavior.events.items())?;
    Ok(names)
}

/// The transitions of a machine, if there is one.
fn machine_transitions<'a>(machine: Option<&'a MachineDecl>) -> &'a [Transition]
    ensures { result.now ≡ machine_transitions (option_copied machine.entry) }
{
    match machine {
        Some(decl) => decl.transitions.items(),
        None => &[],
    }
}

/// The events of a machine, if there is one.
fn machine_events<'a>(machine: Option<&'a MachineDecl>) -> &'a [EventDecl]
    ensures { result.now ≡ machine_events (option_copied machine.entry) }
{
    match machine {
        Some(decl) => decl.events.items(),
        None => &[],
    }
}

/// The states of a machine, if there is one.
pub(crate) fn machine_states<'a>(machine: Option<&'a MachineDecl>) -> &'a [StateDecl]
    ensures { result.now ≡ machine_states (option_copied machine.entry) }
{
    match machine {
        Some(decl) => decl.states.items(),
        None => &[],
    }
}

fn add_all<'a>(transitions: &mut List<&'a Transition>, all: &'a [Transition]) -> Mem<()>
    ensures { OnOk result (map (λ transition. transition.now) transitions.new ≡ map (λ transition. transition.now) transitions.old ++ all.now) }
{
    for transition in all {
        transitions.push(transition)?;
    }
    Ok(())
}

fn add_items<'a>(
    transitions: &mut List<&'a Transition>,
    all: &[InClause<'a, Transition>],
) -> Mem<()>
    ensures { OnOk result (map (λ transition. transition.now) transitions.new ≡ map (λ transition. transition.now) transitions.old ++ map (λ scoped. scoped.item) all.now) }
{
    for scoped in all {
        transitions.push(scoped.item())?;
    }
    Ok(())
}

fn add_declared<'a>(names: &mut List<&'a Identifier>, events: &'a [EventDecl]) -> Mem<()>
    ensures { OnOk result (map (λ name. name.now) names.new ≡ map (λ name. name.now) names.old ++ map (λ event. event.name) events.now) }
{
    for event in events {
        names.push(&event.name)?;
    }
    Ok(())
}

fn add_named<'a>(names: &mut List<&'a Identifier>, events: &[InClause<'a, EventDecl>]) -> Mem<()>
    ensures { OnOk result (map (λ name. name.now) names.new ≡ map (λ name. name.now) names.old ++ map (λ scoped. scoped.item.name) events.now) }
{
    for scoped in events {
        names.push(&scoped.item().name)?;
    }
    Ok(())
}
