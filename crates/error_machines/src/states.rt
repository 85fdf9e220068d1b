ghost use Rattle.std.specs.Prelude.{◌≡◌, ◌++◌, IfOk, OnOk, Some, map};
ghost use Rattle.propagation_points.specs.States.{variant_types};
ghost use Rattle.error_machines.specs.States.{keep_state, no_states, states_in, states_of};

use crate::machines::UsedMachine;
use aadl_syntax::StateDecl;
use error_libraries::Scope;
use error_types::TypeTable;
use plain_values::{List, Mem};
use propagation_points::{Sorts, declared_by};
use std::alloc::Global;

/// The states of a component, in order, each name once; which of them are initial; and of which variants the state is, so that
/// they always hold.
#[derive(Drop)]
pub struct States<'a> {
    pub sorts: Sorts<'a>,
    pub initial: List<bool>,
    pub always: List<bool>,
}

/// The events of a component, in order, each name once; and which of them are free: they may happen at any time and have no variant.
#[derive(Drop)]
pub struct Events<'a> {
    pub sorts: Sorts<'a>,
    pub free: List<bool>,
}

/// The states of a component that uses this machine, if it uses one.
pub fn states_of<'a>(
    alloc: Global,
    types: &mut TypeTable<'_, 'a>,
    machine: &Option<UsedMachine<'a>>,
) -> Mem<States<'a>>
    ensures kept { types.new ≡ types.old }
    ensures states { IfOk result (λ states. states ≡ states_of types.old machine.now) }
{
    match machine {
        Some(machine) => {
            let scope = types.text_scope(alloc, machine.package(), machine.decl().uses.items())?;
            states_in(alloc, types, &scope, machine.decl().states.items())
        }
        None => Ok(no_states(alloc)),
    }
}

fn no_states<'a>(alloc: Global) -> States<'a>
    ensures { result ≡ no_states }
{
    States {
        sorts: Sorts::new(alloc),
        initial: List::new(alloc),
        always: List::new(alloc),
    }
}

fn states_in<'a>(
    alloc: Global,
    types: &mut TypeTable<'_, 'a>,
    scope: &Scope,
    decls: &'a [StateDecl],
) -> Mem<States<'a>>
    ensures kept { types.new ≡ types.old }
    ensures states { IfOk result (λ states. states ≡ states_in types.old (Some scope.now) decls.now) }
{
    let mut states = no_states(alloc);
    for decl in decls {
        states = with_state(alloc, types, scope, states, decl)?;
    }
    Ok(states)
}

/// The states with one more at the end, unless one has its name.
fn with_state<'a>(
    alloc: Global,
    types: &mut TypeTable<'_, 'a>,
    scope: &Scope,
    states: States<'a>,
    decl: &'a StateDecl,
) -> Mem<States<'a>>
    ensures kept { types.new ≡ types.old }
    ensures states { IfOk result (λ more. more ≡ keep_state types.old (Some scope.now) states.entry decl.now) }
{
    let own = declared_by(alloc, types, Some(scope), &decl.set)?;
    if states.sorts.place(decl.name.text()).is_some() {
        return Ok(states);
    }
    let States {
        sorts,
        mut initial,
        mut always,
    } = states;
    initial.push(decl.initial)?;
    add_marks(&mut always, &own, decl.initial)?;
    let sorts = sorts.with(&decl.name, own)?;
    Ok(States {
        sorts,
        initial,
        always,
    })
}

/// Adds a mark for each variant of these types.
fn add_marks(marks: &mut List<bool>, types: &Option<List<u32>>, mark: bool) -> Mem<()>
    ensures { OnOk result (marks.new ≡ marks.old ++ map (λ type. mark) (variant_types types.now)) }
{
    match types {
        None => marks.push(mark),
        Some(types) => add_each(marks, types.items(), mark),
    }
}

fn add_each(marks: &mut List<bool>, types: &[u32], mark: bool) -> Mem<()>
    ensures { OnOk result (marks.new ≡ marks.old ++ map (λ type. mark) (map Some types.now)) }
{
    for _number in types {
        marks.push(mark)?;
    }
    Ok(())
}
