ghost use Rattle.std.specs.Prelude.{◌≡◌, ◌++◌, IfOk, OnOk, flat_map, map};
ghost use Rattle.error_models.specs.Below.{machine_of};
ghost use Rattle.event_origins.specs.Declarations.{declarations_in, declarations_of, event_declaration, feature_declaration, flow_declaration, inward_declaration, machine_events, machine_states, named_at, outward_declaration, state_declaration, user_point_declaration};

use crate::declaration::Declaration;
use crate::table::DeclarationTable;
use aadl_syntax::{EventDecl, Feature, Flow, Identifier, PointItem, StateDecl, UserPoint};
use component_extension::{Effective, InClause, Inherited};
use error_machines::{UsedMachine, find_machine, machine_at};
use instantiator::Instance;
use package_index::Index;
use plain_values::{List, Mem, Spot};
use std::alloc::Global;

/// The declarations of a component by which places are found: of its error events, of its flows, of its inward and its outward propagations,
/// of the states of its machine, and of its features and its own propagation points.
#[derive(Drop)]
pub(crate) struct Declarations<'a> {
    pub(crate) events: DeclarationTable<'a>,
    pub(crate) flows: DeclarationTable<'a>,
    pub(crate) inward: DeclarationTable<'a>,
    pub(crate) outward: DeclarationTable<'a>,
    pub(crate) states: DeclarationTable<'a>,
    pub(crate) features: DeclarationTable<'a>,
}

/// The declarations of the kinds of an instance, in order.
pub(crate) fn declarations_of_kinds<'m>(
    alloc: Global,
    instance: &'m Instance<'m, 'm>,
) -> Mem<List<Declarations<'m>>>
    ensures { IfOk result (λ kinds. kinds ≡ map (declarations_of instance.now.packages) instance.now.kinds) }
{
    let mut kinds = List::new(alloc);
    for kind in instance.kinds() {
        let machine = machine_of(instance.index(), &kind.effective);
        let declarations = declarations_in(alloc, &machine, &kind.effective)?;
        kinds.push(declarations)?;
    }
    Ok(kinds)
}

/// The machine of a component with this effective classifier, if it uses one that is found.
fn machine_of<'a>(index: &Index<'a>, effective: &Effective<'a>) -> Option<UsedMachine<'a>>
    ensures { result ≡ machine_of index.now effective.now }
{
    match find_machine(index, effective) {
        Ok(Some(id)) => machine_at(index, id),
        Ok(None) => None,
        Err(_) => None,
    }
}

/// The declarations of a component with this effective classifier and this machine.
fn declarations_in<'a>(
    alloc: Global,
    machine: &Option<UsedMachine<'a>>,
    effective: &Effective<'a>,
) -> Mem<Declarations<'a>>
    ensures { IfOk result (λ declarations. declarations ≡ declarations_in machine.now effective.now) }
{
    let events = events_of(alloc, machine, effective.behavior.events.items())?;
    let flows = flows_of(alloc, effective.propagations.flows.items())?;
    let inward = inward_of(alloc, effective.propagations.points.items())?;
    let outward = outward_of(alloc, effective.propagations.points.items())?;
    let states = states_of(alloc, machine)?;
    let features = features_of(
        alloc,
        effective.members.features.items(),
        effective.propagations.user_points.items(),
    )?;
    Ok(Declarations {
        events,
        flows,
        inward,
        outward,
        states,
        features,
    })
}

/// The error events of a machine, and then those of clauses.
fn events_of<'a>(
    alloc: Global,
    machine: &Option<UsedMachine<'a>>,
    events: &[InClause<'a, EventDecl>],
) -> Mem<DeclarationTable<'a>>
    ensures { IfOk result (λ table. table ≡ map event_declaration (machine_events machine.now) ++ map (λ scoped. event_declaration scoped.item) events.now) }
{
    let mut list = List::new(alloc);
    if let Some(machine) = machine {
        add_events(&mut list, machine.decl().events.items())?;
    }
    for event in events {
        list.push(event_declaration(event.item()))?;
    }
    DeclarationTable::of(alloc, list)
}

/// Adds the error events that a machine declares.
fn add_events<'a>(list: &mut List<Declaration<'a>>, events: &'a [EventDecl]) -> Mem<()>
    ensures { OnOk result (list.new ≡ list.old ++ map event_declaration events.now) }
{
    for event in events {
        list.push(event_declaration(event))?;
    }
    Ok(())
}

fn event_declaration<'a>(event: &'a EventDecl) -> Declaration<'a>
    ensures { result ≡ event_declaration event.now }
{
    Declaration::new(&event.name, event.spot)
}

/// The flows of clauses.
fn flows_of<'a>(alloc: Global, flows: &[InClause<'a, Flow>]) -> Mem<DeclarationTable<'a>>
    ensures { IfOk result (λ table. table ≡ map (λ scoped. flow_declaration scoped.item) flows.now) }
{
    let mut list = List::new(alloc);
    for flow in flows {
        list.push(flow_declaration(flow.item()))?;
    }
    DeclarationTable::of(alloc, list)
}

fn flow_declaration<'a>(flow: &'a Flow) -> Declaration<'a>
    ensures { result ≡ flow_declaration flow.now }
{
    Declaration::new(&flow.name, flow.spot)
}

/// The points for which propagations of clauses declare an inward side.
fn inward_of<'a>(alloc: Global, points: &[InClause<'a, PointItem>]) -> Mem<DeclarationTable<'a>>
    ensures { IfOk result (λ table. table ≡ flat_map (λ scoped. inward_declaration scoped.item) points.now) }
{
    let mut list = List::new(alloc);
    for point in points {
        add_inward(&mut list, point.item())?;
    }
    DeclarationTable::of(alloc, list)
}

/// Adds the point for which a propagation declares an inward side, if it does.
fn add_inward<'a>(list: &mut List<Declaration<'a>>, item: &'a PointItem) -> Mem<()>
    ensures { OnOk result (list.new ≡ list.old ++ inward_declaration item.now) }
{
    if item.outward || item.negative {
        return Ok(());
    }
    add_named(list, item.point.names.items(), item.point.spot)
}

/// The points for which propagations of clauses declare an outward side.
fn outward_of<'a>(alloc: Global, points: &[InClause<'a, PointItem>]) -> Mem<DeclarationTable<'a>>
    ensures { IfOk result (λ table. table ≡ flat_map (λ scoped. outward_declaration scoped.item) points.now) }
{
    let mut list = List::new(alloc);
    for point in points {
        add_outward(&mut list, point.item())?;
    }
    DeclarationTable::of(alloc, list)
}

/// Adds the point for which a propagation declares an outward side, if it does.
fn add_outward<'a>(list: &mut List<Declaration<'a>>, item: &'a PointItem) -> Mem<()>
    ensures { OnOk result (list.new ≡ list.old ++ outward_declaration item.now) }
{
    if item.outward && !item.negative {
        return add_named(list, item.point.names.items(), item.point.spot);
    }
    Ok(())
}

/// The states of a machine, if there is one.
fn states_of<'a>(alloc: Global, machine: &Option<UsedMachine<'a>>) -> Mem<DeclarationTable<'a>>
    ensures { IfOk result (λ table. table ≡ map state_declaration (machine_states machine.now)) }
{
    match machine {
        Some(machine) => states_in(alloc, machine.decl().states.items()),
        None => DeclarationTable::of(alloc, List::new(alloc)),
    }
}

fn states_in<'a>(alloc: Global, states: &'a [StateDecl]) -> Mem<DeclarationTable<'a>>
    ensures { IfOk result (λ table. table ≡ map state_declaration states.now) }
{
    let mut list = List::new(alloc);
    for state in states {
        list.push(Declaration::new(&state.name, state.spot))?;
    }
    DeclarationTable::of(alloc, list)
}

/// The nearest declarations of features, and then those of propagation points of the user's.
fn features_of<'a>(
    alloc: Global,
    features: &[Inherited<'a, Feature>],
    user_points: &[InClause<'a, UserPoint>],
) -> Mem<DeclarationTable<'a>>
    ensures { IfOk result (λ table. table ≡ map feature_declaration features.now ++ map (λ scoped. user_point_declaration scoped.item) user_points.now) }
{
    let mut list = List::new(alloc);
    add_features(&mut list, features)?;
    for point in user_points {
        let item = point.item();
        list.push(Declaration::new(&item.name, item.spot))?;
    }
    DeclarationTable::of(alloc, list)
}

/// Adds the nearest declarations of features.
fn add_features<'a>(
    list: &mut List<Declaration<'a>>,
    features: &[Inherited<'a, Feature>],
) -> Mem<()>
    ensures { OnOk result (list.new ≡ list.old ++ map feature_declaration features.now) }
{
    for feature in features {
        let item = feature.nearest().item();
        list.push(Declaration::new(&item.name, item.spot))?;
    }
    Ok(())
}

/// Adds the point of one name.
fn add_named<'a>(list: &mut List<Declaration<'a>>, names: &'a [Identifier], spot: Spot) -> Mem<()>
    ensures { OnOk result (list.new ≡ list.old ++ named_at names.now spot) }
{
    match names {
        [name] => list.push(Declaration::new(name, spot)),
        _ => Ok(()),
    }
}
