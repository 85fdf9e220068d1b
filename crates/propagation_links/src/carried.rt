ghost use Rattle.std.specs.Prelude.{◌≡◌, ◌≤◌, ◌<◌, ◌^◌, ◌++◌, IfOk, OnOk, Some, flat_map, length, map, sum};
ghost use Rattle.propagation_links.specs.Bound.{all_carried, carried_by, carried_in};
ghost use Rattle.propagation_links.specs.Refused.{count_carried};

use crate::bound::StatedBinding;
use crate::tables::BindingTables;
use aadl_syntax::Connection;
use component_extension::Inherited;
use plain_values::{List, Mem};
use std::alloc::Global;
use std::marker::Model;

/// A connection of the component of a number, and the binding that counts for it.
#[derive(Drop)]
pub(crate) struct CarriedConnection<'r> {
    component: u32,
    connection: &'r Inherited<'r, Connection>,
    stated: StatedBinding<'r>,
}

impl<'r> Model for CarriedConnection<'r> {
    ghost use Rattle.propagation_links.specs.Stated.{Carried};

    ghost Value = { Carried };

    ghost view = { λ c. record { component = c.component; connection = c.connection.now; stated = c.stated } };
}

impl<'r> CarriedConnection<'r> {
    /// The number of the component.
    pub(crate) fn component(&self) -> u32
        ensures { result ≡ self.now.component }
    {
        self.component
    }

    /// The connection.
    pub(crate) fn connection(&self) -> &'r Inherited<'r, Connection>
        ensures { result.now ≡ self.now.connection }
    {
        self.connection
    }

    /// The binding that counts for the connection.
    pub(crate) fn stated(&self) -> &StatedBinding<'r>
        ensures { result.now ≡ self.now.stated }
    {
        &self.stated
    }
}

/// The connections of all components of an instance for which a binding counts, with that: the binding of the outermost component on
/// the way to the connection that has one with it as a target, and there the last.
pub(crate) fn carried_of<'r>(
    alloc: Global,
    tables: &BindingTables<'r>,
) -> Mem<List<CarriedConnection<'r>>>
    ensures { IfOk result (λ carried. carried ≡ all_carried tables.now) }
{
    let mut carried = List::new(alloc);
    for number in 0..tables.instance().components().len() {
        add_component(&mut carried, alloc, tables, number as u32)?;
    }
    Ok(carried)
}

/// Adds those of the component of a number.
fn add_component<'r>(
    carried: &mut List<CarriedConnection<'r>>,
    alloc: Global,
    tables: &BindingTables<'r>,
    number: u32,
) -> Mem<()>
    ensures { OnOk result (carried.new ≡ carried.old ++ carried_in tables.now number) }
{
    match tables.instance().effective(number) {
        Some(effective) => {
            let connections = effective.members.connections.items();
            add_where_any(carried, alloc, tables, number, connections)
        }
        None => Ok(()),
    }
}

/// Adds those of these connections of a component, if a component on the way to it has a binding of connections at all.
fn add_where_any<'r>(
    carried: &mut List<CarriedConnection<'r>>,
    alloc: Global,
    tables: &BindingTables<'r>,
    number: u32,
    connections: &'r [Inherited<'r, Connection>],
) -> Mem<()>
    ensures { OnOk result (carried.new ≡ carried.old ++ flat_map (carried_by tables.now number) connections.now) }
{
    if tables.any_towards(number) {
        add_connections(carried, alloc, tables, number, connections)
    } else {
        Ok(())
    }
}

fn add_connections<'r>(
    carried: &mut List<CarriedConnection<'r>>,
    alloc: Global,
    tables: &BindingTables<'r>,
    number: u32,
    connections: &'r [Inherited<'r, Connection>],
) -> Mem<()>
    ensures { OnOk result (carried.new ≡ carried.old ++ flat_map (carried_by tables.now number) connections.now) }
{
    for connection in connections {
        add_connection(carried, alloc, tables, number, connection)?;
    }
    Ok(())
}

/// Adds a connection, if a binding counts for it.
fn add_connection<'r>(
    carried: &mut List<CarriedConnection<'r>>,
    alloc: Global,
    tables: &BindingTables<'r>,
    number: u32,
    connection: &'r Inherited<'r, Connection>,
) -> Mem<()>
    ensures { OnOk result (carried.new ≡ carried.old ++ carried_by tables.now number connection.now) }
{
    let name = &connection.nearest().item().name;
    match tables.carrying(alloc, number, name)? {
        Some(stated) => carried.push(CarriedConnection {
            component: number,
            connection,
            stated,
        }),
        None => Ok(()),
    }
}

/// How many references the bindings have that count for these connections.
pub(crate) fn count_all_carried(carried: &[CarriedConnection]) -> usize
    requires { length carried.now ≤ 1048576 }
    ensures count { result ≡ sum (map count_carried carried.now) }
    ensures few { result ≤ 2 ^ 52 }
{
    let mut count = 0;
    for one in carried {
        count += count_carried(one);
    }
    count
}

fn count_carried(carried: &CarriedConnection) -> usize
    ensures count { result ≡ count_carried carried.now }
    ensures few { result < 2 ^ 32 }
{
    carried.stated().references().len()
}
