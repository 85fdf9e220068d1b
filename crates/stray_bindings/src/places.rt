//! What paths lead to.

ghost use Rattle.std.specs.Prelude.{◌≡◌, ◌||◌, IfOk, OnOk, is_some};
ghost use Rattle.std.specs.HashSet.{contains};
ghost use Rattle.std.specs.List.{list_any};
ghost use Rattle.instantiator.specs.Whole.{effective_in};
ghost use Rattle.stray_bindings.specs.Stray.{has_wire, is_bindable, is_carrier, is_connection, is_part, is_virtual_bus, is_wire, leads_to_carrier, owner_named, wire_owner};
ghost use Rattle.stray_bindings.specs.inner.Tables.{KnowsWires, WireKey, same_wire};

use aadl_syntax::{BindingKind, Category, Connection, Identifier};
use component_extension::Inherited;
use instantiator::Instance;
use plain_values::{Mem, is_same};
use std::alloc::Global;
use std::collections::HashSet;
use std::marker::Model;

/// A connection: the number of its component, and its name.
type Wire<'i> = (u32, &'i [u8]);

/// An instance, with its connections. Contracts see the instance.
#[derive(Drop)]
pub(crate) struct Places<'i> {
    instance: &'i Instance<'i, 'i>,
    wires: HashSet<Wire<'i>>,
}

impl<'i> Model for Places<'i> {
    ghost use Rattle.std.specs.Coded.{codes};
    ghost use Rattle.std.specs.HashSet.{contains};
    ghost use Rattle.aadl_syntax.specs.contracts.error_model.Condition as condition;
    ghost use Rattle.instantiator.specs.Whole.{Instance as Seen};
    ghost use Rattle.stray_bindings.specs.inner.Tables.{KnowsWires, same_wire};

    ghost Value = { Seen };

    ghost coded = { Prim.hlevel (codes, condition.the_row.coded) };

    ghost view = { λ p. p.instance.now };

    ghost invariant = { λ p. KnowsWires p.instance.now (contains same_wire p.wires) };
}

impl<'i> Places<'i> {
    /// Of an instance.
    pub(crate) fn of(alloc: Global, instance: &'i Instance<'i, 'i>) -> Mem<Places<'i>>
        ensures { IfOk result (λ places. places ≡ instance.now) }
    {
        let wires = wires_of(alloc, instance)?;
        Ok(Places { instance, wires })
    }

    /// The instance.
    pub(crate) fn instance(&self) -> &'i Instance<'i, 'i>
        ensures { result.now ≡ self.now }
    {
        self.instance
    }

    /// Whether a path leads to what a binding of a kind may bind.
    pub(crate) fn is_bindable(&self, kind: BindingKind, number: u32, path: &[Identifier]) -> bool
        ensures { result ≡ is_bindable self.now kind number path.now }
    {
        match kind {
            BindingKind::Processor | BindingKind::Memory | BindingKind::Function => {
                self.is_part(number, path)
            }
            BindingKind::Connection => {
                self.is_connection(number, path) || self.leads_to_carrier(number, path)
            }
        }
    }

    /// Whether a path leads to a component.
    pub(crate) fn is_part(&self, number: u32, path: &[Identifier]) -> bool
        ensures { result ≡ is_part self.now number path.now }
    {
        self.instance.find_below(number, path).is_some()
    }

    /// Whether a path leads to a connection.
    fn is_connection(&self, number: u32, path: &[Identifier]) -> bool
        ensures { result ≡ is_connection self.now number path.now }
    {
        self.wire_owner(number, path).is_some()
    }

    /// The component of the connection to which a path leads.
    fn wire_owner(&self, number: u32, path: &[Identifier]) -> Option<u32>
        ensures { result ≡ wire_owner self.now number path.now }
    {
        let (name, front) = path.split_last()?;
        let owner = self.instance.find_below(number, front)?;
        self.owner_named(owner, name.text())
    }

    /// The component of a number, if it has a connection of this name.
    fn owner_named(&self, owner: u32, name: &[u8]) -> Option<u32>
        ensures { result ≡ owner_named self.now owner name.now }
    {
        if self.has_wire(owner, name) {
            Some(owner)
        } else {
            None
        }
    }

    /// Whether the component of a number has a connection of this name.
    fn has_wire(&self, owner: u32, name: &[u8]) -> bool
        ensures { result ≡ has_wire self.now (owner, name.now) }
    {
        self.wires.contains(&(owner, name))
    }

    /// Whether a path leads to a virtual bus.
    fn leads_to_carrier(&self, number: u32, path: &[Identifier]) -> bool
        ensures { result ≡ leads_to_carrier self.now number path.now }
    {
        match self.instance.find_below(number, path) {
            Some(number) => self.is_carrier(number),
            None => false,
        }
    }

    /// Whether the component of a number is a virtual bus.
    fn is_carrier(&self, number: u32) -> bool
        ensures { result ≡ is_carrier self.now number }
    {
        let Some(id) = self.instance.classifier(number) else {
            return false;
        };
        match self.instance.index().decl(id) {
            Some(decl) => is_virtual_bus(&decl.category),
            None => false,
        }
    }
}

/// Whether a category is that of virtual buses.
fn is_virtual_bus(category: &Category) -> bool
    ensures { result ≡ is_virtual_bus category.now }
{
    match &category.second {
        Some(second) => {
            is_same(category.word.text(), b"virtual") && is_same(second.text(), b"bus")
        }
        None => false,
    }
}

/// The connections of an instance.
fn wires_of<'i>(alloc: Global, instance: &'i Instance<'i, 'i>) -> Mem<HashSet<Wire<'i>>>
    ensures { IfOk result (λ wires. KnowsWires instance.now (contains same_wire wires)) }
{
    let mut wires = HashSet::new(alloc);
    for number in 0..instance.components().len() {
        add_component(&mut wires, instance, number as u32)?;
    }
    Ok(wires)
}

/// Adds those of the component of a number.
fn add_component<'i>(
    wires: &mut HashSet<Wire<'i>>,
    instance: &'i Instance<'i, 'i>,
    number: u32,
) -> Mem<()>
    ensures { OnOk result ((key : WireKey) → contains same_wire wires.new key
        ≡ contains same_wire wires.old key || list_any (is_wire (key.0, key.1.now) number) (effective_in instance.now number).members.connections) }
{
    match instance.effective(number) {
        Some(effective) => add_all(wires, number, effective.members.connections.items()),
        None => Ok(()),
    }
}

fn add_all<'i>(
    wires: &mut HashSet<Wire<'i>>,
    number: u32,
    members: &'i [Inherited<'i, Connection>],
) -> Mem<()>
    ensures { OnOk result ((key : WireKey) → contains same_wire wires.new key
        ≡ contains same_wire wires.old key || list_any (is_wire (key.0, key.1.now) number) members.now) }
{
    for member in members {
        add_one(wires, number, member)?;
    }
    Ok(())
}

fn add_one<'i>(
    wires: &mut HashSet<Wire<'i>>,
    number: u32,
    member: &'i Inherited<'i, Connection>,
) -> Mem<()>
    ensures { OnOk result ((key : WireKey) → contains same_wire wires.new key ≡ contains same_wire wires.old key || is_wire (key.0, key.1.now) number member.now) }
{
    let name = member.nearest().item().name.text();
    wires.insert((number, name))?;
    Ok(())
}
