ghost use Rattle.std.specs.Prelude.{◌≡◌, ◌≤◌, ◌<◌, ◌^◌, ◌++◌, length, IfOk, OnOk};
ghost use Rattle.propagation_links.specs.Bound.{all_bounds, all_functions, all_held, all_held_in, bounds_in, held_as_bus};

use crate::tables::BindingTables;
use aadl_syntax::{BindingKind, Identifier};
use plain_values::{List, Mem};
use profiles::Profile;
use std::alloc::Global;
use std::marker::Model;

/// The references of a binding, and the number of the component that states it: these paths begin there.
#[derive(Drop)]
pub(crate) struct StatedBinding<'r> {
    component: u32,
    references: &'r List<List<Identifier>>,
    further: bool,
}

impl<'r> Model for StatedBinding<'r> {
    ghost use Rattle.propagation_links.specs.Stated.{Stated};

    ghost Value = { Stated };

    ghost view = { λ s. record { component = s.component; references = s.references.now; further = s.further } };
}

impl<'r> StatedBinding<'r> {
    /// What the component of a number states; `further` where the first profile does not read it.
    pub(crate) fn new(
        component: u32,
        references: &'r List<List<Identifier>>,
        further: bool,
    ) -> StatedBinding<'r>
        ensures { result ≡ record { component = component; references = references.now; further = further } }
    {
        StatedBinding {
            component,
            references,
            further,
        }
    }

    /// The number of the component.
    pub(crate) fn component(&self) -> u32
        ensures { result ≡ self.now.component }
    {
        self.component
    }

    /// The references of the binding.
    pub(crate) fn references(&self) -> &'r [List<Identifier>]
        ensures references { result.now ≡ self.now.references }
        ensures few { length self.now.references < 2 ^ 32 }
    {
        self.references.items()
    }

    /// Whether the first profile does not read it.
    pub(crate) fn is_further(&self) -> bool
        ensures { result ≡ self.now.further }
    {
        self.further
    }
}

/// The binding of a kind that holds for the component of a number, if there is one.
#[derive(Drop)]
pub(crate) struct BoundTo<'r> {
    pub(crate) component: u32,
    pub(crate) kind: BindingKind,
    pub(crate) stated: Option<StatedBinding<'r>>,
}

/// What each component of an instance is bound to, in order: first a processor and then a memory, by the binding of the outermost
/// component on the way to it that has one with it as a target, and there the last.
pub(crate) fn bounds_of<'r>(alloc: Global, tables: &BindingTables<'r>) -> Mem<List<BoundTo<'r>>>
    ensures bounds { IfOk result (λ bounds. bounds ≡ all_bounds tables.now) }
    ensures few { IfOk result (λ bounds. length bounds ≤ 8192) }
{
    let mut bounds = List::new(alloc);
    for number in 0..tables.instance().components().len() {
        add_bounds(&mut bounds, alloc, tables, number as u32)?;
    }
    Ok(bounds)
}

fn add_bounds<'r>(
    bounds: &mut List<BoundTo<'r>>,
    alloc: Global,
    tables: &BindingTables<'r>,
    number: u32,
) -> Mem<()>
    ensures { OnOk result (bounds.new ≡ bounds.old ++ bounds_in tables.now number) }
{
    let processor = tables.bound_in(alloc, Profile::First, BindingKind::Processor, number)?;
    bounds.push(processor)?;
    let memory = tables.bound_in(alloc, Profile::First, BindingKind::Memory, number)?;
    bounds.push(memory)
}

/// What holds for each component of an instance by the second profile alone, in order: a processor, a memory, and of a virtual bus what
/// carries it.
pub(crate) fn held_of<'r>(alloc: Global, tables: &BindingTables<'r>) -> Mem<List<BoundTo<'r>>>
    ensures held { IfOk result (λ held. held ≡ all_held tables.now) }
    ensures few { IfOk result (λ held. length held ≤ 12288) }
{
    let mut held = List::new(alloc);
    for number in 0..tables.instance().components().len() {
        add_held(&mut held, alloc, tables, number as u32)?;
    }
    Ok(held)
}

fn add_held<'r>(
    held: &mut List<BoundTo<'r>>,
    alloc: Global,
    tables: &BindingTables<'r>,
    number: u32,
) -> Mem<()>
    ensures { OnOk result (held.new ≡ held.old ++ all_held_in tables.now number) }
{
    let processor = tables.held_in(alloc, BindingKind::Processor, number)?;
    held.push(processor)?;
    let memory = tables.held_in(alloc, BindingKind::Memory, number)?;
    held.push(memory)?;
    add_as_bus(held, alloc, tables, number)
}

/// Adds what carries the component of a number, if it is a virtual bus.
fn add_as_bus<'r>(
    held: &mut List<BoundTo<'r>>,
    alloc: Global,
    tables: &BindingTables<'r>,
    number: u32,
) -> Mem<()>
    ensures { OnOk result (held.new ≡ held.old ++ held_as_bus tables.now number) }
{
    if tables.is_virtual_bus(number) {
        held.push(tables.held_in(alloc, BindingKind::Connection, number)?)
    } else {
        Ok(())
    }
}

/// What performs the function of each component of an instance, in order.
pub(crate) fn functions_of<'r>(alloc: Global, tables: &BindingTables<'r>) -> Mem<List<BoundTo<'r>>>
    ensures functions { IfOk result (λ functions. functions ≡ all_functions tables.now) }
    ensures few { IfOk result (λ functions. length functions ≤ 8192) }
{
    let mut functions = List::new(alloc);
    for number in 0..tables.instance().components().len() {
        let second = Profile::Second;
        let function = tables.bound_in(alloc, second, BindingKind::Function, number as u32)?;
        functions.push(function)?;
    }
    Ok(functions)
}
