ghost use Rattle.std.specs.Prelude.{◌≡◌, IfOk, OnOk, option_copied};
ghost use Rattle.std.specs.HashMap.{get};
ghost use Rattle.package_index.specs.inner.Tables.{same_words};
ghost use Rattle.std.specs.List.{list_any};
ghost use Rattle.aadl_syntax.specs.declared.core_model.BindingKind.TheVariants.{Connection as OfConnection};
ghost use Rattle.propagation_links.specs.Bound.{is_of, kind_number, last_binding};
ghost use Rattle.propagation_links.specs.inner.Tables.{AddsBinding, KnowsBindings, PutsAt};

use aadl_syntax::{Binding, BindingKind, Identifier};
use package_index::Words;
use plain_values::{Mem, Name};
use std::alloc::Global;
use std::collections::HashMap;
use std::marker::Model;

/// By each target the last binding of a kind that has it.
type Fitting<'a> = HashMap<Words<'a>, &'a Binding>;

/// The bindings of a classifier in their order, of which the last that binds a component or a connection is found at once. Contracts see
/// them as a list.
#[derive(Drop)]
pub(crate) struct BindingTable<'a> {
    list: &'a [Binding],
    processors: Fitting<'a>,
    memories: Fitting<'a>,
    carriers: Fitting<'a>,
    performers: Fitting<'a>,
    binds_connections: bool,
}

impl<'a> Model for BindingTable<'a> {
    ghost use Rattle.std.specs.Prelude.{◌≡◌, List};
    ghost use Rattle.std.specs.List.{list_any};
    ghost use Rattle.std.specs.HashMap.{get};
    ghost use Rattle.aadl_syntax.specs.declared.core_model.Binding.{Binding as Seen};
    ghost use Rattle.aadl_syntax.specs.declared.core_model.BindingKind.TheVariants.{Connection as OfConnection, Function, Memory, Processor};
    ghost use Rattle.package_index.specs.inner.Tables.{same_words};
    ghost use Rattle.propagation_links.specs.Bound.{is_of};
    ghost use Rattle.propagation_links.specs.inner.Tables.{KnowsBindings};

    ghost Value = { List Seen };

    ghost view = { λ t. t.list.now };

    ghost invariant = { λ t. KnowsBindings Processor t.list.now (get same_words t.processors) × KnowsBindings Memory t.list.now (get same_words t.memories) × KnowsBindings OfConnection t.list.now (get same_words t.carriers) × KnowsBindings Function t.list.now (get same_words t.performers) × (t.binds_connections ≡ list_any (is_of OfConnection) t.list.now) };
}

impl<'a> BindingTable<'a> {
    /// The table of these bindings.
    pub(crate) fn of(alloc: Global, list: &'a [Binding]) -> Mem<BindingTable<'a>>
        ensures { IfOk result (λ table. table ≡ list.now) }
    {
        let processors = fitting_of(alloc, list, BindingKind::Processor)?;
        let memories = fitting_of(alloc, list, BindingKind::Memory)?;
        let carriers = fitting_of(alloc, list, BindingKind::Connection)?;
        let performers = fitting_of(alloc, list, BindingKind::Function)?;
        Ok(BindingTable {
            list,
            processors,
            memories,
            carriers,
            performers,
            binds_connections: any_of_connections(list),
        })
    }

    /// The last of the bindings of a kind that has these names as a target.
    pub(crate) fn last(&self, kind: BindingKind, names: &[Name]) -> Option<&'a Binding>
        ensures { option_copied result ≡ last_binding kind names.now self.now }
    {
        match kind {
            BindingKind::Processor => self.processors.get(&Words::Names(names)).copied(),
            BindingKind::Memory => self.memories.get(&Words::Names(names)).copied(),
            BindingKind::Connection => self.carriers.get(&Words::Names(names)).copied(),
            BindingKind::Function => self.performers.get(&Words::Names(names)).copied(),
        }
    }

    /// Whether any of the bindings binds connections.
    pub(crate) fn binds_connections(&self) -> bool
        ensures { result ≡ list_any (is_of OfConnection) self.now }
    {
        self.binds_connections
    }
}

fn any_of_connections(list: &[Binding]) -> bool
    ensures { result ≡ list_any (is_of OfConnection) list.now }
{
    list.iter()
        .any(|binding| is_of(BindingKind::Connection, binding))
}

fn fitting_of<'a>(alloc: Global, list: &'a [Binding], kind: BindingKind) -> Mem<Fitting<'a>>
    ensures { IfOk result (λ fitting. KnowsBindings kind list.now (get same_words fitting)) }
{
    let mut fitting = HashMap::new(alloc);
    for binding in list {
        add_binding(&mut fitting, binding, kind)?;
    }
    Ok(fitting)
}

/// Puts a binding at each of its targets, if it is of this kind.
fn add_binding<'a>(fitting: &mut Fitting<'a>, binding: &'a Binding, kind: BindingKind) -> Mem<()>
    ensures { OnOk result (AddsBinding kind (get same_words fitting.old) (get same_words fitting.new) binding.now) }
{
    if !is_of(kind, binding) {
        return Ok(());
    }
    for target in binding.targets.items() {
        put(fitting, target.items(), binding)?;
    }
    Ok(())
}

/// Puts a binding at a target.
fn put<'a>(fitting: &mut Fitting<'a>, target: &'a [Identifier], binding: &'a Binding) -> Mem<()>
    ensures { OnOk result (PutsAt (get same_words fitting.old) (get same_words fitting.new) target.now binding.now) }
{
    fitting.insert(Words::Identifiers(target), binding)?;
    Ok(())
}

/// Whether a binding is of a kind.
fn is_of(kind: BindingKind, binding: &Binding) -> bool
    ensures { result ≡ is_of kind binding.now }
{
    kind_number(kind) == kind_number(binding.kind)
}

/// A number for each kind of binding.
fn kind_number(kind: BindingKind) -> u32
    ensures { result ≡ kind_number kind }
{
    match kind {
        BindingKind::Processor => 0,
        BindingKind::Memory => 1,
        BindingKind::Connection => 2,
        BindingKind::Function => 3,
    }
}
